ghost use Rattle.std.specs.Prelude.{◌≡◌, map, OnOk};
ghost use Rattle.wb_picture.specs.Picture.{active_filters, active_layers, is_active_layer, is_on, names_where};
ghost use Rattle.wb_viewpoint.specs.declared.filters.Filter.{Filter};
ghost use Rattle.wb_viewpoint.specs.declared.layers.Layer.{Layer};
ghost use Rattle.wb_rows.specs.Rows.{filter_row, layer_row};
ghost use Rattle.wb_rows.specs.Texts.{with_rows};

use crate::row_map::RowMap;
use crate::spelling::key_of;
use std::alloc::{AllocError, Global};
use wb_viewpoint::{Content, Filter, Layer};

/// A row for each active layer beside the first.
#[tactic(auto, unfolding(wb_picture::specs::Picture::active_layers))]
pub(crate) fn put_layers(
    alloc: Global,
    rows: &mut RowMap,
    on: &[u32],
    content: &Content,
) -> Result<(), AllocError>
    ensures { OnOk result (rows.new ≡ with_rows (map layer_row (active_layers on.now content.now)) rows.old) }
{
    put_active_layers(alloc, rows, on, content.layers.as_slice())
}

fn put_active_layers(
    alloc: Global,
    rows: &mut RowMap,
    on: &[u32],
    layers: &[Layer],
) -> Result<(), AllocError>
    ensures { OnOk result (rows.new ≡ with_rows (map layer_row (names_where (λ (it : Layer). it.name) (is_active_layer on.now) layers.now)) rows.old) }
{
    for (number, layer) in layers.iter().enumerate() {
        if is_active_layer(on, number) {
            rows.put(key_of(alloc, "l/", layer.name.as_str())?, Vec::new(alloc))?;
        }
    }
    Ok(())
}

/// A row for each active filter.
#[tactic(auto, unfolding(wb_picture::specs::Picture::active_filters))]
pub(crate) fn put_filters(
    alloc: Global,
    rows: &mut RowMap,
    on: &[u32],
    content: &Content,
) -> Result<(), AllocError>
    ensures { OnOk result (rows.new ≡ with_rows (map filter_row (active_filters on.now content.now)) rows.old) }
{
    put_active_filters(alloc, rows, on, content.filters.as_slice())
}

fn put_active_filters(
    alloc: Global,
    rows: &mut RowMap,
    on: &[u32],
    filters: &[Filter],
) -> Result<(), AllocError>
    ensures { OnOk result (rows.new ≡ with_rows (map filter_row (names_where (λ (it : Filter). it.name) (is_on on.now) filters.now)) rows.old) }
{
    for (number, filter) in filters.iter().enumerate() {
        if is_on(on, number) {
            rows.put(key_of(alloc, "f/", filter.name.as_str())?, Vec::new(alloc))?;
        }
    }
    Ok(())
}

// Is the layer of this number another than the first, and active?
fn is_active_layer(on: &[u32], number: usize) -> bool
    ensures { result ≡ is_active_layer on.now number }
{
    number != 0 && is_on(on, number)
}

// Is the number among those that are switched on?
fn is_on(on: &[u32], number: usize) -> bool
    ensures { result ≡ is_on on.now number }
{
    on.iter().any(|known| number == *known as usize)
}
