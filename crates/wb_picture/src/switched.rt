ghost use Rattle.std.specs.Prelude.{◌≡◌, IfOk};
ghost use Rattle.wb_viewpoint.specs.declared.filters.Filter.{Filter};
ghost use Rattle.wb_viewpoint.specs.declared.layers.Layer.{Layer};
ghost use Rattle.wb_picture.specs.Picture.{active_filters, active_layers, is_active_layer, is_additional, is_on, names_where};

use crate::names::text_of;
use std::alloc::{AllocError, Global};
use wb_base::{List, Text};
use wb_viewpoint::{Content, Filter, Layer};

/// The names of the active filters, in the viewpoint's order.
#[tactic(auto, unfolding(crate::specs::Picture::active_filters))]
pub fn active_filters(
    alloc: Global,
    on: &[u32],
    content: &Content,
) -> Result<List<Text>, AllocError>
    ensures { IfOk result (λ names. names ≡ active_filters on.now content.now) }
{
    filter_names(alloc, on, content.filters.as_slice())
}

fn filter_names(alloc: Global, on: &[u32], filters: &[Filter]) -> Result<List<Text>, AllocError>
    ensures { IfOk result (λ names. names ≡ names_where (λ (it : Filter). it.name) (is_on on.now) filters.now) }
{
    let mut names = Vec::new(alloc);
    for (number, filter) in filters.iter().enumerate() {
        if is_on(on, number) {
            names.push(text_of(alloc, &filter.name)?)?;
        }
    }
    Ok(List::from_vec(names))
}

/// The names of the active layers but the first, in the viewpoint's order.
#[tactic(auto, unfolding(crate::specs::Picture::active_layers))]
pub fn active_layers(alloc: Global, on: &[u32], content: &Content) -> Result<List<Text>, AllocError>
    ensures { IfOk result (λ names. names ≡ active_layers on.now content.now) }
{
    layer_names(alloc, on, content.layers.as_slice())
}

fn layer_names(alloc: Global, on: &[u32], layers: &[Layer]) -> Result<List<Text>, AllocError>
    ensures { IfOk result (λ names. names ≡ names_where (λ (it : Layer). it.name) (is_active_layer on.now) layers.now) }
{
    let mut names = Vec::new(alloc);
    for (number, layer) in layers.iter().enumerate() {
        if is_active_layer(on, number) {
            names.push(text_of(alloc, &layer.name)?)?;
        }
    }
    Ok(List::from_vec(names))
}

// Is this an active layer beside the first?
fn is_active_layer(on: &[u32], number: usize) -> bool
    ensures { result ≡ is_active_layer on.now number }
{
    is_additional(number) && is_on(on, number)
}

// Is the number among those that are switched on?
fn is_on(on: &[u32], number: usize) -> bool
    ensures { result ≡ is_on on.now number }
{
    on.iter().any(|known| number == *known as usize)
}

/// Is the layer of this number another than the first?
pub fn is_additional(number: usize) -> bool
    ensures { result ≡ is_additional number }
{
    number != 0
}
