ghost use Rattle.std.specs.Prelude.{◌≡◌, All, map, OnOk};
ghost use Rattle.std.specs.FinMap as maps;
ghost use Rattle.wb_diagram.specs.Keys.{IsPath};
ghost use Rattle.wb_rows.specs.Rows.{position_row};
ghost use Rattle.wb_rows.specs.Texts.{with_rows};

use crate::row_map::RowMap;
use crate::spelling::{element_key, position_text};
use std::alloc::{AllocError, Global};
use wb_diagram::Key;
use wb_layout::Layout;

/// A row for each element that was placed.
pub(crate) fn put_positions(
    alloc: Global,
    rows: &mut RowMap,
    layout: &Layout,
) -> Result<(), AllocError>
    requires { All IsPath (maps.keys layout.now) }
    ensures { OnOk result (rows.new ≡ with_rows (map position_row (maps.entries layout.now)) rows.old) }
{
    for i in 0..usize::MAX {
        let Some(key) = layout.key(i) else {
            return Ok(());
        };
        if let Some(at) = layout.at(key) {
            put_position(alloc, rows, key, at)?;
        }
    }
    // No memory holds so many.
    Err(AllocError)
}

fn put_position(
    alloc: Global,
    rows: &mut RowMap,
    key: &Key,
    at: (i64, i64),
) -> Result<(), AllocError>
    requires { IsPath key.now }
    ensures { OnOk result (rows.new ≡ maps.insert rows.old (position_row (key.now, at)).key (position_row (key.now, at)).text) }
{
    rows.put(
        element_key(alloc, "p/", key)?,
        position_text(alloc, at.0, at.1)?.into_bytes(),
    )
}
