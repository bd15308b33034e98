ghost use Rattle.std.specs.Prelude.{◌≡◌, All, map, OnOk};
ghost use Rattle.wb_diagram.specs.Keys.{IsPath, IsWritable};
ghost use Rattle.wb_rows.specs.Rows.{hidden_row, shown_row};
ghost use Rattle.wb_rows.specs.Texts.{with_rows};

use crate::row_map::RowMap;
use crate::spelling::{any_key, element_key};
use std::alloc::{AllocError, Global};
use wb_diagram::{AnyKey, Key};

/// A row for each key that is marked shown.
pub(crate) fn put_shown(alloc: Global, rows: &mut RowMap, keys: &[Key]) -> Result<(), AllocError>
    requires { All IsPath keys.now }
    ensures { OnOk result (rows.new ≡ with_rows (map shown_row keys.now) rows.old) }
{
    for key in keys {
        rows.put(element_key(alloc, "s/", key)?, Vec::new(alloc))?;
    }
    Ok(())
}

/// A row for each key that is marked hidden.
pub(crate) fn put_hidden(
    alloc: Global,
    rows: &mut RowMap,
    keys: &[AnyKey],
) -> Result<(), AllocError>
    requires { All IsWritable keys.now }
    ensures { OnOk result (rows.new ≡ with_rows (map hidden_row keys.now) rows.old) }
{
    for key in keys {
        rows.put(any_key(alloc, "h/", key)?, Vec::new(alloc))?;
    }
    Ok(())
}
