ghost use Rattle.std.specs.Prelude.{◌≡◌, IsSome, OnOk};
ghost use Rattle.std.specs.FinMap as maps;
ghost use Rattle.wb_store.specs.Contents.{kind};
ghost use Rattle.wb_rows.specs.Rows.{object_row, object_rows};
ghost use Rattle.wb_rows.specs.Texts.{with_rows};

use crate::row_map::RowMap;
use std::alloc::{AllocError, Global};
use wb_metamodel::ObjectId;
use wb_model::Model;
use wb_model_json::write_object;

/// A row for each live object.
pub(crate) fn put_objects(alloc: Global, rows: &mut RowMap, model: &Model) -> Result<(), AllocError>
    ensures { OnOk result (rows.new ≡ with_rows (object_rows model.now) rows.old) }
{
    let objects = model.objects(alloc)?;
    for object in objects.as_slice() {
        put_object(alloc, rows, model, *object)?;
    }
    Ok(())
}

fn put_object(
    alloc: Global,
    rows: &mut RowMap,
    model: &Model,
    o: ObjectId,
) -> Result<(), AllocError>
    requires { IsSome (kind model.now o) }
    ensures { OnOk result (rows.new ≡ maps.insert rows.old (object_row model.now o).key (object_row model.now o).text) }
{
    let text = write_object(alloc, model, o)?;
    rows.put(format!(in alloc; "o/{}", o.0)?, text.into_bytes())
}
