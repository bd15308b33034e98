ghost use Rattle.std.specs.Prelude.{◌≡◌};
ghost use Rattle.serde_json.specs.View.{view};
ghost use Rattle.wb_json.specs.Form.{Gives, nullable, name_of, needed};
ghost use Rattle.wb_commands.specs.Forms.{edit_of, new_slot_of, slot_of, slot_with};

use crate::members::{name_at, object_at, value_at};
use std::alloc::Global;
use wb_base::Text;
use wb_diagram::{Given, NamedSlot, ObjectId};
use wb_json::{Name, Value, Wrong, listed, needed};

/// A slot with a value.
#[derive(Drop)]
pub(crate) struct Edit {
    pub slot: NamedSlot,
    pub value: Given,
}

/// A slot. The object stands at this name.
pub(crate) fn read_slot(alloc: Global, value: &Value, name: &str) -> Result<NamedSlot, Wrong>
    ensures { Gives result (slot_of name.now (view value.now)) }
{
    let object = object_at(alloc, value, name)?;
    let feature = name_at(alloc, value, "feature")?;
    Ok(NamedSlot { object, feature })
}

/// What is edited, of a command that gives a slot and a value.
pub(crate) fn read_edit(alloc: Global, value: &Value) -> Result<Edit, Wrong>
    ensures { Gives result (edit_of (view value.now)) }
{
    listed(
        alloc,
        value,
        &["command", "revision", "object", "feature", "value"],
    )?;
    let slot = read_slot(alloc, value, "object")?;
    let value = value_at(alloc, value, "value")?;
    Ok(Edit { slot, value })
}

/// The slot of a new object, and none where it is a root.
pub(crate) fn read_new_slot(alloc: Global, value: &Value) -> Result<Option<NamedSlot>, Wrong>
    ensures { Gives result (new_slot_of (view value.now)) }
{
    let object = needed(alloc, value, "in")?;
    let feature = needed(alloc, value, "feature")?;
    slot_with(alloc, object, feature)
}

fn slot_with(
    alloc: Global,
    object: Option<u32>,
    feature: Option<Name>,
) -> Result<Option<NamedSlot>, Wrong>
    ensures { Gives result (slot_with object feature) }
{
    match (object, feature) {
        (None, None) => Ok(None),
        (Some(object), Some(feature)) => Ok(Some(NamedSlot {
            object: ObjectId(object),
            feature: feature.into_text(),
        })),
        _ => Err(Wrong::here(alloc)),
    }
}
