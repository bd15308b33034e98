//! Commands that edit the model.
ghost use Rattle.serde_json.specs.View.{view};
ghost use Rattle.wb_json.specs.Form.{Gives};
ghost use Rattle.wb_commands.specs.Forms.{add_of, create_of, move_to_of, remove_of, set_of, take_of, unset_of};

use crate::members::{name_at, object_at};
use crate::slots::{Edit, read_edit, read_new_slot, read_slot};
use std::alloc::Global;
use wb_diagram::Action;
use wb_json::{Value, Wrong, listed};

pub(crate) fn read_create(alloc: Global, value: &Value) -> Result<Action, Wrong>
    ensures { Gives result (create_of (view value.now)) }
{
    listed(
        alloc,
        value,
        &["command", "revision", "class", "in", "feature"],
    )?;
    let class = name_at(alloc, value, "class")?;
    let slot = read_new_slot(alloc, value)?;
    Ok(Action::Create { class, slot })
}

pub(crate) fn read_set(alloc: Global, value: &Value) -> Result<Action, Wrong>
    ensures { Gives result (set_of (view value.now)) }
{
    let Edit { slot, value } = read_edit(alloc, value)?;
    Ok(Action::Set { slot, value })
}

pub(crate) fn read_add(alloc: Global, value: &Value) -> Result<Action, Wrong>
    ensures { Gives result (add_of (view value.now)) }
{
    let Edit { slot, value } = read_edit(alloc, value)?;
    Ok(Action::Add { slot, value })
}

pub(crate) fn read_take(alloc: Global, value: &Value) -> Result<Action, Wrong>
    ensures { Gives result (take_of (view value.now)) }
{
    let Edit { slot, value } = read_edit(alloc, value)?;
    Ok(Action::Take { slot, value })
}

pub(crate) fn read_unset(alloc: Global, value: &Value) -> Result<Action, Wrong>
    ensures { Gives result (unset_of (view value.now)) }
{
    listed(alloc, value, &["command", "revision", "object", "feature"])?;
    let slot = read_slot(alloc, value, "object")?;
    Ok(Action::Unset { slot })
}

pub(crate) fn read_move_to(alloc: Global, value: &Value) -> Result<Action, Wrong>
    ensures { Gives result (move_to_of (view value.now)) }
{
    listed(
        alloc,
        value,
        &["command", "revision", "object", "in", "feature"],
    )?;
    let object = object_at(alloc, value, "object")?;
    let slot = read_slot(alloc, value, "in")?;
    Ok(Action::MoveTo { object, slot })
}

pub(crate) fn read_remove(alloc: Global, value: &Value) -> Result<Action, Wrong>
    ensures { Gives result (remove_of (view value.now)) }
{
    listed(alloc, value, &["command", "revision", "object"])?;
    let object = object_at(alloc, value, "object")?;
    Ok(Action::Remove { object })
}
