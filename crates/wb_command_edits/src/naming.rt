ghost use Rattle.std.specs.Prelude.{◌<◌, length, Some, Result, IfOk, IfSome};
ghost use Rattle.std.specs.Option.{option_transpose};
ghost use Rattle.wb_base.specs.Answering.{AsDefined};
ghost use Rattle.wb_metamodel.specs.Metamodel.{Metamodel};
ghost use Rattle.wb_model.specs.declared.edits.edit.Edit.{Edit};
ghost use Rattle.wb_model.specs.GivenEdits.{EditIsKnown};
ghost use Rattle.wb_command_edits.specs.declared.refusal.NameRefusal.{NameRefusal};
ghost use Rattle.wb_command_edits.specs.NamedEdits.{add_named, create_named, edit_named, move_named, named, remove_named, set_named, take_named, unset_named, value_named};

use crate::names::{class_named, feature_in, live, live_value};
use crate::refusal::NameRefusal;
use crate::values::scalar_in;
use std::alloc::Global;
use wb_diagram::{Action, Given, NamedSlot};
use wb_metamodel::{FeatureId, ObjectId, Text};
use wb_model::{Edit, Model, Place, Scalar};

/// The edit that a command asks for, `None` where it asks for none, or why its names name nothing.
pub fn edit_named(
    alloc: Global,
    model: &Model,
    action: &Action,
) -> Result<Option<Edit>, NameRefusal>
    ensures named { AsDefined named (option_transpose (edit_named model.now action.now)) result }
    ensures known { IfOk result (λ edit. IfSome edit (EditIsKnown model.now.metamodel)) }
{
    match action {
        Action::Create { class, slot } => asked(create_named(model, class, slot)),
        Action::Set { slot, value } => asked(set_named(alloc, model, slot, value)),
        Action::Add { slot, value } => asked(add_named(alloc, model, slot, value)),
        Action::Take { slot, value } => asked(take_named(alloc, model, slot, value)),
        Action::Unset { slot } => asked(unset_named(model, slot)),
        Action::MoveTo { object, slot } => asked(move_named(model, *object, slot)),
        Action::Remove { object } => asked(remove_named(model, *object)),
        _ => Ok(None),
    }
}

// An edit is asked for.
fn asked(edit: Result<Edit, NameRefusal>) -> Result<Option<Edit>, NameRefusal>
    ensures named { (given : Result Edit NameRefusal) → AsDefined named given edit → AsDefined named (option_transpose (Some given)) result }
    ensures known { (metamodel : Metamodel) → IfOk edit (EditIsKnown metamodel) → IfOk result (λ e. IfSome e (EditIsKnown metamodel)) }
{
    match edit {
        Ok(edit) => Ok(Some(edit)),
        Err(refusal) => Err(refusal),
    }
}

fn create_named(model: &Model, class: &Text, slot: &Option<NamedSlot>) -> Result<Edit, NameRefusal>
    ensures named { AsDefined named (create_named model.now class.now slot.now) result }
    ensures known { IfOk result (EditIsKnown model.now.metamodel) }
{
    match slot {
        Some(slot) => create_in(model, class, slot),
        None => Ok(Edit::Create {
            class: class_named(model, class)?,
            place: Place::Root,
        }),
    }
}

fn create_in(model: &Model, class: &Text, slot: &NamedSlot) -> Result<Edit, NameRefusal>
    ensures named { AsDefined named (create_named model.now class.now (Some slot.now)) result }
    ensures known { IfOk result (EditIsKnown model.now.metamodel) }
{
    let own = live(model, slot.object)?;
    let class = class_named(model, class)?;
    let feature = feature_in(model, own, slot)?;
    Ok(Edit::Create {
        class,
        place: Place::In(slot.object, feature),
    })
}

// The feature of a slot, and the value that is given for it.
fn value_named(
    alloc: Global,
    model: &Model,
    slot: &NamedSlot,
    value: &Given,
) -> Result<(FeatureId, Scalar), NameRefusal>
    ensures named { AsDefined named (value_named model.now slot.now value.now) result }
    ensures known { IfOk result (λ it. it.0 < length model.now.metamodel.features) }
{
    let own = live(model, slot.object)?;
    live_value(model, value)?;
    let feature = feature_in(model, own, slot)?;
    let scalar = scalar_in(alloc, model.metamodel(), feature, value)?;
    Ok((feature, scalar))
}

fn set_named(
    alloc: Global,
    model: &Model,
    slot: &NamedSlot,
    value: &Given,
) -> Result<Edit, NameRefusal>
    ensures named { AsDefined named (set_named model.now slot.now value.now) result }
    ensures known { IfOk result (EditIsKnown model.now.metamodel) }
{
    let (feature, value) = value_named(alloc, model, slot, value)?;
    Ok(Edit::Set {
        object: slot.object,
        feature,
        value,
    })
}

fn add_named(
    alloc: Global,
    model: &Model,
    slot: &NamedSlot,
    value: &Given,
) -> Result<Edit, NameRefusal>
    ensures named { AsDefined named (add_named model.now slot.now value.now) result }
    ensures known { IfOk result (EditIsKnown model.now.metamodel) }
{
    let (feature, value) = value_named(alloc, model, slot, value)?;
    Ok(Edit::Add {
        object: slot.object,
        feature,
        value,
    })
}

fn take_named(
    alloc: Global,
    model: &Model,
    slot: &NamedSlot,
    value: &Given,
) -> Result<Edit, NameRefusal>
    ensures named { AsDefined named (take_named model.now slot.now value.now) result }
    ensures known { IfOk result (EditIsKnown model.now.metamodel) }
{
    let (feature, value) = value_named(alloc, model, slot, value)?;
    Ok(Edit::Take {
        object: slot.object,
        feature,
        value,
    })
}

fn unset_named(model: &Model, slot: &NamedSlot) -> Result<Edit, NameRefusal>
    ensures named { AsDefined named (unset_named model.now slot.now) result }
    ensures known { IfOk result (EditIsKnown model.now.metamodel) }
{
    let own = live(model, slot.object)?;
    let feature = feature_in(model, own, slot)?;
    Ok(Edit::Unset {
        object: slot.object,
        feature,
    })
}

fn move_named(model: &Model, object: ObjectId, slot: &NamedSlot) -> Result<Edit, NameRefusal>
    ensures named { AsDefined named (move_named model.now object slot.now) result }
    ensures known { IfOk result (EditIsKnown model.now.metamodel) }
{
    live(model, object)?;
    let own = live(model, slot.object)?;
    let feature = feature_in(model, own, slot)?;
    Ok(Edit::MoveTo {
        object,
        container: slot.object,
        feature,
    })
}

fn remove_named(model: &Model, object: ObjectId) -> Result<Edit, NameRefusal>
    ensures named { AsDefined named (remove_named model.now object) result }
    ensures known { IfOk result (EditIsKnown model.now.metamodel) }
{
    live(model, object)?;
    Ok(Edit::Remove { object })
}
