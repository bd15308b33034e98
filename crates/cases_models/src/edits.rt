//! Edits by lines. Each function puts an answer last, and answers false where the line asks for no such edit or has a wrong word.
ghost use Rattle.std.specs.Prelude.{◌<◌, length};

use crate::asked::Asked;
use crate::names::{class, feature, object};
use crate::shown::{push_creation, push_edited};
use crate::values::value;
use std::alloc::{AllocError, Global};
use wb_metamodel::{ClassId, FeatureId, ObjectId};
use wb_model::{ChangeList, Model, ModelRefusal, Place, Scalar};

pub fn push_edit(
    alloc: Global,
    shown: &mut String,
    model: &mut Model,
    asked: &Asked<'_>,
) -> Result<bool, AllocError> {
    match asked.name {
        "create" => push_create(alloc, shown, model, asked),
        "remove" => push_remove(alloc, shown, model, asked),
        _ => push_slot_edit(alloc, shown, model, asked),
    }
}

/// `create root - Library`, or `create 1 Library.loans Loan`.
fn push_create(
    alloc: Global,
    shown: &mut String,
    model: &mut Model,
    asked: &Asked<'_>,
) -> Result<bool, AllocError> {
    match class(model.metamodel(), asked.value) {
        Some(class) if asked.object == "root" => push_creation(
            shown,
            model.create(alloc, class, Place::Root, &mut ChangeList::new()),
        ),
        Some(class) => push_create_in(alloc, shown, model, asked, class),
        None => Ok(false),
    }
}

fn push_create_in(
    alloc: Global,
    shown: &mut String,
    model: &mut Model,
    asked: &Asked<'_>,
    class: ClassId,
) -> Result<bool, AllocError>
    requires { class < length model.old.metamodel.classes }
{
    match (
        object(asked.object),
        feature(model.metamodel(), asked.feature),
    ) {
        (Some(p), Some(f)) => push_creation(
            shown,
            model.create(alloc, class, Place::In(p, f), &mut ChangeList::new()),
        ),
        _ => Ok(false),
    }
}

fn push_remove(
    alloc: Global,
    shown: &mut String,
    model: &mut Model,
    asked: &Asked<'_>,
) -> Result<bool, AllocError> {
    match object(asked.object) {
        Some(o) => push_edited(shown, model.remove(alloc, o, &mut ChangeList::new())),
        None => Ok(false),
    }
}

fn push_slot_edit(
    alloc: Global,
    shown: &mut String,
    model: &mut Model,
    asked: &Asked<'_>,
) -> Result<bool, AllocError> {
    match (
        object(asked.object),
        feature(model.metamodel(), asked.feature),
    ) {
        (Some(o), Some(f)) => push_edit_at(alloc, shown, model, asked, o, f),
        _ => Ok(false),
    }
}

fn push_edit_at(
    alloc: Global,
    shown: &mut String,
    model: &mut Model,
    asked: &Asked<'_>,
    o: ObjectId,
    f: FeatureId,
) -> Result<bool, AllocError>
    requires { f < length model.old.metamodel.features }
{
    match asked.name {
        "unset" => push_edited(shown, model.unset(alloc, o, f, &mut ChangeList::new())),
        "move" => push_move(alloc, shown, model, asked, o, f),
        _ => push_value_edit(alloc, shown, model, asked, o, f),
    }
}

fn push_move(
    alloc: Global,
    shown: &mut String,
    model: &mut Model,
    asked: &Asked<'_>,
    o: ObjectId,
    f: FeatureId,
) -> Result<bool, AllocError>
    requires { f < length model.old.metamodel.features }
{
    match object(asked.value) {
        Some(p) => push_edited(shown, model.move_to(alloc, o, p, f, &mut ChangeList::new())),
        None => Ok(false),
    }
}

fn push_value_edit(
    alloc: Global,
    shown: &mut String,
    model: &mut Model,
    asked: &Asked<'_>,
    o: ObjectId,
    f: FeatureId,
) -> Result<bool, AllocError>
    requires { f < length model.old.metamodel.features }
{
    match value(alloc, asked.value)? {
        Some(value) => push_edited(shown, edited(alloc, model, asked.name, o, f, value)),
        None => Ok(false),
    }
}

/// The answer to `set`, `add` or `take`.
fn edited(
    alloc: Global,
    model: &mut Model,
    name: &str,
    o: ObjectId,
    f: FeatureId,
    value: Scalar,
) -> Result<(), ModelRefusal>
    requires { f < length model.old.metamodel.features }
{
    let mut log = ChangeList::new();
    match name {
        "set" => model.set(alloc, o, f, value, &mut log),
        "add" => model.add(alloc, o, f, value, &mut log),
        _ => model.take(alloc, o, f, &value, &mut log),
    }
}
