//! Looks at a model by lines. Each function answers false where the line is no such look or has a wrong word.
use crate::asked::Asked;
use crate::names::{class, feature, object};
use crate::shown::{push_class, push_none, push_objects, push_places, push_values};
use std::alloc::{AllocError, Global};
use wb_metamodel::ObjectId;
use wb_model::Model;

pub fn push_look(
    alloc: Global,
    shown: &mut String,
    model: &Model,
    asked: &Asked<'_>,
) -> Result<bool, AllocError> {
    match asked.name {
        "next" => write!(shown, "{}", model.next())?,
        "roots" => push_objects(shown, model.roots())?,
        "objects" => push_objects(shown, model.objects(alloc)?.as_slice())?,
        "extent" => return push_extent(alloc, shown, model, asked),
        _ => match object(asked.object) {
            Some(o) => return push_object_look(alloc, shown, model, asked, o),
            None => return Ok(false),
        },
    }
    Ok(true)
}

fn push_extent(
    alloc: Global,
    shown: &mut String,
    model: &Model,
    asked: &Asked<'_>,
) -> Result<bool, AllocError> {
    match class(model.metamodel(), asked.text) {
        Some(c) => {
            push_objects(shown, model.extent(alloc, c)?.as_slice())?;
            Ok(true)
        }
        None => Ok(false),
    }
}

fn push_object_look(
    alloc: Global,
    shown: &mut String,
    model: &Model,
    asked: &Asked<'_>,
    o: ObjectId,
) -> Result<bool, AllocError> {
    match asked.name {
        "kind" => push_kind(shown, model, o)?,
        "holder" => push_holder(shown, model, o)?,
        "tree" => push_objects(shown, model.tree(alloc, o)?.as_slice())?,
        "inverse" => push_inverse(alloc, shown, model, o)?,
        "slot" => return push_slot(shown, model, asked, o),
        _ => return Ok(false),
    }
    Ok(true)
}

pub fn push_kind(shown: &mut String, model: &Model, o: ObjectId) -> Result<(), AllocError> {
    match model.kind(o) {
        Some(c) => push_class(shown, model.metamodel(), c),
        None => push_none(shown, true),
    }
}

pub fn push_holder(shown: &mut String, model: &Model, o: ObjectId) -> Result<(), AllocError> {
    match model.holder(o) {
        Some(place) => push_places(shown, model.metamodel(), &[place]),
        None => push_none(shown, true),
    }
}

pub fn push_inverse(
    alloc: Global,
    shown: &mut String,
    model: &Model,
    o: ObjectId,
) -> Result<(), AllocError> {
    push_places(
        shown,
        model.metamodel(),
        model.inverse(alloc, o)?.as_slice(),
    )
}

fn push_slot(
    shown: &mut String,
    model: &Model,
    asked: &Asked<'_>,
    o: ObjectId,
) -> Result<bool, AllocError> {
    match feature(model.metamodel(), asked.feature) {
        Some(f) => {
            push_values(shown, model.get(o, f))?;
            Ok(true)
        }
        None => Ok(false),
    }
}
