//! All that the readers of a model say, each line as a look with its answer.
use crate::looks::{push_holder, push_inverse, push_kind};
use crate::shown::{push_class, push_feature, push_objects, push_values};
use md5::{Digest, Md5};
use std::alloc::{AllocError, Global};
use wb_metamodel::{ClassId, FeatureId, ObjectId};
use wb_model::Model;

/// One number for all that the readers say: its MD5.
pub fn push_digest(alloc: Global, shown: &mut String, model: &Model) -> Result<(), AllocError> {
    let mut lines = String::new(alloc);
    push_readers(alloc, &mut lines, model)?;
    let digest = u128::from_be_bytes(Md5::digest(lines.as_str().as_bytes()));
    write!(shown, "{digest:032x}")
}

pub fn push_readers(alloc: Global, shown: &mut String, model: &Model) -> Result<(), AllocError> {
    push_whole(alloc, shown, model)?;
    for o in model.objects(alloc)?.as_slice() {
        push_object(alloc, shown, model, *o)?;
    }
    push_dead(alloc, shown, model)
}

fn push_whole(alloc: Global, shown: &mut String, model: &Model) -> Result<(), AllocError> {
    write!(shown, "next => {}\nroots => ", model.next())?;
    push_objects(shown, model.roots())?;
    shown.push_str("\nobjects => ")?;
    push_objects(shown, model.objects(alloc)?.as_slice())?;
    shown.push_str("\n")?;
    for c in 0..model.metamodel().class_count() {
        shown.push_str("extent ")?;
        push_class(shown, model.metamodel(), ClassId(c))?;
        shown.push_str(" => ")?;
        push_objects(shown, model.extent(alloc, ClassId(c))?.as_slice())?;
        shown.push_str("\n")?;
    }
    Ok(())
}

fn push_object(
    alloc: Global,
    shown: &mut String,
    model: &Model,
    o: ObjectId,
) -> Result<(), AllocError> {
    write!(shown, "kind {} => ", o.0)?;
    push_kind(shown, model, o)?;
    write!(shown, "\nholder {} => ", o.0)?;
    push_holder(shown, model, o)?;
    write!(shown, "\ntree {} => ", o.0)?;
    push_objects(shown, model.tree(alloc, o)?.as_slice())?;
    write!(shown, "\ninverse {} => ", o.0)?;
    push_inverse(alloc, shown, model, o)?;
    shown.push_str("\n")?;
    push_slots(shown, model, o)
}

/// The slots of all features that are not empty, features of other classes too.
fn push_slots(shown: &mut String, model: &Model, o: ObjectId) -> Result<(), AllocError> {
    for f in 0..model.metamodel().feature_count() {
        let values = model.get(o, FeatureId(f));
        if !values.is_empty() {
            write!(shown, "slot {} ", o.0)?;
            push_feature(shown, model.metamodel(), FeatureId(f))?;
            shown.push_str(" => ")?;
            push_values(shown, values)?;
            shown.push_str("\n")?;
        }
    }
    Ok(())
}

/// Those of which no reader says anything, of the next number and the forty before it.
fn push_dead(alloc: Global, shown: &mut String, model: &Model) -> Result<(), AllocError> {
    let mut dead = Vec::new(alloc);
    for number in model.next().saturating_sub(40)..=model.next() {
        if is_blank(alloc, model, ObjectId(number))? {
            dead.push(ObjectId(number))?;
        }
    }
    shown.push_str("dead => ")?;
    push_objects(shown, dead.as_slice())?;
    shown.push_str("\n")
}

fn is_blank(alloc: Global, model: &Model, o: ObjectId) -> Result<bool, AllocError> {
    Ok(
        model.kind(o).is_none()
            && model.holder(o).is_none()
            && model.tree(alloc, o)?.is_empty()
            && model.inverse(alloc, o)?.is_empty()
            && has_no_values(model, o),
    )
}

fn has_no_values(model: &Model, o: ObjectId) -> bool {
    for f in 0..model.metamodel().feature_count() {
        if !model.get(o, FeatureId(f)).is_empty() {
            return false;
        }
    }
    true
}
