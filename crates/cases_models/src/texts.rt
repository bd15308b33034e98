//! Lines about whole models and their texts. Each function answers false where the line is no such one or has a wrong word.
use crate::asked::Asked;
use crate::names::object;
use crate::problems::push_problem;
use crate::readers::{push_digest, push_readers};
use crate::rows::push_row_of;
use std::alloc::{AllocError, Global};
use wb_base::Duplicate;
use wb_model::{Model, empty};
use wb_model_json::{FileRefusal, ModelFileRefusal, read_model, write_model, write_object};

pub fn push_text(
    alloc: Global,
    shown: &mut String,
    model: &mut Model,
    asked: &Asked<'_>,
) -> Result<bool, AllocError> {
    match asked.name {
        "copy" => push_copy(alloc, shown, model),
        "empty" => push_empty(alloc, shown, model),
        "row" => push_row(alloc, shown, model, asked),
        "problem" => push_problem(alloc, shown, asked),
        _ => push_whole(alloc, shown, model, asked),
    }
}

fn push_whole(
    alloc: Global,
    shown: &mut String,
    model: &Model,
    asked: &Asked<'_>,
) -> Result<bool, AllocError> {
    match asked.name {
        "readers" => push_digest(alloc, shown, model)?,
        "write" => push_written(alloc, shown, model)?,
        "object" => push_row_of(alloc, shown, model.metamodel(), asked.text)?,
        "read" => push_reading(alloc, shown, model, asked.text)?,
        _ => push_all(alloc, shown, model)?,
    }
    Ok(true)
}

fn push_all(alloc: Global, shown: &mut String, model: &Model) -> Result<(), AllocError> {
    shown.push_str("\n")?;
    push_readers(alloc, shown, model)
}

/// The copy of the model is looked at from then on.
fn push_copy(alloc: Global, shown: &mut String, model: &mut Model) -> Result<bool, AllocError> {
    *model = model.copy(alloc)?;
    shown.push_str("copied")?;
    Ok(true)
}

/// The empty model over the same metamodel is looked at from then on.
fn push_empty(alloc: Global, shown: &mut String, model: &mut Model) -> Result<bool, AllocError> {
    *model = empty(alloc, model.metamodel().copy(alloc)?)?;
    shown.push_str("emptied")?;
    Ok(true)
}

fn push_written(alloc: Global, shown: &mut String, model: &Model) -> Result<(), AllocError> {
    let text = write_model(alloc, model)?;
    shown.push_str(text.as_str())
}

fn push_row(
    alloc: Global,
    shown: &mut String,
    model: &Model,
    asked: &Asked<'_>,
) -> Result<bool, AllocError> {
    match object(asked.text) {
        Some(o) if model.kind(o).is_some() => {
            let text = write_object(alloc, model, o)?;
            shown.push_str(text.as_str())?;
            Ok(true)
        }
        _ => Ok(false),
    }
}

/// Whether a text is read as a model over the same metamodel, and else the code and place of its refusal.
fn push_reading(
    alloc: Global,
    shown: &mut String,
    model: &Model,
    text: &str,
) -> Result<(), AllocError> {
    let metamodel = model.metamodel().copy(alloc)?;
    push_read(shown, read_model(alloc, metamodel, text.as_bytes()))
}

fn push_read(shown: &mut String, found: Result<Model, ModelFileRefusal>) -> Result<(), AllocError> {
    match found {
        Ok(_) => shown.push_str("read"),
        Err(FileRefusal::At(code, place)) => write!(shown, "{code:?} {}", place.as_str()),
        Err(FileRefusal::NoMemory) => Err(AllocError),
    }
}
