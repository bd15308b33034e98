ghost use Rattle.std.specs.Prelude.{◌≡◌, Some, IfOk};
ghost use Rattle.wb_metamodel.specs.Checks.{metamodel};
ghost use Rattle.wb_viewpoint.specs.Reading.{viewpoint};
ghost use Rattle.wb_model_json.specs.ModelFile.{model};
ghost use Rattle.wb_program.specs.CodeNames as names;
ghost use Rattle.wb_program.specs.Reading.{or_refused};
ghost use Rattle.wb_program.specs.Steps.{Went, Reaches};
ghost use Rattle.wb_program.specs.Opening.{metamodel_under, viewpoint_under, model_under};

use crate::answer::{Ending, refusal};
use crate::code_names::{metamodel_code_name, model_code_name, viewpoint_code_name};
use crate::files::take_file;
use std::alloc::Global;
use wb_json::FileRefusal;
use wb_metamodel::{Metamodel, read_metamodel};
use wb_model::Model;
use wb_model_json::read_model;
use wb_outer::{Bytes, Shelf};
use wb_viewpoint::{Viewpoint, read_viewpoint};

/// Takes the metamodel's file, sizes it and reads it.
pub fn take_metamodel<H: Shelf>(
    alloc: Global,
    shelf: &mut H,
    name: &[u8],
) -> Result<Metamodel, Ending>
    ensures { Went result (metamodel_under name.now) (H.told shelf.old) (H.told shelf.new) }
{
    let bytes = take_file(alloc, shelf, name)?;
    metamodel_in(alloc, name, &bytes)
}

/// Takes the viewpoint's file, sizes it and reads it.
pub fn take_viewpoint<H: Shelf>(
    alloc: Global,
    shelf: &mut H,
    name: &[u8],
) -> Result<Viewpoint, Ending>
    ensures { Went result (viewpoint_under name.now) (H.told shelf.old) (H.told shelf.new) }
{
    let bytes = take_file(alloc, shelf, name)?;
    viewpoint_in(alloc, name, &bytes)
}

/// Takes the model's file, sizes it and reads it over the metamodel.
pub fn take_model<H: Shelf>(
    alloc: Global,
    shelf: &mut H,
    name: &[u8],
    metamodel: Metamodel,
) -> Result<Model, Ending>
    ensures went { Went result (model_under metamodel name.now) (H.told shelf.old) (H.told shelf.new) }
    ensures over { IfOk result (λ model. model.metamodel ≡ metamodel) }
{
    let bytes = take_file(alloc, shelf, name)?;
    model_in(alloc, name, metamodel, &bytes)
}

/// The metamodel that these bytes are, or the answer where they are none.
fn metamodel_in(alloc: Global, name: &[u8], bytes: &Bytes) -> Result<Metamodel, Ending>
    ensures { Reaches result (Some (or_refused names.metamodel_code_name name.now (metamodel bytes.now))) }
{
    match read_metamodel(alloc, bytes.as_slice()) {
        Ok(metamodel) => Ok(metamodel),
        Err(FileRefusal::At(code, place)) => Err(refusal(
            alloc,
            name,
            place.as_str(),
            metamodel_code_name(code),
        )),
        Err(FileRefusal::NoMemory) => Err(Ending::NoMemory),
    }
}

/// The viewpoint that these bytes are, or the answer where they are none.
fn viewpoint_in(alloc: Global, name: &[u8], bytes: &Bytes) -> Result<Viewpoint, Ending>
    ensures { Reaches result (Some (or_refused names.viewpoint_code_name name.now (viewpoint bytes.now))) }
{
    match read_viewpoint(alloc, bytes.as_slice()) {
        Ok(viewpoint) => Ok(viewpoint),
        Err(FileRefusal::At(code, place)) => Err(refusal(
            alloc,
            name,
            place.as_str(),
            viewpoint_code_name(code),
        )),
        Err(FileRefusal::NoMemory) => Err(Ending::NoMemory),
    }
}

/// The model that these bytes are over the metamodel, or the answer where they are none.
fn model_in(
    alloc: Global,
    name: &[u8],
    metamodel: Metamodel,
    bytes: &Bytes,
) -> Result<Model, Ending>
    ensures reaches { Reaches result (Some (or_refused names.model_code_name name.now (model metamodel bytes.now))) }
    ensures over { IfOk result (λ model. model.metamodel ≡ metamodel) }
{
    match read_model(alloc, metamodel, bytes.as_slice()) {
        Ok(model) => Ok(model),
        Err(FileRefusal::At(code, place)) => Err(refusal(
            alloc,
            name,
            place.as_str(),
            model_code_name(code),
        )),
        Err(FileRefusal::NoMemory) => Err(Ending::NoMemory),
    }
}
