//! What a case opens: a metamodel, a viewpoint and a model, each told as a file of `data/` or made.
ghost use Rattle.std.specs.Prelude.{◌≡◌, IfOk};
ghost use Rattle.wb_spec_check.specs.Checked.{IsCheckedBy};

use cases_files::told_file;
use std::alloc::Global;
use wb_base::{List, Text};
use wb_json::{FileRefusal, Value, Wrong, needed};
use wb_metamodel::{Metamodel, read_metamodel};
use wb_model::Model;
use wb_model_json::read_model;
use wb_outer::{Bytes, Shelf};
use wb_spec_check::{CheckedViewpoint, Checking, check_viewpoint};
use wb_viewpoint::{Viewpoint, read_viewpoint};

pub fn metamodel_in<H: Shelf>(
    alloc: Global,
    from: &mut H,
    case: &Value,
) -> Result<Metamodel, Wrong> {
    let bytes = file_in(alloc, from, case, "metamodel")?;
    match read_metamodel(alloc, bytes.as_slice()) {
        Ok(metamodel) => Ok(metamodel),
        Err(refusal) => Err(wrong_file(alloc, refusal)),
    }
}

pub fn spec_in<H: Shelf>(
    alloc: Global,
    from: &mut H,
    case: &Value,
    metamodel: &Metamodel,
) -> Result<CheckedViewpoint, Wrong>
    ensures { IfOk result (IsCheckedBy metamodel.now) }
{
    let viewpoint = viewpoint_in(alloc, from, case)?;
    checked(alloc, viewpoint, metamodel)
}

fn viewpoint_in<H: Shelf>(alloc: Global, from: &mut H, case: &Value) -> Result<Viewpoint, Wrong> {
    let bytes = file_in(alloc, from, case, "viewpoint")?;
    match read_viewpoint(alloc, bytes.as_slice()) {
        Ok(viewpoint) => Ok(viewpoint),
        Err(refusal) => Err(wrong_file(alloc, refusal)),
    }
}

/// The viewpoint, which must have no problems.
fn checked(
    alloc: Global,
    viewpoint: Viewpoint,
    metamodel: &Metamodel,
) -> Result<CheckedViewpoint, Wrong>
    ensures { IfOk result (IsCheckedBy metamodel.now) }
{
    match check_viewpoint(alloc, viewpoint, metamodel)? {
        Checking::Good(spec) => Ok(spec),
        Checking::Bad(_) => Err(Wrong::here(alloc)),
    }
}

pub fn model_in<H: Shelf>(
    alloc: Global,
    from: &mut H,
    case: &Value,
    metamodel: Metamodel,
) -> Result<Model, Wrong>
    ensures { IfOk result (λ model. model.metamodel ≡ metamodel) }
{
    let bytes = file_in(alloc, from, case, "model")?;
    match read_model(alloc, metamodel, bytes.as_slice()) {
        Ok(model) => Ok(model),
        Err(refusal) => Err(wrong_file(alloc, refusal)),
    }
}

fn file_in<H: Shelf>(
    alloc: Global,
    from: &mut H,
    case: &Value,
    member: &str,
) -> Result<Bytes, Wrong> {
    let told: List<Text> = needed(alloc, case, member)?;
    told_file(alloc, from, told.as_slice())
}

fn wrong_file<C: Drop>(alloc: Global, refusal: FileRefusal<C>) -> Wrong {
    match refusal {
        FileRefusal::At(..) => Wrong::here(alloc),
        FileRefusal::NoMemory => Wrong::NoMemory,
    }
}
