ghost use Rattle.std.specs.Prelude.{◌≡◌, IfOk};
ghost use Rattle.std.specs.Result.{result_ok};
ghost use Rattle.wb_metamodel.specs.Checks.{metamodel};
ghost use Rattle.wb_model_json.specs.ModelFile.{model};
ghost use Rattle.cases_files.specs.Files.{TakesFile, TakesMetamodel, TakesOver, TakesModel};

use std::alloc::{AllocError, Global};
use wb_metamodel::{Metamodel, read_metamodel};
use wb_model::Model;
use wb_model_json::{FileRefusal, read_model};
use wb_outer::{Bytes, Shelf, Taken};

/// The bytes of a file; none where it cannot be read, or is too big.
pub fn file_in<H: Shelf>(
    alloc: Global,
    shelf: &mut H,
    name: &[u8],
) -> Result<Option<Bytes>, AllocError>
    ensures { IfOk result (TakesFile (H.told shelf.old) (H.told shelf.new) name.now) }
{
    match shelf.take(alloc, name)? {
        Taken::Bytes(bytes) => Ok(Some(bytes)),
        Taken::TooBig => Ok(None),
        Taken::Failed => Ok(None),
    }
}

/// The model in one file over the metamodel in another; none where one of them is not of the form.
pub fn model_in<H: Shelf>(
    alloc: Global,
    shelf: &mut H,
    metamodel: &[u8],
    model: &[u8],
) -> Result<Option<Model>, AllocError>
    ensures { IfOk result (TakesModel (H.told shelf.old) (H.told shelf.new) metamodel.now model.now) }
{
    match metamodel_in(alloc, shelf, metamodel)? {
        Some(metamodel) => model_over(alloc, shelf, metamodel, model),
        None => Ok(None),
    }
}

fn metamodel_in<H: Shelf>(
    alloc: Global,
    shelf: &mut H,
    name: &[u8],
) -> Result<Option<Metamodel>, AllocError>
    ensures { IfOk result (TakesMetamodel (H.told shelf.old) (H.told shelf.new) name.now) }
{
    match file_in(alloc, shelf, name)? {
        Some(bytes) => metamodel_of(alloc, bytes.as_slice()),
        None => Ok(None),
    }
}

/// The metamodel that these bytes are.
fn metamodel_of(alloc: Global, bytes: &[u8]) -> Result<Option<Metamodel>, AllocError>
    ensures { IfOk result (λ found. found ≡ result_ok (metamodel bytes.now)) }
{
    match read_metamodel(alloc, bytes) {
        Ok(metamodel) => Ok(Some(metamodel)),
        Err(FileRefusal::At(..)) => Ok(None),
        Err(FileRefusal::NoMemory) => Err(AllocError),
    }
}

fn model_over<H: Shelf>(
    alloc: Global,
    shelf: &mut H,
    metamodel: Metamodel,
    name: &[u8],
) -> Result<Option<Model>, AllocError>
    ensures { IfOk result (TakesOver metamodel (H.told shelf.old) (H.told shelf.new) name.now) }
{
    match file_in(alloc, shelf, name)? {
        Some(bytes) => model_of(alloc, metamodel, bytes.as_slice()),
        None => Ok(None),
    }
}

/// The model that these bytes are over a metamodel.
fn model_of(alloc: Global, metamodel: Metamodel, bytes: &[u8]) -> Result<Option<Model>, AllocError>
    ensures { IfOk result (λ found. found ≡ result_ok (model metamodel bytes.now)) }
{
    match read_model(alloc, metamodel, bytes) {
        Ok(model) => Ok(Some(model)),
        Err(FileRefusal::At(..)) => Ok(None),
        Err(FileRefusal::NoMemory) => Err(AllocError),
    }
}
