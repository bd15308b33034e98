ghost use Rattle.std.specs.Prelude.{◌≡◌, Ok, Err, IfOk, List as Listed, ℕ};
ghost use Rattle.wb_base.specs.Answering.{AsDefined};
ghost use Rattle.wb_json.specs.Refusals.{code_at, coded};
ghost use Rattle.wb_store.specs.Contents.{Contents};
ghost use Rattle.wb_model_json.specs.ModelFile.{model, read_text, checked_parts, made, breach_at};
ghost use Rattle.wb_model_json.specs.Refusals.{broken_code};

use crate::checked::{breach_at, few, unrepeated};
use crate::model_text::{ModelText, read_model_text};
use crate::parts::parts_for;
use crate::refusal::{ModelCode, ModelFileRefusal, broken_code};
use std::alloc::{AllocError, Global};
use wb_base::{List, Text};
use wb_json::{FileRefusal, Wrong, at_root, coded, parse_json};
use wb_metamodel::{Metamodel, ObjectId};
use wb_model::{BuildRefusal, Model, Part, build};

/// The model over a metamodel that a JSON text is, or what is wrong with it first, and where.
pub fn read_model(
    alloc: Global,
    metamodel: Metamodel,
    bytes: &[u8],
) -> Result<Model, ModelFileRefusal>
    ensures read { AsDefined code_at (model metamodel bytes.now) result }
    ensures over { IfOk result (λ model. model.metamodel ≡ metamodel) }
{
    let text = read_text(alloc, bytes)?;
    let parts = checked_parts(alloc, &metamodel, &text)?;
    made(alloc, metamodel, &text, parts)
}

#[tactic(auto, unfolding(crate::specs::ModelFile::read_text))]
fn read_text(alloc: Global, bytes: &[u8]) -> Result<ModelText, ModelFileRefusal>
    ensures { AsDefined code_at (read_text bytes.now) result }
{
    match parse_json(alloc, bytes)? {
        Some(value) => coded(alloc, ModelCode::BadShape, read_model_text(alloc, &value)),
        None => Err(at_root(
            alloc,
            ModelCode::BadJson,
            &Text::from_string(String::new(alloc)),
        )),
    }
}

/// The objects of a text, whose numbers differ, and whose names name something.
#[tactic(auto, unfolding(crate::specs::ModelFile::checked_parts))]
fn checked_parts(
    alloc: Global,
    metamodel: &Metamodel,
    text: &ModelText,
) -> Result<List<Part>, ModelFileRefusal>
    ensures { AsDefined code_at (checked_parts metamodel.now text.now) result }
{
    let objects = text.objects.as_slice();
    coded(alloc, ModelCode::TooMany, few(alloc, objects))?;
    coded(
        alloc,
        ModelCode::DuplicateObject,
        unrepeated(alloc, objects),
    )?;
    coded(
        alloc,
        ModelCode::UnknownName,
        parts_for(alloc, metamodel, objects),
    )
}

/// The model that the objects of a text make. The text was read, so no feature stands twice in an object.
#[tactic(auto, unfolding(crate::specs::ModelFile::made))]
fn made(
    alloc: Global,
    metamodel: Metamodel,
    text: &ModelText,
    parts: List<Part>,
) -> Result<Model, ModelFileRefusal>
    requires read { (bytes : Listed ℕ) × (read_text bytes ≡ Ok text.now) }
    requires parts { checked_parts metamodel text.now ≡ Ok parts }
    ensures made { AsDefined code_at (made metamodel text.now parts) result }
    ensures over { IfOk result (λ model. model.metamodel ≡ metamodel) }
{
    let roots = roots_of(alloc, text.roots.as_slice())?;
    match build(alloc, metamodel, text.next, parts, roots) {
        Ok(model) => Ok(model),
        Err(BuildRefusal::Broken(number, object)) => Err(broken(alloc, text, number, object)),
        Err(BuildRefusal::NoMemory) => Err(FileRefusal::NoMemory),
    }
}

fn broken(alloc: Global, text: &ModelText, number: u8, object: Option<ObjectId>) -> ModelFileRefusal
    ensures { AsDefined {A = Contents} code_at (coded (broken_code number) (breach_at text.now.objects number object)) (Err result) }
{
    match breach_at(alloc, text.objects.as_slice(), number, object) {
        Wrong::At(place) => at_root(alloc, broken_code(number), &place),
        Wrong::NoMemory => FileRefusal::NoMemory,
    }
}

fn roots_of(alloc: Global, numbers: &[u32]) -> Result<List<ObjectId>, AllocError>
    ensures { IfOk result (λ roots. roots ≡ numbers.now) }
{
    let mut roots = Vec::new(alloc);
    for number in numbers {
        roots.push(ObjectId(*number))?;
    }
    Ok(List::from_vec(roots))
}
