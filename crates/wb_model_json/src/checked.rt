ghost use Rattle.std.specs.Prelude.{◌≡◌, ⊤, Err, IfOk, map, length, codes, position, nat_eq};
ghost use Rattle.wb_json.specs.Form.{Gives};
ghost use Rattle.wb_json.specs.Place.{at_index};
ghost use Rattle.wb_model_json.specs.ModelFile.{few, id_of, unrepeated, breach_at, object_at};

use crate::model_text::ObjectText;
use crate::repeats::first_repeated;
use std::alloc::Global;
use wb_json::Wrong;
use wb_metamodel::ObjectId;

const MAX_OBJECTS: usize = 20_000;

/// There are no more objects than a model may have.
pub fn few(alloc: Global, texts: &[ObjectText]) -> Result<(), Wrong>
    ensures { Gives result (few texts.now) }
{
    if texts.len() <= MAX_OBJECTS {
        Ok(())
    } else {
        Err(Wrong::here(alloc))
    }
}

/// No object has the number of an earlier one.
pub fn unrepeated(alloc: Global, texts: &[ObjectText]) -> Result<(), Wrong>
    ensures { Gives result (unrepeated texts.now) }
{
    let ids: Vec<u32> = texts.iter().map(|text| text.id).collect(alloc)?;
    match first_repeated(alloc, ids.as_slice())? {
        None => Ok(()),
        Some(i) => Err(
            Wrong::here(alloc)
                .in_item(alloc, i)
                .in_member(alloc, "objects"),
        ),
    }
}

/// The place of what shows that a condition of this number is broken.
pub fn breach_at(alloc: Global, texts: &[ObjectText], number: u8, object: Option<ObjectId>) -> Wrong
    ensures { Gives {A = ⊤} (Err result) (breach_at texts.now number object) }
{
    match object {
        Some(o) => object_at(alloc, texts, o).in_member(alloc, "objects"),
        None => {
            if number == 1 {
                Wrong::here(alloc).in_member(alloc, "next")
            } else {
                Wrong::here(alloc).in_member(alloc, "roots")
            }
        }
    }
}

fn object_at(alloc: Global, texts: &[ObjectText], o: ObjectId) -> Wrong
    ensures { Gives {A = ⊤} (Err result) (object_at (position (λ text. nat_eq text.id o) texts.now)) }
{
    match place_of(texts, o.0) {
        Some(i) => Wrong::here(alloc).in_item(alloc, i),
        None => Wrong::here(alloc),
    }
}

fn place_of(texts: &[ObjectText], number: u32) -> Option<usize>
    ensures { result ≡ position (λ text. nat_eq text.id number) texts.now }
{
    texts.iter().position(|text| text.id == number)
}
