ghost use Rattle.std.specs.Prelude.{◌≡◌, true, IfOk, OnOk, IfErr};
ghost use Rattle.std.specs.List.{list_all};
ghost use Rattle.wb_validity.specs.Broken.{broken, miswritten};
ghost use Rattle.wb_model.specs.Building.{NamesBreach, refusal_of, MakeModel, Refutes};
ghost use Rattle.wb_store.specs.Parts.{AreParts, made_of, is_listed_slot, slot_of, are_known};
ghost use Rattle.wb_store.specs.Records.{is_known_slot};

use crate::model::Model;
use std::alloc::{AllocError, Global};
use wb_base::List;
use wb_metamodel::{Metamodel, ObjectId};
use wb_store::{ObjectSet, Part, SlotPart, Store};
use wb_validity::{Flaw, check_all};

/// Why a model is not built.
#[derive(Clone, Copy)]
pub enum BuildRefusal {
    /// A condition that a model has to meet, by its number, and an object that shows it.
    Broken(u8, Option<ObjectId>),
    NoMemory,
}

impl From<AllocError> for BuildRefusal {
    ghost use Rattle.wb_model.specs.declared.building.BuildRefusal.TheVariants.{NoMemory};

    ghost from_gives = { λ _ e. e ≡ NoMemory };

    fn from(_error: AllocError) -> BuildRefusal {
        BuildRefusal::NoMemory
    }
}

/// The model that parts make, or the first condition of a valid model that they break.
pub fn build(
    alloc: Global,
    metamodel: Metamodel,
    next: u32,
    objects: List<Part>,
    roots: List<ObjectId>,
) -> Result<Model, BuildRefusal>
    requires { AreParts metamodel objects }
    ensures made { IfOk result (λ model. model ≡ made_of metamodel next objects roots) }
    ensures accepted { OnOk result (MakeModel metamodel next objects roots) }
    ensures refused { IfErr result (λ refusal. Refutes refusal (MakeModel metamodel next objects roots)) }
    ensures named { NamesBreach result (broken (made_of metamodel next objects roots) (miswritten metamodel objects)) }
{
    let listed = miswritten(alloc, &metamodel, objects.as_slice())?;
    let wrong = ObjectSet::new(listed)?;
    let store = Store::from_parts(alloc, metamodel, next, objects, roots)?;
    store.is_kept();
    match check_all(alloc, &store, &wrong) {
        Ok(()) => Ok(Model::new(store)),
        Err(flaw) => Err(refusal_of(flaw)),
    }
}

fn refusal_of(flaw: Flaw) -> BuildRefusal
    ensures { result ≡ refusal_of flaw }
{
    match flaw {
        Flaw::At(number, object) => BuildRefusal::Broken(number, Some(object)),
        Flaw::Whole(number) => BuildRefusal::Broken(number, None),
        Flaw::NoMemory => BuildRefusal::NoMemory,
    }
}

// The objects with a slot that is empty, or not written as a list exactly where its feature has many values.
fn miswritten(
    alloc: Global,
    metamodel: &Metamodel,
    parts: &[Part],
) -> Result<Vec<ObjectId>, AllocError>
    requires { are_known metamodel.now parts.now ≡ true }
    ensures { IfOk result (λ wrong. wrong.items ≡ miswritten metamodel.now parts.now) }
{
    let mut wrong = Vec::new(alloc);
    for part in parts {
        if !slots_are_listed(metamodel, part.slots.as_slice()) {
            wrong.push(part.id)?;
        }
    }
    Ok(wrong)
}

fn slots_are_listed(metamodel: &Metamodel, slots: &[SlotPart]) -> bool
    requires { list_all (λ s. is_known_slot metamodel.now (slot_of s)) slots.now ≡ true }
    ensures { result ≡ list_all (is_listed_slot metamodel.now) slots.now }
{
    for slot in slots {
        if !slot_is_listed(metamodel, slot) {
            return false;
        }
    }
    true
}

fn slot_is_listed(metamodel: &Metamodel, slot: &SlotPart) -> bool
    requires { is_known_slot metamodel.now (slot_of slot.now) ≡ true }
    ensures { result ≡ is_listed_slot metamodel.now slot.now }
{
    let many = metamodel.feature(slot.feature).many;
    let count = slot.values.len();
    slot.listed == many && count > 0
}
