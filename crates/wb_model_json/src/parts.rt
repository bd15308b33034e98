ghost use Rattle.std.specs.Prelude.{◌≡◌, ◌<◌, codes, length};
ghost use Rattle.wb_json.specs.Form.{Gives, in_turn, or_wrong};
ghost use Rattle.wb_json.specs.Place.{at_index, at_member};
ghost use Rattle.wb_metamodel.specs.Metamodel.{class_named};
ghost use Rattle.wb_ecore.specs.Resolving.{walked};
ghost use Rattle.wb_model_json.specs.ModelFile.{parts_for, part_for, slots_for, slot_for, slot_named, slot_with};

use crate::features::{feature_at, feature_for};
use crate::model_text::{ObjectText, SlotText};
use crate::values::values_for;
use std::alloc::Global;
use wb_base::List;
use wb_json::{Name, Wrong};
use wb_metamodel::{ClassId, FeatureId, Metamodel, ObjectId};
use wb_model::{Part, SlotPart};

/// The objects of a text, or the first place of a name that names nothing.
pub fn parts_for(
    alloc: Global,
    metamodel: &Metamodel,
    texts: &[ObjectText],
) -> Result<List<Part>, Wrong>
    ensures { Gives result (parts_for metamodel.now texts.now) }
{
    match parts(alloc, metamodel, texts) {
        Ok(parts) => Ok(parts),
        Err(wrong) => Err(wrong.in_member(alloc, "objects")),
    }
}

fn parts(alloc: Global, metamodel: &Metamodel, texts: &[ObjectText]) -> Result<List<Part>, Wrong>
    ensures { Gives result (walked (part_for metamodel.now) texts.now) }
{
    let mut parts = Vec::new(alloc);
    for (number, text) in texts.iter().enumerate() {
        parts.push(part_at(alloc, metamodel, number, text)?)?;
    }
    Ok(List::from_vec(parts))
}

fn part_at(
    alloc: Global,
    metamodel: &Metamodel,
    number: usize,
    text: &ObjectText,
) -> Result<Part, Wrong>
    ensures { Gives result (at_index number (part_for metamodel.now text.now)) }
{
    match part_for(alloc, metamodel, text) {
        Ok(part) => Ok(part),
        Err(wrong) => Err(wrong.in_item(alloc, number)),
    }
}

#[tactic(auto, unfolding(crate::specs::ModelFile::part_for))]
fn part_for(alloc: Global, metamodel: &Metamodel, text: &ObjectText) -> Result<Part, Wrong>
    ensures { Gives result (part_for metamodel.now text.now) }
{
    let class = class_for(alloc, metamodel, &text.class)?;
    let slots = slots_for(alloc, metamodel, class, text.slots.as_slice())?;
    Ok(Part {
        id: ObjectId(text.id),
        class,
        slots,
    })
}

fn class_for(alloc: Global, metamodel: &Metamodel, name: &Name) -> Result<ClassId, Wrong>
    ensures { Gives result (at_member (codes "class") (or_wrong (class_named metamodel.now name.now))) }
{
    match metamodel.class_named(name.as_str().as_bytes()) {
        Some(class) => Ok(class),
        None => Err(Wrong::here(alloc).in_member(alloc, "class")),
    }
}

fn slots_for(
    alloc: Global,
    metamodel: &Metamodel,
    class: ClassId,
    members: &[(Name, SlotText)],
) -> Result<List<SlotPart>, Wrong>
    requires { class < length metamodel.now.classes }
    ensures { Gives result (slots_for metamodel.now class members.now) }
{
    match slots(alloc, metamodel, class, members) {
        Ok(slots) => Ok(slots),
        Err(wrong) => Err(wrong.in_member(alloc, "slots")),
    }
}

fn slots(
    alloc: Global,
    metamodel: &Metamodel,
    class: ClassId,
    members: &[(Name, SlotText)],
) -> Result<List<SlotPart>, Wrong>
    requires { class < length metamodel.now.classes }
    ensures { Gives result (in_turn (slot_for metamodel.now class) members.now) }
{
    let mut slots = Vec::new(alloc);
    for member in members {
        slots.push(slot_for(alloc, metamodel, class, member)?)?;
    }
    Ok(List::from_vec(slots))
}

fn slot_for(
    alloc: Global,
    metamodel: &Metamodel,
    class: ClassId,
    member: &(Name, SlotText),
) -> Result<SlotPart, Wrong>
    requires { class < length metamodel.now.classes }
    ensures { Gives result (slot_for metamodel.now class member.now) }
{
    match slot_named(alloc, metamodel, class, &member.0, &member.1) {
        Ok(slot) => Ok(slot),
        Err(wrong) => Err(wrong.in_member(alloc, member.0.as_str())),
    }
}

#[tactic(auto, unfolding(crate::specs::ModelFile::slot_named))]
fn slot_named(
    alloc: Global,
    metamodel: &Metamodel,
    class: ClassId,
    name: &Name,
    text: &SlotText,
) -> Result<SlotPart, Wrong>
    requires { class < length metamodel.now.classes }
    ensures { Gives result (slot_named metamodel.now class name.now text.now) }
{
    match feature_for(metamodel, class, name.as_str().as_bytes()) {
        Some(feature) => slot_with(alloc, metamodel, text, feature),
        None => Err(Wrong::here(alloc)),
    }
}

#[tactic(auto, unfolding(crate::specs::ModelFile::slot_with))]
fn slot_with(
    alloc: Global,
    metamodel: &Metamodel,
    text: &SlotText,
    number: FeatureId,
) -> Result<SlotPart, Wrong>
    requires { number < length metamodel.now.features }
    ensures { Gives result (slot_with metamodel.now text.now number) }
{
    let feature = feature_at(metamodel, number);
    let values = values_for(alloc, metamodel, feature.kind, text)?;
    Ok(SlotPart {
        feature: number,
        listed: text.listed,
        values,
    })
}
