ghost use Rattle.std.specs.Prelude.{◌≡◌, ◌||◌, ℕ, List, [], ◌∷◌, ◌++◌, Option, Ok, IfOk, OnOk, find, length, map, is_some, codes};
ghost use Rattle.wb_json.specs.Form.{Gives};
ghost use Rattle.wb_json.specs.Place.{at_index, at_member};
ghost use Rattle.wb_ecore.specs.Naming.{same_name, numbers};
ghost use Rattle.wb_ecore.specs.invariants.NumberedNames.{number_of, fresh_in, GainsName, Holds};
ghost use Rattle.wb_ecore.specs.Repeats.{repeats, unrepeated, unrepeated_features, each_from, check_enum_names, check_class_names, unrepeated_names, kind_names, enum_names};
ghost use Rattle.wb_ecore.specs.invariants.TakenNames.{enum_names_in, class_names_in};

use crate::document::{ClassPart, Document, EnumPart, FeaturePart};
use crate::numbered_names::{Named, NumberedNames};
use std::alloc::{AllocError, Global};
use wb_json::{Name, Wrong};

/// The first place of a name that stands earlier in the list.
fn first_repeated<T: Named>(alloc: Global, items: &[T]) -> Result<Option<usize>, AllocError>
    ensures { IfOk result (λ place. place ≡ find (repeats T.name_of items.now) (numbers (length items.now))) }
{
    let mut taken = NumberedNames::new(alloc);
    for (number, item) in items.iter().enumerate() {
        if taken.get(item.name()).is_some() {
            return Ok(Some(number));
        }
        taken.add(alloc, item.name(), 0)?;
    }
    Ok(None)
}

fn unrepeated(alloc: Global, names: &[Name]) -> Result<(), Wrong>
    ensures { Gives result (unrepeated names.now) }
{
    match first_repeated(alloc, names)? {
        None => Ok(()),
        Some(number) => Err(Wrong::here(alloc).in_item(alloc, number)),
    }
}

fn unrepeated_features(alloc: Global, parts: &[FeaturePart]) -> Result<(), Wrong>
    ensures { Gives result (unrepeated_features parts.now) }
{
    match first_repeated(alloc, parts)? {
        None => Ok(()),
        Some(number) => Err(
            Wrong::here(alloc)
                .in_member(alloc, "name")
                .in_item(alloc, number),
        ),
    }
}

/// Takes a name, unless it is taken already.
fn take(alloc: Global, taken: &mut NumberedNames, name: &Name) -> Result<(), Wrong>
    ensures given { Gives result (fresh_in taken.old name.now) }
    ensures takes { OnOk result (GainsName taken.old name.now taken.new) }
{
    let bytes = name.as_str().as_bytes();
    if taken.get(bytes).is_some() {
        return Err(Wrong::here(alloc));
    }
    taken.add(alloc, bytes, 0)?;
    Ok(())
}

fn take_name(alloc: Global, taken: &mut NumberedNames, name: &Name) -> Result<(), Wrong>
    ensures given { Gives result (at_member (codes "name") (fresh_in taken.old name.now)) }
    ensures takes { OnOk result (GainsName taken.old name.now taken.new) }
{
    match take(alloc, taken, name) {
        Ok(()) => Ok(()),
        Err(wrong) => Err(wrong.in_member(alloc, "name")),
    }
}

fn enum_names(alloc: Global, taken: &mut NumberedNames, parts: &[EnumPart]) -> Result<(), Wrong>
    requires { Holds taken.old kind_names }
    ensures given { Gives result (each_from (check_enum_names parts.now) 0 parts.now) }
    ensures takes { OnOk result (Holds taken.new (kind_names ++ enum_names parts.now)) }
{
    for (number, part) in parts.iter().enumerate() {
        enum_at(alloc, taken, number, part)?;
    }
    Ok(())
}

fn enum_at(
    alloc: Global,
    taken: &mut NumberedNames,
    number: usize,
    part: &EnumPart,
) -> Result<(), Wrong>
    ensures given { Gives result (at_index number (enum_names_in taken.old part.now)) }
    ensures takes { OnOk result (GainsName taken.old part.now.name taken.new) }
{
    match enum_part(alloc, taken, part) {
        Ok(()) => Ok(()),
        Err(wrong) => Err(wrong.in_item(alloc, number)),
    }
}

fn enum_part(alloc: Global, taken: &mut NumberedNames, part: &EnumPart) -> Result<(), Wrong>
    ensures given { Gives result (enum_names_in taken.old part.now) }
    ensures takes { OnOk result (GainsName taken.old part.now.name taken.new) }
{
    take_name(alloc, taken, &part.name)?;
    names_in(alloc, "literals", part.literals.as_slice())
}

fn names_in(alloc: Global, member: &str, names: &[Name]) -> Result<(), Wrong>
    ensures { Gives result (at_member member.now (unrepeated names.now)) }
{
    match unrepeated(alloc, names) {
        Ok(()) => Ok(()),
        Err(wrong) => Err(wrong.in_member(alloc, member)),
    }
}

fn features_in(alloc: Global, parts: &[FeaturePart]) -> Result<(), Wrong>
    ensures { Gives result (at_member (codes "features") (unrepeated_features parts.now)) }
{
    match unrepeated_features(alloc, parts) {
        Ok(()) => Ok(()),
        Err(wrong) => Err(wrong.in_member(alloc, "features")),
    }
}

fn class_names(
    alloc: Global,
    taken: &mut NumberedNames,
    enums: &[EnumPart],
    parts: &[ClassPart],
) -> Result<(), Wrong>
    requires { Holds taken.old (kind_names ++ enum_names enums.now) }
    ensures given { Gives result (each_from (check_class_names enums.now parts.now) 0 parts.now) }
{
    for (number, part) in parts.iter().enumerate() {
        class_at(alloc, taken, number, part)?;
    }
    Ok(())
}

fn class_at(
    alloc: Global,
    taken: &mut NumberedNames,
    number: usize,
    part: &ClassPart,
) -> Result<(), Wrong>
    ensures given { Gives result (at_index number (class_names_in taken.old part.now)) }
    ensures takes { OnOk result (GainsName taken.old part.now.name taken.new) }
{
    match class_part(alloc, taken, part) {
        Ok(()) => Ok(()),
        Err(wrong) => Err(wrong.in_item(alloc, number)),
    }
}

fn class_part(alloc: Global, taken: &mut NumberedNames, part: &ClassPart) -> Result<(), Wrong>
    ensures given { Gives result (class_names_in taken.old part.now) }
    ensures takes { OnOk result (GainsName taken.old part.now.name taken.new) }
{
    take_name(alloc, taken, &part.name)?;
    names_in(alloc, "supertypes", part.supertypes.as_slice())?;
    features_in(alloc, part.features.as_slice())
}

/// The names that kinds have.
fn kind_names(alloc: Global) -> Result<NumberedNames, AllocError>
    ensures { IfOk result (λ names. Holds names kind_names) }
{
    let mut names = NumberedNames::new(alloc);
    names.add(alloc, b"Int", 0)?;
    names.add(alloc, b"Bool", 0)?;
    names.add(alloc, b"Text", 0)?;
    Ok(names)
}

/// No name of a document repeats where it may not.
#[tactic(auto, unfolding(crate::specs::Repeats::unrepeated_names))]
pub fn unrepeated_names(alloc: Global, document: &Document) -> Result<(), Wrong>
    ensures { Gives result (unrepeated_names document.now) }
{
    let mut taken = kind_names(alloc)?;
    enums_in(alloc, &mut taken, document.enums.as_slice())?;
    classes_in(
        alloc,
        &mut taken,
        document.enums.as_slice(),
        document.classes.as_slice(),
    )
}

fn enums_in(alloc: Global, taken: &mut NumberedNames, parts: &[EnumPart]) -> Result<(), Wrong>
    requires { Holds taken.old kind_names }
    ensures given { Gives result (at_member (codes "enums") (each_from (check_enum_names parts.now) 0 parts.now)) }
    ensures takes { OnOk result (Holds taken.new (kind_names ++ enum_names parts.now)) }
{
    match enum_names(alloc, taken, parts) {
        Ok(()) => Ok(()),
        Err(wrong) => Err(wrong.in_member(alloc, "enums")),
    }
}

fn classes_in(
    alloc: Global,
    taken: &mut NumberedNames,
    enums: &[EnumPart],
    parts: &[ClassPart],
) -> Result<(), Wrong>
    requires { Holds taken.old (kind_names ++ enum_names enums.now) }
    ensures given { Gives result (at_member (codes "classes") (each_from (check_class_names enums.now parts.now) 0 parts.now)) }
{
    match class_names(alloc, taken, enums, parts) {
        Ok(()) => Ok(()),
        Err(wrong) => Err(wrong.in_member(alloc, "classes")),
    }
}
