ghost use Rattle.std.specs.Prelude.{◌≡◌, ◌<◌, ◌≤◌, ◌+◌, ◌^◌, ℕ, List, length, codes, IfOk};
ghost use Rattle.std.specs.List.{enumerate_from};
ghost use Rattle.wb_json.specs.Form.{Gives, or_wrong};
ghost use Rattle.wb_json.specs.Place.{at_index, at_member};
ghost use Rattle.wb_ecore.specs.invariants.Index.{Indexes};
ghost use Rattle.wb_ecore.specs.Resolving.{walked, class_number, kind_named, opposite_of, feature_resolved, class_resolved};

use crate::classes::Class;
use crate::document::{ClassPart, Document, FeaturePart, ReferencePart, Target};
use crate::features::{Feature, Kind};
use crate::index::Index;
use crate::numbers::{ClassId, FeatureId};
use crate::resolving::ResolvedClass;
use std::alloc::Global;
use wb_base::{List, Text};
use wb_json::{Name, Wrong};

/// Each class of a document, or the first place of a name that names nothing.
pub fn classes_resolved(
    alloc: Global,
    document: &Document,
    index: &Index,
) -> Result<List<ResolvedClass>, Wrong>
    requires { Indexes index.now document.now }
    ensures { Gives result (walked (class_resolved document.now) (enumerate_from 0 document.now.classes)) }
{
    let mut classes = Vec::new(alloc);
    for (number, part) in document.classes.as_slice().iter().enumerate() {
        classes.push(class_at(alloc, document, index, number, part)?)?;
    }
    Ok(List::from_vec(classes))
}

fn class_at(
    alloc: Global,
    document: &Document,
    index: &Index,
    number: usize,
    part: &ClassPart,
) -> Result<ResolvedClass, Wrong>
    requires index { Indexes index.now document.now }
    requires number { number < 2 ^ 32 }
    ensures { Gives result (at_index number (class_resolved document.now (number, part.now))) }
{
    match class_resolved(alloc, document, index, ClassId(number as u32), part) {
        Ok(class) => Ok(class),
        Err(wrong) => Err(wrong.in_item(alloc, number)),
    }
}

fn class_resolved(
    alloc: Global,
    document: &Document,
    index: &Index,
    class: ClassId,
    part: &ClassPart,
) -> Result<ResolvedClass, Wrong>
    requires { Indexes index.now document.now }
    ensures { Gives result (class_resolved document.now (class, part.now)) }
{
    let supertypes = supertypes_in(alloc, document, index, part)?;
    let features = features_in(alloc, document, index, class, part)?;
    Ok(ResolvedClass {
        class: Class {
            name: Text::from_str(alloc, part.name.as_str())?,
            is_abstract: part.is_abstract,
            supertypes,
        },
        features,
    })
}

fn supertypes_in(
    alloc: Global,
    document: &Document,
    index: &Index,
    part: &ClassPart,
) -> Result<List<ClassId>, Wrong>
    requires { Indexes index.now document.now }
    ensures { Gives result (at_member (codes "supertypes") (walked (λ name. or_wrong (class_number document.now name)) part.now.supertypes)) }
{
    match supertypes(alloc, document, index, part.supertypes.as_slice()) {
        Ok(supertypes) => Ok(supertypes),
        Err(wrong) => Err(wrong.in_member(alloc, "supertypes")),
    }
}

fn supertypes(
    alloc: Global,
    document: &Document,
    index: &Index,
    names: &[Name],
) -> Result<List<ClassId>, Wrong>
    requires { Indexes index.now document.now }
    ensures { Gives result (walked (λ name. or_wrong (class_number document.now name)) names.now) }
{
    let mut supertypes = Vec::new(alloc);
    for (number, name) in names.iter().enumerate() {
        supertypes.push(supertype_at(alloc, document, index, number, name)?)?;
    }
    Ok(List::from_vec(supertypes))
}

fn supertype_at(
    alloc: Global,
    document: &Document,
    index: &Index,
    number: usize,
    name: &Name,
) -> Result<ClassId, Wrong>
    requires { Indexes index.now document.now }
    ensures { Gives result (at_index number (or_wrong (class_number document.now name.now))) }
{
    match index.class(document, name) {
        Some(class) => Ok(class),
        None => Err(Wrong::here(alloc).in_item(alloc, number)),
    }
}

fn features_in(
    alloc: Global,
    document: &Document,
    index: &Index,
    class: ClassId,
    part: &ClassPart,
) -> Result<List<Feature>, Wrong>
    requires { Indexes index.now document.now }
    ensures { Gives result (at_member (codes "features") (walked (λ part. feature_resolved document.now class part part.target) part.now.features)) }
{
    match features(alloc, document, index, class, part.features.as_slice()) {
        Ok(features) => Ok(features),
        Err(wrong) => Err(wrong.in_member(alloc, "features")),
    }
}

fn features(
    alloc: Global,
    document: &Document,
    index: &Index,
    class: ClassId,
    parts: &[FeaturePart],
) -> Result<List<Feature>, Wrong>
    requires { Indexes index.now document.now }
    ensures { Gives result (walked (λ part. feature_resolved document.now class part part.target) parts.now) }
{
    let mut features = Vec::new(alloc);
    for (number, part) in parts.iter().enumerate() {
        features.push(feature_at(alloc, document, index, class, number, part)?)?;
    }
    Ok(List::from_vec(features))
}

fn feature_at(
    alloc: Global,
    document: &Document,
    index: &Index,
    class: ClassId,
    number: usize,
    part: &FeaturePart,
) -> Result<Feature, Wrong>
    requires { Indexes index.now document.now }
    ensures { Gives result (at_index number (feature_resolved document.now class part.now part.now.target)) }
{
    match feature(alloc, document, index, class, part) {
        Ok(feature) => Ok(feature),
        Err(wrong) => Err(wrong.in_item(alloc, number)),
    }
}

fn feature(
    alloc: Global,
    document: &Document,
    index: &Index,
    class: ClassId,
    part: &FeaturePart,
) -> Result<Feature, Wrong>
    requires { Indexes index.now document.now }
    ensures { Gives result (feature_resolved document.now class part.now part.now.target) }
{
    match &part.target {
        Target::Values(name) => {
            let kind = kind(alloc, document, index, name)?;
            Ok(Feature {
                name: Text::from_str(alloc, part.name.as_str())?,
                owner: class,
                kind,
                many: part.many,
                containment: false,
                opposite: None,
            })
        }
        Target::Objects(reference) => {
            let target = target(alloc, document, index, reference)?;
            let opposite = opposite(alloc, document, index, target, &reference.opposite)?;
            Ok(Feature {
                name: Text::from_str(alloc, part.name.as_str())?,
                owner: class,
                kind: Kind::Reference(target),
                many: part.many,
                containment: reference.containment,
                opposite,
            })
        }
    }
}

fn kind(alloc: Global, document: &Document, index: &Index, name: &Name) -> Result<Kind, Wrong>
    requires { Indexes index.now document.now }
    ensures { Gives result (at_member (codes "type") (or_wrong (kind_named document.now name.now))) }
{
    match index.kind(document, name) {
        Some(kind) => Ok(kind),
        None => Err(Wrong::here(alloc).in_member(alloc, "type")),
    }
}

fn target(
    alloc: Global,
    document: &Document,
    index: &Index,
    reference: &ReferencePart,
) -> Result<ClassId, Wrong>
    requires { Indexes index.now document.now }
    ensures given { Gives result (at_member (codes "reference") (or_wrong (class_number document.now reference.now.class))) }
    ensures known { IfOk result (λ class. class < length document.now.classes) }
{
    match index.class(document, &reference.class) {
        Some(class) => Ok(class),
        None => Err(Wrong::here(alloc).in_member(alloc, "reference")),
    }
}

fn opposite(
    alloc: Global,
    document: &Document,
    index: &Index,
    class: ClassId,
    name: &Option<Name>,
) -> Result<Option<FeatureId>, Wrong>
    requires index { Indexes index.now document.now }
    requires class { class < length document.now.classes }
    ensures { Gives result (opposite_of document.now class name.now) }
{
    match name {
        None => Ok(None),
        Some(name) => match index.feature(document, class, name) {
            Some(feature) => Ok(Some(feature)),
            None => Err(Wrong::here(alloc).in_member(alloc, "opposite")),
        },
    }
}
