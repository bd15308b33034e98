ghost use Rattle.std.specs.Prelude.{◌≡◌, [], ◌∷◌, ◌++◌, map, IfOk, OnOk};
ghost use Rattle.wb_json.specs.Form.{Gives};
ghost use Rattle.wb_ecore.specs.Resolving.{resolved, enumeration_of, package_of};

use crate::classes::{Class, Enumeration};
use crate::document::{Document, EnumPart};
use crate::features::Feature;
use crate::index::Index;
use crate::packages::Package;
use crate::resolving::ResolvedClass;
use crate::resolving_classes::classes_resolved;
use std::alloc::{AllocError, Global};
use wb_base::{List, Text};
use wb_json::{Name, Wrong};

/// What a document says, where every name names something.
#[tactic(auto, unfolding(crate::specs::Resolving::resolved))]
pub fn resolved(alloc: Global, document: &Document) -> Result<Package, Wrong>
    ensures { Gives result (resolved document.now) }
{
    let index = Index::new(alloc, document)?;
    match classes_resolved(alloc, document, &index) {
        Ok(classes) => Ok(elements(alloc, document, classes)?),
        Err(wrong) => Err(wrong.in_member(alloc, "classes")),
    }
}

fn elements(
    alloc: Global,
    document: &Document,
    resolved: List<ResolvedClass>,
) -> Result<Package, AllocError>
    ensures { IfOk result (λ elements. elements ≡ package_of document.now resolved) }
{
    let mut classes = Vec::new(alloc);
    let mut features = Vec::new(alloc);
    for class in resolved.into_vec() {
        put(&mut classes, &mut features, class)?;
    }
    Ok(Package {
        package_name: Text::from_str(alloc, document.package_name.as_str())?,
        classes: List::from_vec(classes),
        features: List::from_vec(features),
        enumerations: enumerations(alloc, document.enums.as_slice())?,
    })
}

/// Puts a class and its features last.
fn put(
    classes: &mut Vec<Class>,
    features: &mut Vec<Feature>,
    resolved: ResolvedClass,
) -> Result<(), AllocError>
    ensures class { OnOk result (classes.new.items ≡ classes.old.items ++ resolved.class ∷ []) }
    ensures features { OnOk result (features.new.items ≡ features.old.items ++ resolved.features) }
{
    let (class, own) = resolved.into_parts();
    classes.push(class)?;
    put_all(features, own)
}

fn put_all(features: &mut Vec<Feature>, more: List<Feature>) -> Result<(), AllocError>
    ensures { OnOk result (features.new.items ≡ features.old.items ++ more) }
{
    for feature in more.into_vec() {
        features.push(feature)?;
    }
    Ok(())
}

fn enumerations(alloc: Global, parts: &[EnumPart]) -> Result<List<Enumeration>, AllocError>
    ensures { IfOk result (λ enumerations. enumerations ≡ map enumeration_of parts.now) }
{
    let mut enumerations = Vec::new(alloc);
    for part in parts {
        enumerations.push(enumeration(alloc, part)?)?;
    }
    Ok(List::from_vec(enumerations))
}

fn enumeration(alloc: Global, part: &EnumPart) -> Result<Enumeration, AllocError>
    ensures { IfOk result (λ enumeration. enumeration ≡ enumeration_of part.now) }
{
    Ok(Enumeration {
        name: Text::from_str(alloc, part.name.as_str())?,
        literals: texts(alloc, part.literals.as_slice())?,
    })
}

fn texts(alloc: Global, names: &[Name]) -> Result<List<Text>, AllocError>
    ensures { IfOk result (λ texts. texts ≡ names.now) }
{
    let mut texts = Vec::new(alloc);
    for name in names {
        texts.push(Text::from_str(alloc, name.as_str())?)?;
    }
    Ok(List::from_vec(texts))
}
