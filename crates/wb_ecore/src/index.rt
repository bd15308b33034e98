ghost use Rattle.std.specs.Prelude.{◌≡◌, ◌<◌, ◌+◌, ◌^◌, ℕ, List, length, map, Option, Some, IfOk, IfSome, option_map};
ghost use Rattle.wb_ecore.specs.Resolving.{class_number, enum_number, own_feature, kind_named, numbered};

use crate::document::{ClassPart, Document};
use crate::features::Kind;
use crate::numbered_names::NumberedNames;
use crate::numbers::{ClassId, EnumId, FeatureId};
use std::alloc::{AllocError, Global};
use wb_json::Name;

/// A document's names with their numbers.
pub struct Index {
    classes: NumberedNames,
    enums: NumberedNames,
    features: Vec<ClassFeatures>,
}

impl Drop for Index {
    fn drop(self) {
        let Index {
            classes: _classes,
            enums: _enums,
            features: _features,
        } = self;
    }
}

/// A class's own features: the number of the first, and their names.
#[derive(Drop)]
pub struct ClassFeatures {
    first: u32,
    names: NumberedNames,
}

ghost use Rattle.std.specs.Option.{SomeIff};
ghost use Rattle.std.specs.List.{AllZip};
ghost use Rattle.wb_ecore.specs.invariants.Index.{Indexes, HasOwn};

impl Index {
    /// The numbers of a document. A count that no `u32` holds is taken as want of memory.
    pub fn new(alloc: Global, document: &Document) -> Result<Index, AllocError>
        ensures { IfOk result (λ index. Indexes index document.now) }
    {
        if document.classes.len() > u32::MAX as usize {
            return Err(AllocError);
        }
        Ok(Index {
            classes: NumberedNames::of(alloc, document.classes.as_slice())?,
            enums: NumberedNames::of(alloc, document.enums.as_slice())?,
            features: class_features(alloc, document.classes.as_slice())?,
        })
    }

    pub fn class(&self, document: &Document, name: &Name) -> Option<ClassId>
        requires { Indexes self.now document.now }
        ensures value { result ≡ class_number document.now name.now }
        ensures known { IfSome result (λ class. class < length document.now.classes) }
    {
        match self.classes.get(name.as_str().as_bytes()) {
            Some(number) => Some(ClassId(number)),
            None => None,
        }
    }

    /// The kind of a word, or of an enumeration's name.
    pub fn kind(&self, document: &Document, name: &Name) -> Option<Kind>
        requires { Indexes self.now document.now }
        ensures { result ≡ kind_named document.now name.now }
    {
        match name.as_str() {
            "Int" => Some(Kind::Int),
            "Bool" => Some(Kind::Bool),
            "Text" => Some(Kind::Text),
            other => self
                .enums
                .get(other.as_bytes())
                .map(|number| Kind::Enum(EnumId(number))),
        }
    }

    /// The feature of that name among the own features of a class.
    pub fn feature(&self, document: &Document, class: ClassId, name: &Name) -> Option<FeatureId>
        requires index { Indexes self.now document.now }
        requires class { class < length document.now.classes }
        ensures { result ≡ own_feature document.now class name.now }
    {
        let own = &self.features[class.0 as usize];
        match own.names.get(name.as_str().as_bytes()) {
            Some(number) => Some(FeatureId(own.first + number)),
            None => None,
        }
    }
}

/// The number after `count` features, where a `u32` holds it.
fn next_first(first: u32, count: usize) -> Option<u32>
    ensures { SomeIff result (first + count < 2 ^ 32) (first + count) }
{
    if count > u32::MAX as usize {
        return None;
    }
    first.checked_add(count as u32)
}

fn class_features(alloc: Global, classes: &[ClassPart]) -> Result<Vec<ClassFeatures>, AllocError>
    ensures { IfOk result (λ features. AllZip HasOwn features.items (numbered 0 classes.now)) }
{
    let mut features = Vec::new(alloc);
    let mut first = 0u32;
    for class in classes {
        let Some(next) = next_first(first, class.features.len()) else {
            return Err(AllocError);
        };
        let names = NumberedNames::of(alloc, class.features.as_slice())?;
        features.push(ClassFeatures { first, names })?;
        first = next;
    }
    Ok(features)
}
