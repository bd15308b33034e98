//! Classes, features and objects by words.
ghost use Rattle.std.specs.Prelude.{◌<◌, length, IfSome};

use wb_metamodel::{ClassId, FeatureId, Metamodel, ObjectId};

pub fn class(metamodel: &Metamodel, word: &str) -> Option<ClassId>
    ensures { IfSome result (λ c. c < length metamodel.now.classes) }
{
    match metamodel.class_named(word.as_bytes()) {
        Some(c) if c.0 < metamodel.class_count() => Some(c),
        _ => None,
    }
}

/// The feature of a class, an inherited one too: `Book.author`.
pub fn feature(metamodel: &Metamodel, word: &str) -> Option<FeatureId>
    ensures { IfSome result (λ f. f < length metamodel.now.features) }
{
    let (owner, name) = word.split_once('.')?;
    let c = class(metamodel, owner)?;
    match metamodel.feature_named(c, name.as_bytes()) {
        Some(f) if f.0 < metamodel.feature_count() => Some(f),
        _ => None,
    }
}

/// An object by its number, with or without `@`.
pub fn object(word: &str) -> Option<ObjectId> {
    let digits = word.strip_prefix("@").unwrap_or(word);
    match digits.parse() {
        Ok(number) => Some(ObjectId(number)),
        Err(_) => None,
    }
}
