//! Values by words: `'Dune` is a text, `@2` an object, and `0.1` the second literal of the first enumeration.
use crate::names::object;
use std::alloc::{AllocError, Global};
use wb_base::Text;
use wb_metamodel::EnumId;
use wb_model::Scalar;

pub fn value(alloc: Global, word: &str) -> Result<Option<Scalar>, AllocError> {
    if let Some(text) = word.strip_prefix("'") {
        return Ok(Some(Scalar::Text(Text::from_str(alloc, text)?)));
    }
    if word.starts_with("@") {
        return Ok(object(word).map(|o| Scalar::Object(o)));
    }
    if let Some((enumeration, number)) = word.split_once('.') {
        return Ok(literal(enumeration, number));
    }
    Ok(plain(word))
}

fn literal(enumeration: &str, number: &str) -> Option<Scalar> {
    match (enumeration.parse(), number.parse()) {
        (Ok(enumeration), Ok(number)) => Some(Scalar::Literal(EnumId(enumeration), number)),
        _ => None,
    }
}

fn plain(word: &str) -> Option<Scalar> {
    match word {
        "true" => Some(Scalar::Bool(true)),
        "false" => Some(Scalar::Bool(false)),
        _ => word.parse().ok().map(|number| Scalar::Int(number)),
    }
}
