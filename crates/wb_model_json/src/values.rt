ghost use Rattle.std.specs.Prelude.{◌≡◌, ◌<◌, length};
ghost use Rattle.wb_json.specs.Form.{Gives, in_turn, or_wrong};
ghost use Rattle.wb_json.specs.Place.{at_index};
ghost use Rattle.wb_ecore.specs.Resolving.{walked};
ghost use Rattle.wb_metamodel.specs.WellFormed.{KindIsKnown};
ghost use Rattle.wb_model_json.specs.ModelFile.{object_number, number_for, literal_for, words_for, value_for, values_for};

use crate::model_text::{ScalarText, SlotText};
use std::alloc::Global;
use wb_base::{Duplicate, List, Text};
use wb_json::Wrong;
use wb_metamodel::{EnumId, Kind, Metamodel, ObjectId};
use wb_model::Scalar;

/// The values of a slot, or the first place of a text that is no literal.
pub fn values_for(
    alloc: Global,
    metamodel: &Metamodel,
    kind: Kind,
    text: &SlotText,
) -> Result<List<Scalar>, Wrong>
    requires { KindIsKnown metamodel.now kind }
    ensures { Gives result (values_for metamodel.now kind text.now) }
{
    if text.listed {
        listed_values(alloc, metamodel, kind, text.values.as_slice())
    } else {
        single_values(alloc, metamodel, kind, text.values.as_slice())
    }
}

fn listed_values(
    alloc: Global,
    metamodel: &Metamodel,
    kind: Kind,
    scalars: &[ScalarText],
) -> Result<List<Scalar>, Wrong>
    requires { KindIsKnown metamodel.now kind }
    ensures { Gives result (walked (value_for metamodel.now kind) scalars.now) }
{
    let mut values = Vec::new(alloc);
    for (number, scalar) in scalars.iter().enumerate() {
        values.push(value_at(alloc, metamodel, kind, number, scalar)?)?;
    }
    Ok(List::from_vec(values))
}

fn value_at(
    alloc: Global,
    metamodel: &Metamodel,
    kind: Kind,
    number: usize,
    scalar: &ScalarText,
) -> Result<Scalar, Wrong>
    requires { KindIsKnown metamodel.now kind }
    ensures { Gives result (at_index number (value_for metamodel.now kind scalar.now)) }
{
    match value_for(alloc, metamodel, kind, scalar) {
        Ok(value) => Ok(value),
        Err(wrong) => Err(wrong.in_item(alloc, number)),
    }
}

fn single_values(
    alloc: Global,
    metamodel: &Metamodel,
    kind: Kind,
    scalars: &[ScalarText],
) -> Result<List<Scalar>, Wrong>
    requires { KindIsKnown metamodel.now kind }
    ensures { Gives result (in_turn (value_for metamodel.now kind) scalars.now) }
{
    let mut values = Vec::new(alloc);
    for scalar in scalars {
        values.push(value_for(alloc, metamodel, kind, scalar)?)?;
    }
    Ok(List::from_vec(values))
}

fn value_for(
    alloc: Global,
    metamodel: &Metamodel,
    kind: Kind,
    scalar: &ScalarText,
) -> Result<Scalar, Wrong>
    requires { KindIsKnown metamodel.now kind }
    ensures { Gives result (value_for metamodel.now kind scalar.now) }
{
    match scalar {
        ScalarText::Number(number) => Ok(number_for(kind, *number)),
        ScalarText::Flag(flag) => Ok(Scalar::Bool(*flag)),
        ScalarText::Words(text) => words_for(alloc, metamodel, kind, text),
    }
}

// A number is an object's where objects are wanted, if it can be one.
fn number_for(kind: Kind, number: i64) -> Scalar
    ensures { result ≡ number_for kind number }
{
    match kind {
        Kind::Reference(_) => object_number(number),
        Kind::Int | Kind::Bool | Kind::Text | Kind::Enum(_) => Scalar::Int(number),
    }
}

fn object_number(number: i64) -> Scalar
    ensures { result ≡ object_number number }
{
    if number >= 0 && number <= u32::MAX as i64 {
        Scalar::Object(ObjectId(number as u32))
    } else {
        Scalar::Int(number)
    }
}

fn words_for(alloc: Global, metamodel: &Metamodel, kind: Kind, text: &Text) -> Result<Scalar, Wrong>
    requires { KindIsKnown metamodel.now kind }
    ensures { Gives result (words_for metamodel.now kind text.now) }
{
    match kind {
        Kind::Enum(enumeration) => literal_for(alloc, metamodel, enumeration, text),
        Kind::Int | Kind::Bool | Kind::Text | Kind::Reference(_) => {
            Ok(Scalar::Text(text.copy(alloc)?))
        }
    }
}

fn literal_for(
    alloc: Global,
    metamodel: &Metamodel,
    enumeration: EnumId,
    name: &Text,
) -> Result<Scalar, Wrong>
    requires { enumeration < length metamodel.now.enumerations }
    ensures { Gives result (literal_for metamodel.now enumeration name.now) }
{
    match metamodel.literal_named(enumeration, name.as_slice()) {
        Some(literal) => Ok(Scalar::Literal(enumeration, literal)),
        None => Err(Wrong::here(alloc)),
    }
}
