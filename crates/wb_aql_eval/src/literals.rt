ghost use Rattle.std.specs.Prelude.{◌≡◌, pos, IfOk};
ghost use Rattle.wb_metamodel.specs.Metamodel.{Metamodel};
ghost use Rattle.wb_aql_values.specs.Bounds.{IsBounded};
ghost use Rattle.wb_aql_values.specs.Runs.{fault_in};
ghost use Rattle.wb_base.specs.Answering.{AsDefined};
ghost use Rattle.wb_aql_eval.specs.Meaning.{constant, literal, sort_named, written};
ghost use Rattle.wb_aql_eval.specs.Operators.{number};

use std::alloc::Global;
use wb_aql_syntax::{CollectionKind, Constant};
use wb_aql_values::{Fault, Halt, Sort, Value, flag};
use wb_base::{Duplicate, Text};
use wb_metamodel::Metamodel;
use wb_model::Scalar;

/// How many bytes a text has at most.
const MAX_TEXT: usize = 65536;

pub fn integer(value: u64) -> Result<Value, Halt>
    ensures value { AsDefined fault_in (number (pos value)) result }
    ensures bounded { (mm : Metamodel) → IfOk result (IsBounded mm) }
{
    if value <= 0x7fff_ffff_ffff_ffff {
        Ok(Value::One(Scalar::Int(value as i64)))
    } else {
        Err(Halt::Fault(Fault::Overflow))
    }
}

pub fn text(alloc: Global, value: &Text) -> Result<Value, Halt>
    ensures value { AsDefined fault_in (written value.now) result }
    ensures bounded { (mm : Metamodel) → IfOk result (IsBounded mm) }
{
    if value.as_slice().len() > MAX_TEXT {
        return Err(Halt::Fault(Fault::TextTooLong));
    }
    let copy = value.copy(alloc)?;
    Ok(Value::One(Scalar::Text(copy)))
}

pub fn constant(value: Constant) -> Value
    ensures value { result ≡ constant value }
    ensures bounded { (mm : Metamodel) → IsBounded mm result }
{
    match value {
        Constant::Null => Value::Null,
        Constant::True => flag(true),
        Constant::False => flag(false),
    }
}

/// A literal of an enumeration; null where it is not there.
pub fn literal(metamodel: &Metamodel, enumeration: &Text, name: &Text) -> Value
    ensures value { result ≡ literal metamodel.now enumeration.now name.now }
    ensures bounded { IsBounded metamodel.now result }
{
    match metamodel.enum_named(enumeration.as_slice()) {
        Some(e) => match metamodel.literal_named(e, name.as_slice()) {
            Some(l) => Value::One(Scalar::Literal(e, l)),
            None => Value::Null,
        },
        None => Value::Null,
    }
}

pub fn sort_named(kind: CollectionKind) -> Sort
    ensures { result ≡ sort_named kind }
{
    match kind {
        CollectionKind::Sequence => Sort::Sequence,
        CollectionKind::OrderedSet => Sort::OrderedSet,
    }
}
