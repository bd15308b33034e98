ghost use Rattle.std.specs.Prelude.{◌≡◌, IfOk, filter, length, not};
ghost use Rattle.std.specs.Option.{option_copied};
ghost use Rattle.wb_aql_services.specs.Asked.{IsType};
ghost use Rattle.wb_aql_services.specs.Collections.{as_sort, at, excluding, filtered, first, includes, including, int_in, is_empty, is_same, last, member_at, member_or_null, size};
ghost use Rattle.wb_aql_values.specs.Readings.{contents};
ghost use Rattle.wb_aql_values.specs.Runs.{Gives, run};
ghost use Rattle.wb_aql_values.specs.Values.{flag};

use crate::types::kept;
use std::alloc::{AllocError, Global};
use wb_aql_values::{Fault, Gathered, Halt, Reads, Sort, Value, collection, flag};
use wb_base::{Duplicate, List};
use wb_metamodel::ClassId;
use wb_model::{Model, Scalar};

/// `filter`: the live objects that conform to a type.
pub fn filtered(
    alloc: Global,
    asked: &Option<ClassId>,
    receiver: &Value,
    model: &Model,
    reads: &mut Reads,
) -> Result<Value, Halt>
    requires { IsType model.now.metamodel asked.now }
    ensures { Gives (run (filtered model.now.metamodel asked.now receiver.now) (contents model.now) reads.old) result reads.new }
{
    let kept = kept(alloc, asked, receiver.members(), model, reads)?;
    Ok(collection(receiver.sort(), kept))
}

fn member_or_null(alloc: Global, member: Option<&Scalar>) -> Result<Value, AllocError>
    ensures { IfOk result (λ value. value ≡ member_or_null (option_copied member.entry)) }
{
    match member {
        Some(x) => Ok(Value::One(x.copy(alloc)?)),
        None => Ok(Value::Null),
    }
}

pub fn first(alloc: Global, receiver: &Value) -> Result<Value, AllocError>
    ensures { IfOk result (λ value. value ≡ first receiver.now) }
{
    member_or_null(alloc, receiver.members().first())
}

pub fn last(alloc: Global, receiver: &Value) -> Result<Value, AllocError>
    ensures { IfOk result (λ value. value ≡ last receiver.now) }
{
    member_or_null(alloc, receiver.members().last())
}

/// `at`: the member at a place that is counted from 1, or null.
pub fn at(
    alloc: Global,
    place: &Value,
    receiver: &Value,
    model: &Model,
    reads: &mut Reads,
) -> Result<Value, Halt>
    ensures { Gives (run (at place.now receiver.now) (contents model.now) reads.old) result reads.new }
{
    let Some(place) = int_in(place) else {
        return Err(Halt::Fault(Fault::NotInt));
    };
    Ok(member_or_null(alloc, member_at(place, receiver.members()))?)
}

// The integer that a value is, if it is one.
fn int_in(value: &Value) -> Option<i64>
    ensures { result ≡ int_in value.now }
{
    match value {
        Value::One(Scalar::Int(i)) => Some(*i),
        _ => None,
    }
}

// The member at a place that is counted from 1.
fn member_at(place: i64, members: &[Scalar]) -> Option<&Scalar>
    ensures { option_copied result ≡ member_at place members.now }
{
    if place < 1 {
        return None;
    }
    members.get((place - 1) as usize)
}

pub fn size(receiver: &Value) -> Value
    ensures { result ≡ size receiver.now }
{
    Value::One(Scalar::Int(receiver.members().len() as i64))
}

pub fn is_empty(receiver: &Value) -> Value
    ensures { result ≡ flag (is_empty receiver.now) }
{
    flag(receiver.members().len() == 0)
}

pub fn not_empty(receiver: &Value) -> Value
    ensures { result ≡ flag (not (is_empty receiver.now)) }
{
    flag(receiver.members().len() != 0)
}

pub fn includes(value: &Value, receiver: &Value) -> Value
    ensures { result ≡ flag (includes value.now receiver.now) }
{
    flag(is_member(value, receiver))
}

pub fn excludes(value: &Value, receiver: &Value) -> Value
    ensures { result ≡ flag (not (includes value.now receiver.now)) }
{
    flag(!is_member(value, receiver))
}

// Is a value a member? Null and a collection are none.
fn is_member(value: &Value, receiver: &Value) -> bool
    ensures { result ≡ includes value.now receiver.now }
{
    match value {
        Value::One(x) => receiver.members().contains(x),
        _ => false,
    }
}

/// `including`: the receiver with a value put last.
pub fn including(
    alloc: Global,
    value: &Value,
    receiver: &Value,
    model: &Model,
    reads: &mut Reads,
) -> Result<Value, Halt>
    ensures { Gives (run (including value.now receiver.now) (contents model.now) reads.old) result reads.new }
{
    let mut members = Gathered::new(alloc, receiver.sort());
    members.put(receiver.copy(alloc)?)?;
    members.put(value.copy(alloc)?)?;
    Ok(members.into_value(alloc)?)
}

/// `excluding`: the receiver without all members that are equal to a value.
pub fn excluding(alloc: Global, value: &Value, receiver: &Value) -> Result<Value, AllocError>
    ensures { IfOk result (λ rest. rest ≡ excluding value.now receiver.now) }
{
    let mut others = List::new(alloc);
    for x in receiver.members() {
        if !is_same(value, x) {
            others.push(x.copy(alloc)?)?;
        }
    }
    Ok(collection(receiver.sort(), others))
}

fn is_same(value: &Value, x: &Scalar) -> bool
    ensures { result ≡ is_same value.now x.now }
{
    match value {
        Value::One(own) => own == x,
        _ => false,
    }
}

/// `asSequence` and `asOrderedSet`: the members as a collection of a sort.
pub fn as_sort(
    alloc: Global,
    sort: Sort,
    receiver: &Value,
    model: &Model,
    reads: &mut Reads,
) -> Result<Value, Halt>
    ensures { Gives (run (as_sort sort receiver.now) (contents model.now) reads.old) result reads.new }
{
    let mut members = Gathered::new(alloc, sort);
    members.put(receiver.copy(alloc)?)?;
    Ok(members.into_value(alloc)?)
}
