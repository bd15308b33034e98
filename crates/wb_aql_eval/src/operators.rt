ghost use Rattle.std.specs.Prelude.{◌≡◌, IfOk};
ghost use Rattle.wb_metamodel.specs.Metamodel.{Metamodel};
ghost use Rattle.wb_aql_values.specs.Bounds.{IsBounded};
ghost use Rattle.wb_aql_values.specs.Values.{flag};
ghost use Rattle.wb_aql_values.specs.Runs.{fault_in};
ghost use Rattle.wb_base.specs.Answering.{AsDefined};
ghost use Rattle.wb_aql_eval.specs.Operators.{added, calculated, combined, compared, connected, decided, integer, is_text, joined, ordered, stopping, truth, unary};

use crate::arithmetic::{arithmetic, negated};
use std::alloc::Global;
use wb_aql_syntax::{Binary, Unary};
use wb_aql_values::{Fault, Halt, Value, are_same, flag, join_forms};
use wb_metamodel::Metamodel;
use wb_model::Scalar;

/// The operators of two Bools.
#[derive(Clone, Copy)]
pub enum Connective {
    And,
    Or,
    Implies,
    Xor,
}

/// The operators that compare two Ints.
#[derive(Clone, Copy)]
pub enum Comparison {
    Less,
    LessEqual,
    Greater,
    GreaterEqual,
}

/// The operators that calculate with two Ints.
#[derive(Clone, Copy)]
pub enum Calculation {
    Add,
    Subtract,
    Multiply,
    Divide,
}

/// The Bool that a value is.
pub fn truth(value: &Value) -> Result<bool, Halt>
    ensures { AsDefined fault_in (truth value.now) result }
{
    match value {
        Value::One(Scalar::Bool(b)) => Ok(*b),
        _ => Err(Halt::Fault(Fault::NotBool)),
    }
}

/// The Int that a value is.
fn integer(value: &Value) -> Result<i64, Halt>
    ensures { AsDefined fault_in (integer value.now) result }
{
    match value {
        Value::One(Scalar::Int(n)) => Ok(*n),
        _ => Err(Halt::Fault(Fault::NotInt)),
    }
}

fn is_text(value: &Value) -> bool
    ensures { result ≡ is_text value.now }
{
    matches!(value, Value::One(Scalar::Text(_)))
}

/// An operator of one side.
pub fn unary(operator: Unary, value: &Value) -> Result<Value, Halt>
    ensures value { AsDefined fault_in (unary operator value.now) result }
    ensures bounded { (mm : Metamodel) → IfOk result (IsBounded mm) }
{
    applied(operator, value)
}

fn applied(operator: Unary, value: &Value) -> Result<Value, Halt>
    ensures { AsDefined fault_in (unary operator value.now) result }
{
    match operator {
        Unary::Not => {
            let b = truth(value)?;
            Ok(flag(!b))
        }
        Unary::Negate => {
            let n = integer(value)?;
            negated(n)
        }
    }
}

/// What the left side gives by itself, none where the right side is wanted.
pub fn decided(operator: Binary, left: &Value) -> Result<Option<Value>, Halt>
    ensures { AsDefined fault_in (decided operator left.now) result }
{
    match operator {
        Binary::And => stopping(false, false, left),
        Binary::Or => stopping(true, true, left),
        Binary::Implies => stopping(false, true, left),
        Binary::Xor => {
            let _b = truth(left)?;
            Ok(None)
        }
        Binary::Equal | Binary::NotEqual => Ok(None),
        Binary::Less | Binary::LessEqual | Binary::Greater | Binary::GreaterEqual => Ok(None),
        Binary::Add | Binary::Subtract | Binary::Multiply | Binary::Divide => Ok(None),
    }
}

/// An operator that stops at this left side, and then gives this.
fn stopping(at: bool, gives: bool, left: &Value) -> Result<Option<Value>, Halt>
    ensures { AsDefined fault_in (stopping at gives left.now) result }
{
    let b = truth(left)?;
    if b == at {
        return Ok(Some(flag(gives)));
    }
    Ok(None)
}

/// An operator of two sides, which were both evaluated.
pub fn combined(
    alloc: Global,
    metamodel: &Metamodel,
    operator: Binary,
    left: &Value,
    right: &Value,
) -> Result<Value, Halt>
    requires left { IsBounded metamodel.now left.now }
    requires right { IsBounded metamodel.now right.now }
    ensures value { AsDefined fault_in (combined metamodel.now operator left.now right.now) result }
    ensures bounded { IfOk result (IsBounded metamodel.now) }
{
    operated(alloc, metamodel, operator, left, right)
}

fn operated(
    alloc: Global,
    metamodel: &Metamodel,
    operator: Binary,
    left: &Value,
    right: &Value,
) -> Result<Value, Halt>
    requires left { IsBounded metamodel.now left.now }
    requires right { IsBounded metamodel.now right.now }
    ensures { AsDefined fault_in (combined metamodel.now operator left.now right.now) result }
{
    match operator {
        Binary::And => connected(Connective::And, left, right),
        Binary::Or => connected(Connective::Or, left, right),
        Binary::Implies => connected(Connective::Implies, left, right),
        Binary::Xor => connected(Connective::Xor, left, right),
        Binary::Equal => Ok(flag(are_same(left, right))),
        Binary::NotEqual => Ok(flag(!are_same(left, right))),
        Binary::Less => compared(Comparison::Less, left, right),
        Binary::LessEqual => compared(Comparison::LessEqual, left, right),
        Binary::Greater => compared(Comparison::Greater, left, right),
        Binary::GreaterEqual => compared(Comparison::GreaterEqual, left, right),
        Binary::Add => added(alloc, metamodel, left, right),
        Binary::Subtract => calculated(Calculation::Subtract, left, right),
        Binary::Multiply => calculated(Calculation::Multiply, left, right),
        Binary::Divide => calculated(Calculation::Divide, left, right),
    }
}

/// Two Ints are added; where either side is a Text the text forms are joined.
fn added(alloc: Global, metamodel: &Metamodel, left: &Value, right: &Value) -> Result<Value, Halt>
    requires left { IsBounded metamodel.now left.now }
    requires right { IsBounded metamodel.now right.now }
    ensures { AsDefined fault_in (added metamodel.now left.now right.now) result }
{
    if is_text(left) || is_text(right) {
        match join_forms(alloc, left, right, metamodel)? {
            Some(text) => Ok(Value::One(Scalar::Text(text))),
            None => Err(Halt::Fault(Fault::TextTooLong)),
        }
    } else {
        calculated(Calculation::Add, left, right)
    }
}

fn connected(operator: Connective, left: &Value, right: &Value) -> Result<Value, Halt>
    ensures { AsDefined fault_in (connected operator left.now right.now) result }
{
    let a = truth(left)?;
    let b = truth(right)?;
    Ok(flag(joined(operator, a, b)))
}

fn joined(operator: Connective, a: bool, b: bool) -> bool
    ensures { result ≡ joined operator a b }
{
    match operator {
        Connective::And => a && b,
        Connective::Or => a || b,
        Connective::Implies => !a || b,
        Connective::Xor => a != b,
    }
}

fn compared(operator: Comparison, left: &Value, right: &Value) -> Result<Value, Halt>
    ensures { AsDefined fault_in (compared operator left.now right.now) result }
{
    let a = integer(left)?;
    let b = integer(right)?;
    Ok(flag(ordered(operator, a, b)))
}

fn ordered(operator: Comparison, a: i64, b: i64) -> bool
    ensures { result ≡ ordered operator a b }
{
    match operator {
        Comparison::Less => a < b,
        Comparison::LessEqual => a <= b,
        Comparison::Greater => b < a,
        Comparison::GreaterEqual => b <= a,
    }
}

fn calculated(operator: Calculation, left: &Value, right: &Value) -> Result<Value, Halt>
    ensures { AsDefined fault_in (calculated operator left.now right.now) result }
{
    let a = integer(left)?;
    let b = integer(right)?;
    arithmetic(operator, a, b)
}
