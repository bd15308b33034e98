ghost use Rattle.std.specs.Prelude.{◌≡◌, ◌+ℤ◌, ◌-ℤ◌, ◌*ℤ◌, neg_ℤ};
ghost use Rattle.wb_aql_values.specs.Runs.{fault_in};
ghost use Rattle.wb_base.specs.Answering.{AsDefined};
ghost use Rattle.wb_aql_eval.specs.Operators.{arithmetic, divided, number};

use crate::operators::Calculation;
use wb_aql_values::{Fault, Halt, Value};
use wb_model::Scalar;

/// An operator of two Ints.
pub fn arithmetic(operator: Calculation, a: i64, b: i64) -> Result<Value, Halt>
    ensures { AsDefined fault_in (arithmetic operator a b) result }
{
    match operator {
        Calculation::Subtract => difference(a, b),
        Calculation::Multiply => product(a, b),
        Calculation::Divide => quotient(a, b),
        Calculation::Add => sum(a, b),
    }
}

#[tactic(auto, using(crate::proofs::Numbers::number_fits, crate::proofs::Numbers::number_overflows))]
pub fn negated(n: i64) -> Result<Value, Halt>
    ensures { AsDefined fault_in (number (neg_ℤ n)) result }
{
    match n.checked_neg() {
        Some(m) => Ok(Value::One(Scalar::Int(m))),
        None => Err(Halt::Fault(Fault::Overflow)),
    }
}

#[tactic(auto, using(crate::proofs::Numbers::number_fits, crate::proofs::Numbers::number_overflows))]
fn sum(a: i64, b: i64) -> Result<Value, Halt>
    ensures { AsDefined fault_in (number (a +ℤ b)) result }
{
    match a.checked_add(b) {
        Some(m) => Ok(Value::One(Scalar::Int(m))),
        None => Err(Halt::Fault(Fault::Overflow)),
    }
}

#[tactic(auto, using(crate::proofs::Numbers::number_fits, crate::proofs::Numbers::number_overflows))]
fn difference(a: i64, b: i64) -> Result<Value, Halt>
    ensures { AsDefined fault_in (number (a -ℤ b)) result }
{
    match a.checked_sub(b) {
        Some(m) => Ok(Value::One(Scalar::Int(m))),
        None => Err(Halt::Fault(Fault::Overflow)),
    }
}

#[tactic(auto, using(crate::proofs::Numbers::number_fits, crate::proofs::Numbers::number_overflows))]
fn product(a: i64, b: i64) -> Result<Value, Halt>
    ensures { AsDefined fault_in (number (a *ℤ b)) result }
{
    match a.checked_mul(b) {
        Some(m) => Ok(Value::One(Scalar::Int(m))),
        None => Err(Halt::Fault(Fault::Overflow)),
    }
}

/// Cut towards zero.
fn quotient(a: i64, b: i64) -> Result<Value, Halt>
    ensures { AsDefined fault_in (divided a b) result }
{
    if b == 0 {
        return Err(Halt::Fault(Fault::DivideByZero));
    }
    match a.checked_div(b) {
        Some(m) => Ok(Value::One(Scalar::Int(m))),
        None => Err(Halt::Fault(Fault::Overflow)),
    }
}
