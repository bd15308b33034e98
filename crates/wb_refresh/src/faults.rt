ghost use Rattle.std.specs.Prelude.{◌≡◌, ◌++◌, map, IfOk, OnOk};
ghost use Rattle.std.specs.Option.{option_to_list};
ghost use Rattle.wb_aql_values.specs.Bounds.{IsBounded};
ghost use Rattle.wb_aql_values.specs.Runs.{answered};
ghost use Rattle.wb_refresh.specs.Faults.{fault_in, fault_in_value, fault_name, is_bool, problem_of, problems_of, wants_bool};
ghost use Rattle.wb_refresh.specs.Tables.{AreWithin, row_with};

use std::alloc::{AllocError, Global};
use wb_aql_eval::Outcome;
use wb_aql_values::{Answer, Fault, Value, text_form};
use wb_base::{Duplicate, List, Text};
use wb_diagram::{Problem, Unit};
use wb_metamodel::Metamodel;
use wb_store::Scalar;

/// The problems of units with their outcomes, in order.
pub fn problems(
    alloc: Global,
    metamodel: &Metamodel,
    outcomes: &[(Unit, Outcome)],
) -> Result<List<Problem>, AllocError>
    requires { AreWithin metamodel.now (map row_with outcomes.now) }
    ensures { IfOk result (λ found. found ≡ problems_of metamodel.now (map row_with outcomes.now)) }
{
    let mut found = Vec::new(alloc);
    for row in outcomes {
        put_problem(alloc, metamodel, row, &mut found)?;
    }
    Ok(List::from_vec(found))
}

// Puts the problem of a unit last, if it has one.
fn put_problem(
    alloc: Global,
    metamodel: &Metamodel,
    row: &(Unit, Outcome),
    found: &mut Vec<Problem>,
) -> Result<(), AllocError>
    requires { IfOk (answered row.now.1.answer) (IsBounded metamodel.now) }
    ensures { OnOk result (found.new.items ≡ found.old.items ++ option_to_list (problem_of metamodel.now (row_with row.now))) }
{
    let (unit, outcome) = row;
    if let Some(fault) = fault_in(alloc, metamodel, unit, &outcome.answer)? {
        found.push(problem(alloc, unit, fault)?)?;
    }
    Ok(())
}

fn problem(alloc: Global, unit: &Unit, fault: Fault) -> Result<Problem, AllocError>
    ensures { IfOk result (λ problem. problem ≡ record { at = unit.now; fault = fault_name fault }) }
{
    let at = unit.copy(alloc)?;
    let fault = Text::from_str(alloc, fault_name(fault))?;
    Ok(Problem { at, fault })
}

fn fault_in(
    alloc: Global,
    metamodel: &Metamodel,
    unit: &Unit,
    answer: &Answer,
) -> Result<Option<Fault>, AllocError>
    requires { IfOk (answered answer.now) (IsBounded metamodel.now) }
    ensures { IfOk result (λ fault. fault ≡ fault_in metamodel.now unit.now answer.now) }
{
    match answer {
        Answer::Value(value) => fault_in_value(alloc, metamodel, unit, value),
        Answer::Fault(fault) => Ok(Some(*fault)),
    }
}

// The fault of a unit that has a value.
fn fault_in_value(
    alloc: Global,
    metamodel: &Metamodel,
    unit: &Unit,
    value: &Value,
) -> Result<Option<Fault>, AllocError>
    requires { IsBounded metamodel.now value.now }
    ensures { IfOk result (λ fault. fault ≡ fault_in_value metamodel.now unit.now value.now) }
{
    if let Unit::Label { .. } = unit {
        return match text_form(alloc, value, metamodel)? {
            Some(_) => Ok(None),
            None => Ok(Some(Fault::TextTooLong)),
        };
    }
    if wants_bool(unit) && !is_bool(value) {
        return Ok(Some(Fault::NotBool));
    }
    Ok(None)
}

// Preconditions, styles and filters are to be true or false.
fn wants_bool(unit: &Unit) -> bool
    ensures { result ≡ wants_bool unit.now }
{
    matches!(
        unit,
        Unit::Precondition { .. }
            | Unit::EdgePrecondition { .. }
            | Unit::Style { .. }
            | Unit::Filter { .. }
    )
}

fn is_bool(value: &Value) -> bool
    ensures { result ≡ is_bool value.now }
{
    matches!(value, Value::One(Scalar::Bool(_)))
}

/// The name of a fault.
pub fn fault_name(fault: Fault) -> &'static str
    ensures { result.now ≡ fault_name fault }
{
    match fault {
        Fault::NotAnObject => "NotAnObject",
        Fault::NoFeature => "NoFeature",
        Fault::NotBool => "NotBool",
        Fault::NotInt => "NotInt",
        Fault::Overflow => "Overflow",
        Fault::DivideByZero => "DivideByZero",
        Fault::TooLong => "TooLong",
        Fault::TextTooLong => "TextTooLong",
        Fault::DeadObject => "DeadObject",
    }
}
