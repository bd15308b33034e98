//! The cases: each is a line of the number of the object that `self` is, a space and an expression.
//! A line that starts with `concat` and two words calls that service with the words as values.
ghost use Rattle.std.specs.Prelude.{◌≡◌, IfOk};
ghost use Rattle.wb_metamodel.specs.Metamodel.{Metamodel};
ghost use Rattle.wb_aql_check.specs.Checked.{IsChecked};
ghost use Rattle.wb_aql_eval.specs.Outcomes.{Binds};

use crate::served::push_concat;
use crate::shown::{push_answer, push_reads};
use std::alloc::{AllocError, Global};
use wb_aql_check::{Checked, check};
use wb_aql_eval::{Env, Evaluator};
use wb_aql_syntax::{Expr, parse};
use wb_aql_values::Value;
use wb_base::{List, Text};
use wb_metamodel::ObjectId;
use wb_model::{Model, Scalar};
use wb_outer::Steps;

/// The label of the steps that this program counts.
struct Cases;

/// Each line with its value or fault, and the cells that were read for it.
pub fn push_cases(
    alloc: Global,
    shown: &mut String,
    model: &Model,
    text: &str,
) -> Result<(), AllocError> {
    for line in text.lines() {
        push_line(alloc, shown, model, line)?;
    }
    Ok(())
}

fn push_line(
    alloc: Global,
    shown: &mut String,
    model: &Model,
    line: &str,
) -> Result<(), AllocError> {
    shown.push_str(line)?;
    shown.push_str(" => ")?;
    match line.split_once(' ') {
        Some(("concat", words)) => push_concat(alloc, shown, model, words)?,
        Some((number, text)) => push_case(alloc, shown, model, number, text)?,
        None => push_no_case(shown)?,
    }
    shown.push_str("\n")
}

fn push_no_case(shown: &mut String) -> Result<(), AllocError> {
    shown.push_str("no expression with known names")
}

fn push_case(
    alloc: Global,
    shown: &mut String,
    model: &Model,
    number: &str,
    text: &str,
) -> Result<(), AllocError> {
    match number.parse::<u32>() {
        Ok(number) => push_text(alloc, shown, model, &self_alone(alloc, number)?, text),
        Err(_) => push_no_case(shown),
    }
}

fn push_text(
    alloc: Global,
    shown: &mut String,
    model: &Model,
    env: &Env,
    text: &str,
) -> Result<(), AllocError>
    requires { (mm : Metamodel) → Binds mm env.now.names env.now }
{
    match parse(alloc, text.as_bytes()) {
        Ok(expression) => push_expression(
            alloc,
            shown,
            model,
            env,
            expression,
            &mut Steps::<Cases>::new(),
        ),
        Err(_) => push_no_case(shown),
    }
}

fn push_expression<E: Evaluator>(
    alloc: Global,
    shown: &mut String,
    model: &Model,
    env: &Env,
    expression: Expr,
    evaluator: &mut E,
) -> Result<(), AllocError>
    requires { (mm : Metamodel) → Binds mm env.now.names env.now }
{
    match check(alloc, expression, env.names.as_slice(), model.metamodel()) {
        Ok(checked) => { push_outcome(alloc, shown, model, env, &checked, evaluator) }
        Err(_) => push_no_case(shown),
    }
}

/// The outcome, as the evaluator finds it.
fn push_outcome<E: Evaluator>(
    alloc: Global,
    shown: &mut String,
    model: &Model,
    env: &Env,
    checked: &Checked,
    evaluator: &mut E,
) -> Result<(), AllocError>
    requires scope { Binds model.now.metamodel checked.now.1 env.now }
    requires checked { IsChecked model.now.metamodel checked.now }
{
    let outcome = evaluator.evaluate(alloc, checked, env, model)?;
    push_answer(shown, model.metamodel(), &outcome.answer)?;
    shown.push_str(" ;")?;
    push_reads(shown, model.metamodel(), outcome.reads.as_slice())
}

/// The variable `self`, which is the object of a number.
fn self_alone(alloc: Global, number: u32) -> Result<Env, AllocError>
    ensures { IfOk result (λ env. (mm : Metamodel) → Binds mm env.names env) }
{
    let mut names = List::new(alloc);
    names.push(Text::from_str(alloc, "self")?)?;
    let mut values = List::new(alloc);
    values.push(Value::One(Scalar::Object(ObjectId(number))))?;
    Ok(Env { names, values })
}
