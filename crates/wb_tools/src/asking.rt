ghost use Rattle.std.specs.Prelude.{◌≡◌, ◌+◌, IfOk};
ghost use Rattle.wb_aql_check.specs.Checked.{IsChecked};
ghost use Rattle.wb_aql_eval.specs.Outcomes.{Binds};
ghost use Rattle.wb_aql_values.specs.Bounds.{IsBounded};
ghost use Rattle.wb_tools.specs.Operations.{asked_at, condition_at, context_at, context_in, truth_at};
ghost use Rattle.wb_tools.specs.Readiness.{IsReady};
ghost use Rattle.wb_tools.specs.Runs.{Went, evaluated, run, work};

use crate::refusals::ToolRefusal;
use crate::tally::Tally;
use std::alloc::Global;
use wb_aql_check::Checked;
use wb_aql_eval::{Env, Evaluator};
use wb_aql_values::{Answer, Fault, Value};
use wb_metamodel::ObjectId;
use wb_model::Model;
use wb_spec_check::CheckedViewpoint;
use wb_store::Scalar;

const EXPRESSIONS: u32 = 1000000;

/// The value of an expression, which is counted unless it is one too many.
#[tactic(auto, unfolding(crate::specs::Runs::evaluated))]
pub fn evaluate<E: Evaluator>(
    alloc: Global,
    place: u32,
    e: &Checked,
    env: &Env,
    model: &Model,
    tally: &mut Tally,
    steps: &mut E,
) -> Result<Value, ToolRefusal>
    requires binds { Binds model.now.metamodel e.now.1 env.now }
    requires checked { IsChecked model.now.metamodel e.now }
    ensures done { Went (evaluated E.outcome_by place e.now env.now (work model.now tally.old)) result model.now tally.new }
    ensures bounded { IfOk result (IsBounded model.now.metamodel) }
    ensures counted { E.count steps.new + tally.old.expressions ≡ E.count steps.old + tally.new.expressions }
{
    if tally.expressions >= EXPRESSIONS {
        return Err(ToolRefusal::ToolTooLong);
    }
    tally.expressions += 1;
    let outcome = steps.evaluate(alloc, e, env, model)?;
    let (answer, _reads) = outcome.into_parts();
    match answer {
        Answer::Value(value) => Ok(value),
        Answer::Fault(fault) => Err(ToolRefusal::Evaluation(place, fault)),
    }
}

/// The value of the expression at a place of a tool.
pub fn asked_at<E: Evaluator>(
    alloc: Global,
    spec: &CheckedViewpoint,
    tool: u32,
    place: u32,
    env: &Env,
    model: &Model,
    tally: &mut Tally,
    steps: &mut E,
) -> Result<Value, ToolRefusal>
    requires { IsReady model.now.metamodel spec.now tool place env.now }
    ensures done { Went (run E.outcome_by (asked_at spec.now tool place env.now) (work model.now tally.old)) result model.now tally.new }
    ensures bounded { IfOk result (IsBounded model.now.metamodel) }
    ensures counted { E.count steps.new + tally.old.expressions ≡ E.count steps.old + tally.new.expressions }
{
    match spec.tool_expression(tool, place) {
        Some(e) => evaluate(alloc, place, e, env, model, tally, steps),
        None => Ok(Value::Null),
    }
}

/// The object that the expression at a place gives for the context.
pub fn context_at<E: Evaluator>(
    alloc: Global,
    spec: &CheckedViewpoint,
    tool: u32,
    place: u32,
    env: &Env,
    model: &Model,
    tally: &mut Tally,
    steps: &mut E,
) -> Result<ObjectId, ToolRefusal>
    requires { IsReady model.now.metamodel spec.now tool place env.now }
    ensures done { Went (run E.outcome_by (context_at spec.now tool place env.now) (work model.now tally.old)) result model.now tally.new }
    ensures counted { E.count steps.new + tally.old.expressions ≡ E.count steps.old + tally.new.expressions }
{
    let value = asked_at(alloc, spec, tool, place, env, model, tally, steps)?;
    context_in(place, &value)
}

fn context_in(place: u32, value: &Value) -> Result<ObjectId, ToolRefusal>
    ensures { result ≡ context_in place value.now }
{
    match value.members() {
        [Scalar::Object(o), ..] => Ok(*o),
        _ => Err(ToolRefusal::BadContext(place)),
    }
}

/// Whether the expression at a place holds.
pub fn condition_at<E: Evaluator>(
    alloc: Global,
    spec: &CheckedViewpoint,
    tool: u32,
    place: u32,
    env: &Env,
    model: &Model,
    tally: &mut Tally,
    steps: &mut E,
) -> Result<bool, ToolRefusal>
    requires { IsReady model.now.metamodel spec.now tool place env.now }
    ensures done { Went (run E.outcome_by (condition_at spec.now tool place env.now) (work model.now tally.old)) result model.now tally.new }
    ensures counted { E.count steps.new + tally.old.expressions ≡ E.count steps.old + tally.new.expressions }
{
    let value = asked_at(alloc, spec, tool, place, env, model, tally, steps)?;
    truth_at(place, &value)
}

/// A value that is to be a Bool.
pub fn truth_at(place: u32, value: &Value) -> Result<bool, ToolRefusal>
    ensures { result ≡ truth_at place value.now }
{
    match value {
        Value::One(Scalar::Bool(b)) => Ok(*b),
        _ => Err(ToolRefusal::Evaluation(place, Fault::NotBool)),
    }
}
