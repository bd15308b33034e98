ghost use Rattle.std.specs.Prelude.{◌≡◌, ◌+◌, ◌≤◌, ◌<◌, length, Some, IfOk, IfErr, OnOk};
ghost use Rattle.wb_aql_check.specs.Checked.{IsChecked};
ghost use Rattle.wb_aql_eval.specs.Outcomes.{Binds};
ghost use Rattle.wb_model.specs.EditLaws.{AreEdited};
ghost use Rattle.wb_spec_check.specs.Checked.{IsCheckedBy};
ghost use Rattle.wb_tools.specs.Answers.{Counted, IsPlain, Ran};
ghost use Rattle.wb_viewpoint.specs.OperationTrees.{count_all};
ghost use Rattle.wb_viewpoint.specs.View.{trees_of};
ghost use Rattle.wb_tools.specs.Readiness.{IsReady, variables_of};
ghost use Rattle.wb_tools.specs.Runs.{Went, named, run, work};
ghost use Rattle.wb_tools.specs.Tools.{evaluations, operations_of, permission, permission_of, permit, ran, tool_of};

use crate::asking::{evaluate, truth_at};
use crate::bindings::in_context;
use crate::performing::perform;
use crate::refusals::ToolRefusal;
use crate::tally::Tally;
use std::alloc::Global;
use wb_aql_check::Checked;
use wb_aql_eval::{Env, Evaluator};
use wb_aql_values::Value;
use wb_base::Duplicate;
use wb_metamodel::ObjectId;
use wb_model::{Model, ModelRefusal};
use wb_spec_check::CheckedViewpoint;
use wb_viewpoint::Operation;

/// Runs a tool on a copy of the model, which is put in place where all is accepted. Answers how many expressions were evaluated.
pub fn run_tool<E: Evaluator>(
    alloc: Global,
    spec: &CheckedViewpoint,
    tool: u32,
    env: &Env,
    context: ObjectId,
    model: &mut Model,
    steps: &mut E,
) -> Result<u64, ToolRefusal>
    requires checked { IsCheckedBy model.old.metamodel spec.now }
    requires tool { tool < length spec.now.0.tools }
    requires binds { Binds model.old.metamodel (variables_of spec.now tool) env.now }
    ensures ran { Ran result (ran E.outcome_by spec.now tool env.now context model.old) model.old model.new }
    ensures counted { Counted result (evaluations E.outcome_by spec.now tool env.now context model.old) (E.count steps.old) (E.count steps.new) }
    ensures few { IfOk result (λ n. n ≤ 1000000) }
    ensures plain { IfErr result IsPlain }
    ensures edited { OnOk result (AreEdited model.old model.new) }
    ensures metamodel { model.new.metamodel ≡ model.old.metamodel }
    ensures next { model.old.next ≤ model.new.next }
{
    let mut work = model.copy(alloc)?;
    let mut tally = Tally {
        edits: 0,
        expressions: 0,
    };
    match run_all(
        alloc, spec, tool, env, context, &mut work, &mut tally, steps,
    ) {
        Ok(()) => {
            *model = work;
            Ok(tally.expressions as u64)
        }
        Err(refusal) => Err(plain(refusal)),
    }
}

// Want of memory of an edit is want of memory of the tool.
fn plain(refusal: ToolRefusal) -> ToolRefusal
    ensures same { named result ≡ named refusal }
    ensures plain { IsPlain result }
{
    match refusal {
        ToolRefusal::Model(_, ModelRefusal::NoMemory) => ToolRefusal::NoMemory,
        other => other,
    }
}

// The precondition, and then the operations.
fn run_all<E: Evaluator>(
    alloc: Global,
    spec: &CheckedViewpoint,
    tool: u32,
    env: &Env,
    context: ObjectId,
    model: &mut Model,
    tally: &mut Tally,
    steps: &mut E,
) -> Result<(), ToolRefusal>
    requires checked { IsCheckedBy model.old.metamodel spec.now }
    requires tool { tool < length spec.now.0.tools }
    requires binds { Binds model.old.metamodel (variables_of spec.now tool) env.now }
    ensures done { Went (run E.outcome_by (tool_of spec.now tool env.now context) (work model.old tally.old)) result model.new tally.new }
    ensures counted { E.count steps.new + tally.old.expressions ≡ E.count steps.old + tally.new.expressions }
    ensures same { model.new.metamodel ≡ model.old.metamodel }
{
    let nearer = in_context(alloc, context, env)?;
    permission(alloc, spec, tool, &nearer, model, tally, steps)?;
    let operations = operations_of(spec, tool);
    perform(
        alloc, spec, tool, 1, operations, &nearer, context, model, tally, steps,
    )
}

#[tactic(auto, using(crate::proofs::Checked::few_operations))]
fn operations_of(spec: &CheckedViewpoint, tool: u32) -> &[Operation]
    requires { tool < length spec.now.0.tools }
    ensures same { trees_of result.now ≡ operations_of spec.now tool }
    ensures few { count_all (operations_of spec.now tool) ≤ 256 }
{
    let content = spec.viewpoint().content();
    content.tools.as_slice()[tool as usize]
        .operations
        .as_slice()
}

// The precondition is true, or absent.
fn permission<E: Evaluator>(
    alloc: Global,
    spec: &CheckedViewpoint,
    tool: u32,
    env: &Env,
    model: &Model,
    tally: &mut Tally,
    steps: &mut E,
) -> Result<(), ToolRefusal>
    requires { IsReady model.now.metamodel spec.now tool 0 env.now }
    ensures done { Went (run E.outcome_by (permission spec.now tool env.now) (work model.now tally.old)) result model.now tally.new }
    ensures counted { E.count steps.new + tally.old.expressions ≡ E.count steps.old + tally.new.expressions }
{
    match spec.tool_expression(tool, 0) {
        Some(e) => permission_of(alloc, e, env, model, tally, steps),
        None => Ok(()),
    }
}

// A precondition is true.
fn permission_of<E: Evaluator>(
    alloc: Global,
    e: &Checked,
    env: &Env,
    model: &Model,
    tally: &mut Tally,
    steps: &mut E,
) -> Result<(), ToolRefusal>
    requires binds { Binds model.now.metamodel e.now.1 env.now }
    requires checked { IsChecked model.now.metamodel e.now }
    ensures done { Went (run E.outcome_by (permission_of (Some e.now) env.now) (work model.now tally.old)) result model.now tally.new }
    ensures counted { E.count steps.new + tally.old.expressions ≡ E.count steps.old + tally.new.expressions }
{
    let value = evaluate(alloc, 0, e, env, model, tally, steps)?;
    permit(&value)
}

fn permit(value: &Value) -> Result<(), ToolRefusal>
    ensures { result ≡ permit value.now }
{
    if truth_at(0, value)? {
        Ok(())
    } else {
        Err(ToolRefusal::PreconditionFalse)
    }
}
