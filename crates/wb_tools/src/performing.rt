ghost use Rattle.std.specs.Prelude.{◌≡◌, ◌+◌, ◌<◌, length, true, Ok, Some};
ghost use Rattle.std.specs.List.{list_all};
ghost use Rattle.wb_aql_check.specs.Checked.{IsChecked};
ghost use Rattle.wb_aql_eval.specs.Outcomes.{Binds};
ghost use Rattle.wb_aql_values.specs.Bounds.{is_bounded};
ghost use Rattle.wb_spec_check.specs.Scopes.{scope_inside};
ghost use Rattle.wb_viewpoint.specs.OperationTrees.{count_all};
ghost use Rattle.wb_viewpoint.specs.View.{trees_of};
ghost use Rattle.wb_model.specs.declared.edits.edit.Edit.TheVariants.{Remove};
ghost use Rattle.wb_tools.specs.Bindings.{inside_with};
ghost use Rattle.wb_tools.specs.Doings.{each};
ghost use Rattle.wb_tools.specs.FeatureEdits.{edit_by};
ghost use Rattle.wb_tools.specs.Operations.{act, change_context, create_instance, creating, for_each, if_true, move, set, turn, unset, unsetting};
ghost use Rattle.wb_tools.specs.Readiness.{AreReady, IsReady, IsReadyAround, one_more, same_scope};
ghost use Rattle.wb_tools.specs.Runs.{Outcomes, Went, run, work};
ghost use Rattle.wb_tools.specs.Tools.{perform};

use crate::asking::{asked_at, condition_at, context_at, evaluate};
use crate::bindings::{context_with, in_context, inside_with};
use crate::counting::count_all;
use crate::editing::{edit, edit_by};
use crate::feature_edits::{creation, moving};
use crate::refusals::ToolRefusal;
use crate::setting::set_all;
use crate::tally::Tally;
use crate::unsetting::{take_all, unset_all};
use std::alloc::Global;
use wb_aql_check::Checked;
use wb_aql_eval::{Env, Evaluator};
use wb_json::Name;
use wb_metamodel::{ClassId, ObjectId};
use wb_model::{Edit, Model};
use wb_spec_check::CheckedViewpoint;
use wb_store::Scalar;
use wb_viewpoint::{Action, Operation};

/// Operations one after another, of which the first has this place.
#[cycle(perform)]
pub fn perform<E: Evaluator>(
    alloc: Global,
    spec: &CheckedViewpoint,
    tool: u32,
    place: u32,
    operations: &[Operation],
    env: &Env,
    context: ObjectId,
    model: &mut Model,
    tally: &mut Tally,
    steps: &mut E,
) -> Result<(), ToolRefusal>
    requires ready { AreReady model.old.metamodel spec.now tool place (trees_of operations.now) env.now }
    requires fits { place + count_all (trees_of operations.now) < 4294967296 }
    ensures done { Went (run E.outcome_by (perform spec.now tool place (trees_of operations.now) env.now context) (work model.old tally.old)) result model.new tally.new }
    ensures counted { E.count steps.new + tally.old.expressions ≡ E.count steps.old + tally.new.expressions }
    ensures same { model.new.metamodel ≡ model.old.metamodel }
{
    match operations {
        [] => Ok(()),
        [first, rest @ ..] => {
            let inside = first.inside.as_slice();
            act(
                alloc,
                spec,
                tool,
                place,
                &first.action,
                inside,
                env,
                context,
                model,
                tally,
                steps,
            )?;
            perform(
                alloc,
                spec,
                tool,
                place + (1 + count_all(inside)),
                rest,
                env,
                context,
                model,
                tally,
                steps,
            )
        }
    }
}

// One operation, with those inside it.
#[cycle(perform)]
#[tactic(auto, unfolding(crate::specs::Operations::act))]
fn act<E: Evaluator>(
    alloc: Global,
    spec: &CheckedViewpoint,
    tool: u32,
    place: u32,
    action: &Action,
    inside: &[Operation],
    env: &Env,
    context: ObjectId,
    model: &mut Model,
    tally: &mut Tally,
    steps: &mut E,
) -> Result<(), ToolRefusal>
    requires ready { IsReadyAround model.old.metamodel spec.now tool place (λ scope. scope_inside scope action.now) (trees_of inside.now) env.now }
    requires fits { place + count_all (trees_of inside.now) < 4294967295 }
    ensures done { Went (run E.outcome_by (act spec.now tool place action.now (perform spec.now tool (place + 1) (trees_of inside.now)) env.now context) (work model.old tally.old)) result model.new tally.new }
    ensures counted { E.count steps.new + tally.old.expressions ≡ E.count steps.old + tally.new.expressions }
    ensures same { model.new.metamodel ≡ model.old.metamodel }
{
    match action {
        Action::ChangeContext { .. } => {
            change_context(alloc, spec, tool, place, inside, env, model, tally, steps)
        }
        Action::CreateInstance {
            reference,
            variable,
            ..
        } => create_instance(
            alloc, spec, tool, place, reference, variable, inside, env, context, model, tally,
            steps,
        ),
        Action::Set { feature, .. } => {
            set(
                alloc, spec, tool, place, feature, env, context, model, tally, steps,
            )
        }
        Action::Unset { feature, .. } => {
            unset(
                alloc, spec, tool, place, feature, env, context, model, tally, steps,
            )
        }
        Action::Move { reference, .. } => {
            move_to(
                alloc, spec, tool, place, reference, env, context, model, tally, steps,
            )
        }
        Action::Remove => remove(alloc, place, context, model, tally),
        Action::For { iterator, .. } => run_for(
            alloc, spec, tool, place, iterator, inside, env, context, model, tally, steps,
        ),
        Action::If { .. } => run_if(
            alloc, spec, tool, place, inside, env, context, model, tally, steps,
        ),
    }
}

// Those inside are done with the object that the expression gives for the context.
#[cycle(perform)]
fn change_context<E: Evaluator>(
    alloc: Global,
    spec: &CheckedViewpoint,
    tool: u32,
    place: u32,
    inside: &[Operation],
    env: &Env,
    model: &mut Model,
    tally: &mut Tally,
    steps: &mut E,
) -> Result<(), ToolRefusal>
    requires ready { IsReadyAround model.old.metamodel spec.now tool place same_scope (trees_of inside.now) env.now }
    requires fits { place + count_all (trees_of inside.now) < 4294967295 }
    ensures done { Went (run E.outcome_by (change_context spec.now tool place (perform spec.now tool (place + 1) (trees_of inside.now)) env.now) (work model.old tally.old)) result model.new tally.new }
    ensures counted { E.count steps.new + tally.old.expressions ≡ E.count steps.old + tally.new.expressions }
    ensures same { model.new.metamodel ≡ model.old.metamodel }
{
    let next = context_at(alloc, spec, tool, place, env, model, tally, steps)?;
    let nearer = in_context(alloc, next, env)?;
    perform(
        alloc,
        spec,
        tool,
        place + 1,
        inside,
        &nearer,
        next,
        model,
        tally,
        steps,
    )
}

// Makes an object, with which those inside are done.
#[cycle(perform)]
#[tactic(auto, unfolding(crate::specs::Operations::create_instance))]
fn create_instance<E: Evaluator>(
    alloc: Global,
    spec: &CheckedViewpoint,
    tool: u32,
    place: u32,
    reference: &Name,
    variable: &Name,
    inside: &[Operation],
    env: &Env,
    context: ObjectId,
    model: &mut Model,
    tally: &mut Tally,
    steps: &mut E,
) -> Result<(), ToolRefusal>
    requires ready { IsReadyAround model.old.metamodel spec.now tool place (one_more variable.now) (trees_of inside.now) env.now }
    requires fits { place + count_all (trees_of inside.now) < 4294967295 }
    ensures done { Went (run E.outcome_by (create_instance spec.now tool place reference.now variable.now (perform spec.now tool (place + 1) (trees_of inside.now)) env.now context) (work model.old tally.old)) result model.new tally.new }
    ensures counted { E.count steps.new + tally.old.expressions ≡ E.count steps.old + tally.new.expressions }
    ensures same { model.new.metamodel ≡ model.old.metamodel }
{
    match spec.class_of_operation(tool, place) {
        Some(class) => create(
            alloc, spec, tool, place, class, reference, variable, inside, env, context, model,
            tally, steps,
        ),
        None => Ok(()),
    }
}

// The same, where the class is known.
#[cycle(perform)]
fn create<E: Evaluator>(
    alloc: Global,
    spec: &CheckedViewpoint,
    tool: u32,
    place: u32,
    class: ClassId,
    reference: &Name,
    variable: &Name,
    inside: &[Operation],
    env: &Env,
    context: ObjectId,
    model: &mut Model,
    tally: &mut Tally,
    steps: &mut E,
) -> Result<(), ToolRefusal>
    requires ready { IsReadyAround model.old.metamodel spec.now tool place (one_more variable.now) (trees_of inside.now) env.now }
    requires class { class < length model.old.metamodel.classes }
    requires fits { place + count_all (trees_of inside.now) < 4294967295 }
    ensures done { Went (run E.outcome_by (creating place (Some class) reference.now variable.now (perform spec.now tool (place + 1) (trees_of inside.now)) env.now context) (work model.old tally.old)) result model.new tally.new }
    ensures counted { E.count steps.new + tally.old.expressions ≡ E.count steps.old + tally.new.expressions }
    ensures same { model.new.metamodel ≡ model.old.metamodel }
{
    let change = creation(model, context, class, reference);
    let next = ObjectId(edit(alloc, place, change, model, tally)?);
    run_turn(
        alloc,
        spec,
        tool,
        place,
        &Scalar::Object(next),
        variable,
        inside,
        env,
        next,
        model,
        tally,
        steps,
    )
}

// Sets a feature of the context to the value of the expression.
fn set<E: Evaluator>(
    alloc: Global,
    spec: &CheckedViewpoint,
    tool: u32,
    place: u32,
    feature: &Name,
    env: &Env,
    context: ObjectId,
    model: &mut Model,
    tally: &mut Tally,
    steps: &mut E,
) -> Result<(), ToolRefusal>
    requires { IsReady model.old.metamodel spec.now tool place env.now }
    ensures done { Went (run E.outcome_by (set spec.now tool place feature.now env.now context) (work model.old tally.old)) result model.new tally.new }
    ensures counted { E.count steps.new + tally.old.expressions ≡ E.count steps.old + tally.new.expressions }
    ensures same { model.new.metamodel ≡ model.old.metamodel }
{
    let value = asked_at(alloc, spec, tool, place, env, model, tally, steps)?;
    set_all(
        alloc,
        place,
        context,
        feature,
        value.members(),
        model,
        tally,
    )
}

// Takes values from a feature of the context: those of the expression, or all.
fn unset<E: Evaluator>(
    alloc: Global,
    spec: &CheckedViewpoint,
    tool: u32,
    place: u32,
    feature: &Name,
    env: &Env,
    context: ObjectId,
    model: &mut Model,
    tally: &mut Tally,
    steps: &mut E,
) -> Result<(), ToolRefusal>
    requires { IsReady model.old.metamodel spec.now tool place env.now }
    ensures done { Went (run E.outcome_by (unset spec.now tool place feature.now env.now context) (work model.old tally.old)) result model.new tally.new }
    ensures counted { E.count steps.new + tally.old.expressions ≡ E.count steps.old + tally.new.expressions }
    ensures same { model.new.metamodel ≡ model.old.metamodel }
{
    match spec.tool_expression(tool, place) {
        Some(e) => take_values(alloc, place, e, feature, env, context, model, tally, steps),
        None => unset_all(alloc, place, context, feature, model, tally),
    }
}

// Takes the values of an expression from a feature of the context.
fn take_values<E: Evaluator>(
    alloc: Global,
    place: u32,
    e: &Checked,
    feature: &Name,
    env: &Env,
    context: ObjectId,
    model: &mut Model,
    tally: &mut Tally,
    steps: &mut E,
) -> Result<(), ToolRefusal>
    requires binds { Binds model.old.metamodel e.now.1 env.now }
    requires checked { IsChecked model.old.metamodel e.now }
    ensures done { Went (run E.outcome_by (unsetting place (Some e.now) feature.now env.now context) (work model.old tally.old)) result model.new tally.new }
    ensures counted { E.count steps.new + tally.old.expressions ≡ E.count steps.old + tally.new.expressions }
    ensures same { model.new.metamodel ≡ model.old.metamodel }
{
    let value = evaluate(alloc, place, e, env, model, tally, steps)?;
    take_all(
        alloc,
        place,
        context,
        feature,
        value.members(),
        model,
        tally,
    )
}

// Moves the context into a reference of the object that the expression gives.
fn move_to<E: Evaluator>(
    alloc: Global,
    spec: &CheckedViewpoint,
    tool: u32,
    place: u32,
    reference: &Name,
    env: &Env,
    context: ObjectId,
    model: &mut Model,
    tally: &mut Tally,
    steps: &mut E,
) -> Result<(), ToolRefusal>
    requires { IsReady model.old.metamodel spec.now tool place env.now }
    ensures done { Went (run E.outcome_by (move spec.now tool place reference.now env.now context) (work model.old tally.old)) result model.new tally.new }
    ensures counted { E.count steps.new + tally.old.expressions ≡ E.count steps.old + tally.new.expressions }
    ensures same { model.new.metamodel ≡ model.old.metamodel }
{
    let container = context_at(alloc, spec, tool, place, env, model, tally, steps)?;
    let change = moving(model, context, container, reference);
    edit_by(alloc, place, change, model, tally)
}

// Removes the context.
fn remove(
    alloc: Global,
    place: u32,
    context: ObjectId,
    model: &mut Model,
    tally: &mut Tally,
) -> Result<(), ToolRefusal>
    ensures done { (out : Outcomes) → Went (run out (edit_by place (Ok (Remove context))) (work model.old tally.old)) result model.new tally.new }
    ensures counted { tally.new.expressions ≡ tally.old.expressions }
    ensures same { model.new.metamodel ≡ model.old.metamodel }
{
    let change = Ok(Edit::Remove { object: context });
    edit_by(alloc, place, change, model, tally)
}

// Does those inside for each item.
#[cycle(perform)]
fn run_for<E: Evaluator>(
    alloc: Global,
    spec: &CheckedViewpoint,
    tool: u32,
    place: u32,
    variable: &Name,
    inside: &[Operation],
    env: &Env,
    context: ObjectId,
    model: &mut Model,
    tally: &mut Tally,
    steps: &mut E,
) -> Result<(), ToolRefusal>
    requires ready { IsReadyAround model.old.metamodel spec.now tool place (one_more variable.now) (trees_of inside.now) env.now }
    requires fits { place + count_all (trees_of inside.now) < 4294967295 }
    ensures done { Went (run E.outcome_by (for_each spec.now tool place variable.now (perform spec.now tool (place + 1) (trees_of inside.now)) env.now context) (work model.old tally.old)) result model.new tally.new }
    ensures counted { E.count steps.new + tally.old.expressions ≡ E.count steps.old + tally.new.expressions }
    ensures same { model.new.metamodel ≡ model.old.metamodel }
{
    let items = asked_at(alloc, spec, tool, place, env, model, tally, steps)?;
    run_turns(
        alloc,
        spec,
        tool,
        place,
        items.members(),
        variable,
        inside,
        env,
        context,
        model,
        tally,
        steps,
    )
}

// A turn for each of these items.
#[cycle(perform)]
fn run_turns<E: Evaluator>(
    alloc: Global,
    spec: &CheckedViewpoint,
    tool: u32,
    place: u32,
    items: &[Scalar],
    variable: &Name,
    inside: &[Operation],
    env: &Env,
    context: ObjectId,
    model: &mut Model,
    tally: &mut Tally,
    steps: &mut E,
) -> Result<(), ToolRefusal>
    requires ready { IsReadyAround model.old.metamodel spec.now tool place (one_more variable.now) (trees_of inside.now) env.now }
    requires bounded { list_all (is_bounded model.old.metamodel) items.now ≡ true }
    requires fits { place + count_all (trees_of inside.now) < 4294967295 }
    ensures done { Went (run E.outcome_by (each (turn variable.now (perform spec.now tool (place + 1) (trees_of inside.now)) env.now context) items.now) (work model.old tally.old)) result model.new tally.new }
    ensures counted { E.count steps.new + tally.old.expressions ≡ E.count steps.old + tally.new.expressions }
    ensures same { model.new.metamodel ≡ model.old.metamodel }
{
    for item in items {
        run_turn(
            alloc,
            spec,
            tool,
            place,
            item,
            variable,
            inside,
            env,
            context_with(item, context),
            model,
            tally,
            steps,
        )?;
    }
    Ok(())
}

// Those inside, with this item as a variable and with this context.
#[cycle(perform)]
fn run_turn<E: Evaluator>(
    alloc: Global,
    spec: &CheckedViewpoint,
    tool: u32,
    place: u32,
    item: &Scalar,
    name: &Name,
    inside: &[Operation],
    env: &Env,
    context: ObjectId,
    model: &mut Model,
    tally: &mut Tally,
    steps: &mut E,
) -> Result<(), ToolRefusal>
    requires ready { IsReadyAround model.old.metamodel spec.now tool place (one_more name.now) (trees_of inside.now) env.now }
    requires bounded { is_bounded model.old.metamodel item.now ≡ true }
    requires fits { place + count_all (trees_of inside.now) < 4294967295 }
    ensures done { Went (run E.outcome_by (perform spec.now tool (place + 1) (trees_of inside.now) (inside_with name.now item.now context env.now) context) (work model.old tally.old)) result model.new tally.new }
    ensures counted { E.count steps.new + tally.old.expressions ≡ E.count steps.old + tally.new.expressions }
    ensures same { model.new.metamodel ≡ model.old.metamodel }
{
    let nearer = inside_with(alloc, name, item, context, env)?;
    perform(
        alloc,
        spec,
        tool,
        place + 1,
        inside,
        &nearer,
        context,
        model,
        tally,
        steps,
    )
}

// Does those inside where the condition holds.
#[cycle(perform)]
fn run_if<E: Evaluator>(
    alloc: Global,
    spec: &CheckedViewpoint,
    tool: u32,
    place: u32,
    inside: &[Operation],
    env: &Env,
    context: ObjectId,
    model: &mut Model,
    tally: &mut Tally,
    steps: &mut E,
) -> Result<(), ToolRefusal>
    requires ready { IsReadyAround model.old.metamodel spec.now tool place same_scope (trees_of inside.now) env.now }
    requires fits { place + count_all (trees_of inside.now) < 4294967295 }
    ensures done { Went (run E.outcome_by (if_true spec.now tool place (perform spec.now tool (place + 1) (trees_of inside.now)) env.now context) (work model.old tally.old)) result model.new tally.new }
    ensures counted { E.count steps.new + tally.old.expressions ≡ E.count steps.old + tally.new.expressions }
    ensures same { model.new.metamodel ≡ model.old.metamodel }
{
    if condition_at(alloc, spec, tool, place, env, model, tally, steps)? {
        perform(
            alloc,
            spec,
            tool,
            place + 1,
            inside,
            env,
            context,
            model,
            tally,
            steps,
        )
    } else {
        Ok(())
    }
}
