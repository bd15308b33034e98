ghost use Rattle.std.specs.Prelude.{◌≡◌, IfOk};
ghost use Rattle.wb_declared.specs.Declarations.{declared_edges, declared_nodes};
ghost use Rattle.wb_marks.specs.Marks.{settled};
ghost use Rattle.wb_refresh.specs.Openings.{IsOpened};
ghost use Rattle.wb_spec_check.specs.Checked.{IsCheckedBy};
ghost use Rattle.wb_session.specs.Answering.{Gives};
ghost use Rattle.wb_session.specs.States.{subject_at};
ghost use Rattle.wb_session.specs.Steps.{stands};
ghost use Rattle.wb_session.specs.invariants.Keeping.{tried_of};

use crate::entries::TriedState;
use crate::refusal::Refusal;
use std::alloc::Global;
use wb_answers::Stop;
use wb_aql_eval::Evaluator;
use wb_marks::Marks;
use wb_metamodel::ObjectId;
use wb_refresh::Refresh;
use wb_spec_check::CheckedViewpoint;

/// The diagram of a state that was tried, and its marks on what is declared.
#[derive(Drop)]
pub(crate) struct Settled<E> {
    pub(crate) diagram: Refresh<E>,
    pub(crate) marks: Marks,
}

/// The diagram of a state that is tried, with the marks that stand on it; or why the state is refused.
pub(crate) fn standing<E: Evaluator>(
    alloc: Global,
    spec: &CheckedViewpoint,
    root: ObjectId,
    tried: &TriedState,
    steps: &mut E,
) -> Result<Settled<E>, Refusal>
    requires { IsCheckedBy tried.now.model.metamodel spec.now }
    ensures given { Gives (λ _. tt) (stands E.outcome_by spec.now root (tried_of tried.now)) result }
    ensures opened { IfOk result (λ it. IsOpened E.outcome_by (subject_at spec.now root tried.now.model.next (tried_of tried.now).body) it.diagram) }
    ensures settled { IfOk result (λ it. it.marks ≡ settled it.diagram.nodes it.diagram.edges tried.now.marks) }
{
    let diagram = opened(alloc, spec, root, tried, steps)?;
    let marks = tried
        .marks
        .settled(alloc, diagram.nodes(), diagram.edges())?;
    Ok(Settled { diagram, marks })
}

#[tactic(auto, unfolding(crate::specs::Steps::stands))]
fn opened<E: Evaluator>(
    alloc: Global,
    spec: &CheckedViewpoint,
    root: ObjectId,
    tried: &TriedState,
    steps: &mut E,
) -> Result<Refresh<E>, Refusal>
    requires { IsCheckedBy tried.now.model.metamodel spec.now }
    ensures given { Gives (λ _. tt) (stands E.outcome_by spec.now root (tried_of tried.now)) result }
    ensures opened { IfOk result (IsOpened E.outcome_by (subject_at spec.now root tried.now.model.next (tried_of tried.now).body)) }
{
    if tried.model.kind(root).is_none() {
        return Err(Refusal::RootRemoved);
    }
    match Refresh::open(
        alloc,
        spec,
        &tried.model,
        root,
        tried.marks.shown.as_slice(),
        steps,
    ) {
        Ok(diagram) => Ok(diagram),
        Err(Stop::TooLarge) => Err(Refusal::DiagramTooLarge),
        Err(Stop::NoMemory) => Err(Refusal::NoMemory),
    }
}
