ghost use Rattle.std.specs.Prelude.{◌≡◌, ◌≤◌, IfOk};
ghost use Rattle.wb_diagram.specs.declared.commands.Action.TheVariants as a;
ghost use Rattle.wb_store.specs.Contents.{with_next};
ghost use Rattle.wb_session.specs.Answering.{Gives};
ghost use Rattle.wb_session.specs.Tries.{restored, tried};
ghost use Rattle.wb_session.specs.invariants.Keeping.{GoesOn, tried_of};
ghost use Rattle.std.specs.Prelude.{None};

use crate::entries::{Entry, TriedState};
use crate::refusal::Refusal;
use crate::session::Session;
use crate::turn::Turn;
use std::alloc::{AllocError, Global};
use wb_aql_eval::Evaluator;
use wb_base::Duplicate;

impl<E: Evaluator> Session<E> {
    /// The newest of the past.
    #[tactic(auto, unfolding(crate::specs::Tries::tried))]
    pub(crate) fn try_undo(&self, alloc: Global) -> Result<TriedState, Refusal>
        ensures given { Gives tried_of (tried E.outcome_by self.now a.Undo) result }
        ensures goes_on { IfOk result (GoesOn self.now) }
    {
        match self.history.newest_past() {
            Some(entry) => Ok(restored(alloc, entry, self.model.next(), Turn::Back)?),
            None => Err(Refusal::NothingToUndo),
        }
    }

    /// The newest of the future.
    #[tactic(auto, unfolding(crate::specs::Tries::tried))]
    pub(crate) fn try_redo(&self, alloc: Global) -> Result<TriedState, Refusal>
        ensures given { Gives tried_of (tried E.outcome_by self.now a.Redo) result }
        ensures goes_on { IfOk result (GoesOn self.now) }
    {
        match self.history.newest_future() {
            Some(entry) => Ok(restored(alloc, entry, self.model.next(), Turn::Again)?),
            None => Err(Refusal::NothingToRedo),
        }
    }
}

/// What an entry keeps, with the present number of the next object.
fn restored(alloc: Global, entry: &Entry, next: u32, turn: Turn) -> Result<TriedState, AllocError>
    requires { entry.now.model.next ≤ next }
    ensures { IfOk result (λ tried. tried ≡ record { model = with_next next entry.now.model; marks = entry.now.marks; created = None; turn = turn }) }
{
    let mut model = entry.model.copy(alloc)?;
    model.raise_next(next);
    let marks = entry.marks.copy(alloc)?;
    Ok(TriedState {
        model,
        marks,
        created: None,
        turn,
    })
}
