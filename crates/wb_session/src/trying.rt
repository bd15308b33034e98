ghost use Rattle.std.specs.Prelude.{◌≡◌, IfOk};
ghost use Rattle.wb_session.specs.Answering.{Gives};
ghost use Rattle.wb_session.specs.Steps.{current};
ghost use Rattle.wb_session.specs.Tries.{tried};
ghost use Rattle.wb_session.specs.invariants.Keeping.{GoesOn, tried_of};

use crate::entries::TriedState;
use crate::refusal::Refusal;
use crate::session::Session;
use crate::turn::Turn;
use std::alloc::Global;
use wb_aql_eval::Evaluator;
use wb_base::Duplicate;
use wb_diagram::Action;

const LAST_REVISION: u64 = 9007199254740991;

impl<E: Evaluator> Session<E> {
    /// The refusals before anything is tried.
    #[tactic(auto, unfolding(crate::specs::Steps::current))]
    pub(crate) fn current(&self, revision: u64) -> Result<(), Refusal>
        ensures { result ≡ current self.now revision }
    {
        if revision != self.revision {
            return Err(Refusal::Stale);
        }
        if self.revision >= LAST_REVISION {
            return Err(Refusal::RevisionsSpent);
        }
        Ok(())
    }

    /// The state that an action tries. The session stays.
    #[tactic(auto, unfolding(crate::specs::Tries::tried))]
    pub(crate) fn tried(
        &self,
        alloc: Global,
        action: &Action,
        steps: &mut E,
    ) -> Result<TriedState, Refusal>
        ensures given { Gives tried_of (tried E.outcome_by self.now action.now) result }
        ensures goes_on { IfOk result (GoesOn self.now) }
    {
        match action {
            Action::Create { .. } => self.try_edit(alloc, action),
            Action::Set { .. } => self.try_edit(alloc, action),
            Action::Add { .. } => self.try_edit(alloc, action),
            Action::Take { .. } => self.try_edit(alloc, action),
            Action::Unset { .. } => self.try_edit(alloc, action),
            Action::MoveTo { .. } => self.try_edit(alloc, action),
            Action::Remove { .. } => self.try_edit(alloc, action),
            Action::Tool { tool, arguments } => {
                self.try_tool(alloc, tool.as_str(), arguments, steps)
            }
            Action::Move { key, x, y } => self.try_move(alloc, key, *x, *y),
            Action::Arrange => self.try_arrange(alloc),
            Action::Undo => self.try_undo(alloc),
            Action::Redo => self.try_redo(alloc),
            Action::Show {
                parent,
                mapping,
                object,
            } => self.try_show(alloc, parent, mapping, *object),
            Action::Unshow { key } => self.try_unshow(alloc, key),
            Action::Hide { key } => self.try_hide(alloc, key),
            Action::Reveal { key } => self.try_reveal(alloc, key),
            Action::Layer { layer, active } => self.try_layer(alloc, layer.as_str(), *active),
            Action::Filter { filter, active } => {
                self.try_filter(alloc, filter.as_str(), *active)
            }
        }
    }
}
