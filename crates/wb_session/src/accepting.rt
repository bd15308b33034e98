ghost use Rattle.std.specs.Prelude.{◌≡◌};
ghost use Rattle.wb_session.specs.Planning.{Follows, state_after};
ghost use Rattle.wb_session.specs.invariants.Keeping.{IsPossible, turned};

use crate::accepted::Accepted;
use crate::entries::Entry;
use crate::planning::Planned;
use crate::session::Session;
use crate::turn::Turn;
use std::mem::replace;
use wb_aql_eval::Evaluator;
use wb_history::History;

/// The history goes on with what stood before.
fn go_on(history: &mut History<Entry>, entry: Entry, turn: Turn)
    requires { IsPossible turn history.old }
    ensures { history.new ≡ turned turn entry history.old }
{
    history.keeps_within_capacity();
    match turn {
        Turn::Forward => history.push(entry),
        Turn::Back => {
            history.undo_entry();
            history.push_future(entry);
        }
        Turn::Again => {
            history.redo_entry();
            history.push_past(entry);
        }
    }
}

impl<E: Evaluator> Session<E> {
    /// What was planned is the session's state. Nothing can fail here.
    pub fn accept(&mut self, planned: Planned<E>) -> Accepted
        requires { Follows E.outcome_by self.old planned.model planned.marks planned.turn planned.diagram }
        ensures state { self.new ≡ state_after self.old planned.model planned.marks planned.turn }
        ensures revision { result.revision ≡ self.new.revision }
        ensures created { result.created ≡ planned.created }
    {
        let Planned {
            model,
            marks,
            created,
            turn,
            diagram,
        } = planned;
        let entry = Entry {
            model: replace(&mut self.model, model),
            marks: replace(&mut self.marks, marks),
        };
        go_on(&mut self.history, entry, turn);
        self.diagram = diagram;
        self.revision += 1;
        Accepted {
            revision: self.revision,
            created,
        }
    }
}
