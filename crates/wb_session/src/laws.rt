ghost use Rattle.std.specs.Prelude.{◌≡◌, Ok};
ghost use Rattle.wb_diagram.specs.declared.commands.Command.{Command};
ghost use Rattle.wb_session.specs.Laws.{IsForward, redo, undo};
ghost use Rattle.wb_session.specs.States.{IsGood, State};
ghost use Rattle.wb_session.specs.Steps.{Stepped, step};

use wb_aql_eval::Evaluator;

/// A law: an undo after an accepted command, that is neither undo nor redo, gives the body before both.
pub fn undo_restores<E: Evaluator>()
    ensures { (s : State) (command : Command) (t u : Stepped) → IsGood E.outcome_by s → IsForward command.action
        → step E.outcome_by s command ≡ Ok t → step E.outcome_by t.state (undo t.state.revision) ≡ Ok u → u.state.body ≡ s.body }
{}

/// A law: a redo after that undo gives the body between them.
pub fn redo_restores<E: Evaluator>()
    ensures { (s : State) (command : Command) (t u v : Stepped) → IsGood E.outcome_by s → IsForward command.action
        → step E.outcome_by s command ≡ Ok t → step E.outcome_by t.state (undo t.state.revision) ≡ Ok u
        → step E.outcome_by u.state (redo u.state.revision) ≡ Ok v → v.state.body ≡ t.state.body }
{}
