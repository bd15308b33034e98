ghost use Rattle.std.specs.Prelude.{◌≡◌, IfOk};
ghost use Rattle.wb_session.specs.Answering.{Gives};
ghost use Rattle.wb_session.specs.States.{model_of};
ghost use Rattle.wb_session.specs.Tries.{asked_edit, edited, marked};
ghost use Rattle.wb_session.specs.invariants.Keeping.{GoesOn, tried_of};
ghost use Rattle.wb_metamodel.specs.WellFormed.{WellFormed};
ghost use Rattle.wb_model.specs.GivenEdits.{EditIsKnown};
ghost use Rattle.wb_session.specs.Answering.{of_edit};
ghost use Rattle.wb_session.specs.declared.turn.Turn.TheVariants.{Forward as Onward};

use crate::entries::TriedState;
use crate::refusal::Refusal;
use crate::session::Session;
use crate::turn::Turn;
use std::alloc::Global;
use wb_aql_eval::Evaluator;
use wb_base::Duplicate;
use wb_command_edits::{EditedModel, edit_named, edited};
use wb_diagram::Action;
use wb_marks::Marks;
use wb_model::{Edit, Model, ModelRefusal};

impl<E: Evaluator> Session<E> {
    /// The edit that an action asks for, on a copy.
    #[tactic(auto, unfolding(crate::specs::Tries::asked_edit))]
    pub(crate) fn try_edit(&self, alloc: Global, action: &Action) -> Result<TriedState, Refusal>
        ensures given { Gives tried_of (asked_edit self.now action.now) result }
        ensures goes_on { IfOk result (GoesOn self.now) }
    {
        match edit_named(alloc, &self.model, action)? {
            Some(edit) => self.edited(alloc, edit),
            None => self.unedited(alloc),
        }
    }

    /// The model after an edit, with the marks as they are.
    fn edited(&self, alloc: Global, edit: Edit) -> Result<TriedState, Refusal>
        requires { EditIsKnown self.now.body.model.metamodel edit }
        ensures given { Gives tried_of (edited self.now edit) result }
        ensures goes_on { IfOk result (GoesOn self.now) }
    {
        metamodel_is_sound(&self.model);
        let marks = self.marks.copy(alloc)?;
        match edited(alloc, &self.model, edit) {
            Ok(made) => Ok(forward(made, marks)),
            Err(refusal) => Err(edit_refusal(refusal)),
        }
    }

    /// The model and the marks as they are.
    fn unedited(&self, alloc: Global) -> Result<TriedState, Refusal>
        ensures given { Gives tried_of (marked self.now self.now.body.marks) result }
        ensures goes_on { IfOk result (GoesOn self.now) }
    {
        let marks = self.marks.copy(alloc)?;
        self.remarked(alloc, marks)
    }
}

/// The metamodel of a model is well formed.
pub(crate) fn metamodel_is_sound(model: &Model)
    ensures { WellFormed model.now.metamodel }
{
    model.metamodel().well_formed();
}

// An edited model under these marks, a step further.
fn forward(made: EditedModel, marks: Marks) -> TriedState
    ensures { result ≡ record { model = made.model; marks = marks; created = made.made; turn = Onward } }
{
    TriedState {
        model: made.model,
        marks,
        created: made.made,
        turn: Turn::Forward,
    }
}

// The refusal of an edit, as that of a command.
fn edit_refusal(refusal: ModelRefusal) -> Refusal
    ensures { result ≡ of_edit refusal }
{
    match refusal {
        ModelRefusal::NoMemory => Refusal::NoMemory,
        _ => Refusal::Edit(refusal),
    }
}
