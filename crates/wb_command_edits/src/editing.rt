ghost use Rattle.std.specs.Prelude.{◌≡◌, ◌≤◌, Ok, IfOk, IfErr};
ghost use Rattle.wb_base.specs.Answering.{IsRefusal};
ghost use Rattle.wb_model.specs.Edits.{named};
ghost use Rattle.wb_model.specs.GivenEdits.{edit_of, EditIsKnown, number_made};

use std::alloc::Global;
use wb_base::Duplicate;
use wb_metamodel::ObjectId;
use wb_model::{ChangeList, Edit, Model, ModelRefusal, given_edits_are_edits};

/// What an edit makes of a copy of a model.
#[derive(Drop)]
pub struct EditedModel {
    pub model: Model,
    /// The object that the edit makes, if it makes one.
    pub made: Option<ObjectId>,
}

/// The edit, made on a copy: the model itself stays, refused or not.
pub fn edited(alloc: Global, model: &Model, edit: Edit) -> Result<EditedModel, ModelRefusal>
    requires { EditIsKnown model.now.metamodel edit }
    ensures model { IfOk result (λ it. edit_of edit model.now ≡ Ok it.model) }
    ensures made { IfOk result (λ it. it.made ≡ number_made edit model.now) }
    ensures refused { IfErr result (λ e. IsRefusal (named e) (edit_of edit model.now)) }
    ensures metamodel { IfOk result (λ it. it.model.metamodel ≡ model.now.metamodel) }
    ensures next { IfOk result (λ it. model.now.next ≤ it.model.next) }
{
    given_edits_are_edits();
    let copy = model.copy(alloc)?;
    edited_copy(alloc, copy, edit)
}

// The edit, made on this model.
fn edited_copy(alloc: Global, model: Model, edit: Edit) -> Result<EditedModel, ModelRefusal>
    requires { EditIsKnown model.metamodel edit }
    ensures model { IfOk result (λ it. edit_of edit model ≡ Ok it.model) }
    ensures made { IfOk result (λ it. it.made ≡ number_made edit model) }
    ensures refused { IfErr result (λ e. IsRefusal (named e) (edit_of edit model)) }
{
    let mut changed = model;
    match changed.edit(alloc, edit, &mut ChangeList::new()) {
        Ok(made) => Ok(EditedModel {
            model: changed,
            made,
        }),
        Err(refusal) => Err(refusal),
    }
}
