//! What is true of texts of models. These functions change nothing when they run.

ghost use Rattle.std.specs.Prelude.{◌≡◌, ℕ, List, Some, Ok};
ghost use Rattle.wb_metamodel.specs.Metamodel.{Metamodel as Definition};
ghost use Rattle.wb_metamodel.specs.WellFormed.{WellFormed};
ghost use Rattle.wb_store.specs.Contents.{Contents, kind};
ghost use Rattle.wb_validity.specs.Valid.{IsValid};
ghost use Rattle.wb_model_json.specs.ModelFile as file;
ghost use Rattle.wb_model_json.specs.Rows.{IsTextOf, row_of};
ghost use Rattle.wb_model_json.specs.declared.rows.ObjectRow.{ObjectRow};
ghost use Rattle.wb_model_json.specs.Written.{text_of, row_text};

use wb_metamodel::ObjectId;
use wb_model::Model;

/// The text of a model is read again as an equal model.
pub fn texts_of_models_are_read_again()
    ensures { (m : Contents) → WellFormed m.metamodel → IsValid m → file.model m.metamodel (text_of m) ≡ Ok m }
{}

/// What is written of a model is read again as an equal model.
pub fn written_models_are_read_again(model: &Model)
    ensures { file.model model.now.metamodel (text_of model.now) ≡ Ok model.now }
{
    model.valid();
    model.metamodel().well_formed();
    texts_of_models_are_read_again();
}

/// A text is written of one row at most.
pub fn rows_are_told_apart_by_their_texts()
    ensures { (mm : Definition) → WellFormed mm → (bytes : List ℕ) (r s : ObjectRow) → IsTextOf mm bytes r → IsTextOf mm bytes s → r ≡ s }
{}

/// What is written of an object is the text of its row, so this row is read of it.
pub fn texts_of_objects_are_those_of_their_rows()
    ensures { (m : Contents) → WellFormed m.metamodel → IsValid m → (o c : ℕ) → kind m o ≡ Some c → IsTextOf m.metamodel (row_text m o) (row_of m o c) }
{}

/// The same of an object of a model.
pub fn written_objects_are_read_again(model: &Model, o: ObjectId)
    ensures { (c : ℕ) → kind model.now o ≡ Some c → IsTextOf model.now.metamodel (row_text model.now o) (row_of model.now o c) }
{
    model.valid();
    model.metamodel().well_formed();
    texts_of_objects_are_those_of_their_rows();
}
