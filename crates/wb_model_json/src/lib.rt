//! Model files: models over a metamodel, as JSON.
#![tactic(auto)]

mod checked;
mod features;
mod laws;
mod model_text;
mod parts;
mod ranges;
mod reading;
mod refusal;
mod repeats;
mod row_reading;
mod row_text;
mod row_writing;
mod rows;
mod values;
mod writing;

pub use laws::{
    rows_are_told_apart_by_their_texts, texts_of_models_are_read_again,
    texts_of_objects_are_those_of_their_rows, written_models_are_read_again,
    written_objects_are_read_again,
};
pub use reading::read_model;
pub use refusal::{ModelCode, ModelFileRefusal};
pub use row_reading::read_object;
pub use rows::{ObjectRow, RowSlot};
pub use wb_json::FileRefusal;
pub use writing::{write_model, write_object};
