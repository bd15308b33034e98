//! The edits that commands ask for by names, and what they make of a model.
#![tactic(auto)]

mod editing;
mod names;
mod naming;
mod refusal;
mod values;

pub use editing::{EditedModel, edited};
pub use naming::edit_named;
pub use refusal::NameRefusal;
