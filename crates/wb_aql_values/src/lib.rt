//! Values of expressions: their faults, how they are put together, their text forms, and the cells that are read for them.
#![tactic(auto)]

mod faults;
mod gathered;
mod lifting;
mod looks;
mod reads;
mod text_forms;
mod values;

pub use faults::{Fault, Halt};
pub use gathered::Gathered;
pub use lifting::{OnScalars, lift};
pub use looks::look_at_class;
pub use reads::Reads;
pub use text_forms::{join_forms, push_form, push_scalar, text_form};
pub use values::{Answer, Sort, Value, are_same, collection, flag};
