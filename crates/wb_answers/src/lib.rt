//! Answers of the units of a diagram: where they come from, what they mean to a declaration, and the variables that a unit is evaluated with.
#![tactic(auto)]

mod answers;
mod environments;
mod expressions;
mod meanings;
mod rows;

pub use answers::{Answers, Stop};
pub use environments::environment;
pub use expressions::unit_expressions_are_checked;
pub use meanings::{is_true, objects_of};
pub use rows::Row;
