//! Rows and changes by their spelling, and what keepers answer, as lines. For programs of cases.
#![tactic(auto)]

mod rows;
mod shown;

pub use rows::{push_commit, push_load, push_rows, row};
pub use shown::{as_text, heading, line};
