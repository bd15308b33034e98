//! The types that every crate of Workbench speaks of: lists and texts that contracts see as plain data.
#![tactic(auto)]

mod duplicate;
mod lists;
mod names;
mod texts;

pub use duplicate::Duplicate;
pub use lists::List;
pub use names::is_name;
pub use texts::{Text, is_text};
