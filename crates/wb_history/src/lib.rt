//! Undo and redo: what stood before each step, and what was undone.
#![tactic(auto)]

mod history;

pub use history::History;
