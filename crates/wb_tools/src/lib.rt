//! Tools: operations on a model that are accepted all together, or not at all.
#![tactic(auto)]

mod asking;
mod bindings;
mod counting;
mod editing;
mod feature_edits;
mod feature_sorts;
mod performing;
mod refusals;
mod setting;
mod tally;
mod tools;
mod unsetting;

pub use refusals::ToolRefusal;
pub use tools::run_tool;
