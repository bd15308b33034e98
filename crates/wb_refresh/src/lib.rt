//! The diagram of a model, declared from scratch: every unit is evaluated once, and its outcome kept.
#![tactic(auto)]

mod declared;
mod declaring;
mod evaluating;
mod faults;
mod index;
mod opening;
mod refresh;
mod table;

pub use faults::fault_name;
pub use refresh::Refresh;
