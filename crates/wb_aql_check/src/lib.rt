//! The name check of expressions: each name that an expression uses is known, and each service is given what it takes.
#![tactic(auto)]

mod arguments;
mod checked;
mod checking;
mod known;
mod laws;
mod refusal;
mod scope;
mod services;
mod single_names;
mod walk;

pub use checked::{Checked, Origin};
pub use checking::check;
pub use laws::{
    known_in_a_larger_scope, known_names_are_not_wrong, printed_expressions_are_checked_alike,
};
pub use refusal::CheckRefusal;
pub use services::{Callee, Iteration, Parameters, Service, service_named};
