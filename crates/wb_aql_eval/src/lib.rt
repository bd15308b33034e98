//! Evaluation: the value of an expression over a model, and exactly the cells of the model that are read for it.
#![tactic(auto)]

mod arithmetic;
mod calls;
mod env;
mod evaluation;
mod evaluator;
mod features;
mod laws;
mod literals;
mod members;
mod nodes;
mod operators;
mod scope;

pub use env::{Env, Outcome};
pub use evaluation::eval;
pub use evaluator::Evaluator;
pub use laws::{reads_are_without_repeats, reads_decide};
