//! The services of expressions that take no lambda: what each gives, and the cells that it reads.
#![tactic(auto)]

mod arguments;
mod by_dot;
mod climb_laws;
mod collections;
mod downwards;
mod sequences;
mod serving;
mod sidewards;
mod texts;
mod types;
mod upwards;

pub use arguments::Argument;
pub use climb_laws::climbs_are_never_cut_short;
pub use serving::{run_service, serve};
pub use wb_aql_check::Service;
pub use wb_aql_values::{Answer, Fault, Halt, Reads, Value};
