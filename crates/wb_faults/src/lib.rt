//! Counts of faults, for the objects of the outside that stand above `wb_outer`: the next value of a count, and which
//! calls of an object in memory fail. Contracts see both by the definitions of `wb_outer`.
#![tactic(auto)]

mod counts;
mod plan;

pub use counts::raise;
pub use plan::FaultPlan;
