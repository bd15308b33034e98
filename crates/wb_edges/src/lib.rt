//! The edges that a viewpoint declares between declared elements, over the answers of their units.
#![tactic(auto)]

mod declaring;
mod drawing;
mod ends;
mod found;
mod grounds;
mod puts;
mod semantic;

pub use declaring::declare_edges;
