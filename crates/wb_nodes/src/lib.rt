//! The elements that a viewpoint declares: nodes, containers, lists and borders, over the answers of their units.
#![tactic(auto)]

mod candidates;
mod children;
mod declaring;
mod grounds;
mod marks;

pub use declaring::declare_nodes;
