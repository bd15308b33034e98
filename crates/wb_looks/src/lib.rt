//! How the elements and edges of a diagram look, and which are visible, over the answers of their units.
#![tactic(auto)]

mod conditions;
mod expressions;
mod filters;
mod labels;
mod looks;
mod numbers;
mod styles;
mod switches;
mod visibility;

pub use expressions::look_units_have_expressions;
pub use filters::filtered;
pub use looks::look;
pub use switches::Switches;
pub use visibility::visible;
