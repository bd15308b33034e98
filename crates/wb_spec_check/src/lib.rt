//! The check of a viewpoint over a metamodel: what its names name, its expressions, or all its problems.
#![tactic(auto)]

mod checked_filters;
mod checked_looks;
mod checked_mappings;
mod checked_tools;
mod checked_viewpoint;
mod checking;
mod child_lists;
mod edges;
mod filters;
mod groups;
mod layers;
mod looks;
mod mappings;
mod names;
mod nodes;
mod operations;
mod own_names;
mod parts;
mod path;
mod problem;
mod reports;
mod roles;
mod scope_texts;
mod scopes;
mod spots;
mod tool_expressions;
mod tools;
mod units;

pub use checked_filters::CheckedFilter;
pub use checked_looks::{CheckedLooks, CheckedStyle};
pub use checked_mappings::{
    CheckedEdge, CheckedForm, CheckedMapping, CheckedNode, CheckedObjects, CheckedSource,
};
pub use checked_tools::{CheckedOperation, CheckedTool};
pub use checked_viewpoint::CheckedViewpoint;
pub use checking::{Checking, check_viewpoint};
pub use parts::Parts;
pub use problem::Problem;
pub use wb_expressions::{Checked, ExprRefusal, Origin, ProblemCode, read_expression};
