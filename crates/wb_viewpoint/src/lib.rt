//! Viewpoints: what a viewpoint's text says, and reading it.
#![tactic(auto)]

mod actions;
mod content;
mod diagrams;
mod edges;
mod expression_texts;
mod filters;
mod groups;
mod layers;
mod limits;
mod mapping_kinds;
mod mappings;
mod nodes;
mod objects;
mod operation_kinds;
mod operation_reader;
mod operations;
mod reading;
mod refusal;
mod styles;
mod tools;
mod viewpoint;

pub use content::Content;
pub use edges::{EdgeMapping, Ends, ObjectEdge};
pub use expression_texts::ExpressionText;
pub use filters::Filter;
pub use layers::{Layer, Layers};
pub use mappings::{Mapping, MappingForm};
pub use nodes::{NodeKind, NodeMapping};
pub use objects::Objects;
pub use operations::{Action, Operation, Operations};
pub use reading::read_viewpoint;
pub use refusal::ViewpointCode;
pub use styles::{ConditionalStyle, Looks, Style};
pub use tools::{Tool, ToolKind};
pub use viewpoint::Viewpoint;
