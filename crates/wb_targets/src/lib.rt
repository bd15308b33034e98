//! What commands name in a viewpoint: layers, filters and mappings by their names, and what can be placed or shown by hand.
#![tactic(auto)]

mod marking;
mod naming;
mod placing;

pub use marking::{is_unsynchronised, mapping_of};
pub use naming::{additional_layer_named, filter_named, mapping_named};
pub use placing::{is_placeable, placeable};
