//! The picture that is served of what a viewpoint declares, and its JSON text.
#![tactic(auto)]

mod copies;
mod drawing;
mod keys;
mod names;
mod opening;
mod pictures;
mod serving;
mod switched;
mod views;

pub use names::mapping_names;
pub use opening::opening_layers;
pub use pictures::picture;
pub use serving::served;
pub use views::{Declared, View};
