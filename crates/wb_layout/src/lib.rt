//! Where the elements of a diagram stand: positions that were given by hand or by the grid, by the keys of the elements.
#![tactic(auto)]

mod arranging;
mod grid;
mod growing;
mod laws;
mod layout;
mod layout_log;
mod restricting;
mod search;
mod siblings;

pub use grid::is_in_range;
pub use laws::{each_is_laid_once, only_the_declared_stay};
pub use layout::Layout;
pub use layout_log::LayoutLog;
