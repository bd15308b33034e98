//! When objects make a valid model: ten conditions, and the first one that is broken.
#![tactic(auto)]

mod checks;
mod conditions;
mod flaws;
mod link_set;
mod rings;
mod uncontained;
mod validity;
mod walks;

pub use checks::check_all;
pub use conditions::{is_of_class, is_of_feature, room};
pub use flaws::Flaw;
pub use validity::{contents_are_in_range, trees_are_in_order, validity_is_decided};
pub use walks::tree;
