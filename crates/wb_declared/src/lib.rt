//! What is declared of a subject: what it does not look at, and whether one more mark would declare an element.
#![tactic(auto)]

mod laws;
mod mappings;
mod standing;

pub use laws::{
    next_numbers_are_not_seen, undeclared_marks_are_not_seen, unsynchronised_elements_are_marked,
};
pub use standing::would_be_declared;
