//! The words that a program is started with, and how it ends.
#![tactic(auto)]

mod ending;
mod words;

pub use ending::finish;
pub use words::command_words;
