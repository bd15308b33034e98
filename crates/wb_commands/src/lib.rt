//! Commands as they are sent: what the bytes of a body are as a command.
#![tactic(auto)]

mod arguments;
mod body;
mod command_kinds;
mod commands;
mod edits;
mod given;
mod members;
mod refusal;
mod revisions;
mod shown;
mod slots;
mod spelled;
mod tools;

pub use body::read_command;
pub use refusal::BodyRefusal;
pub use spelled::what_is_spelled;
