//! What the arguments of a tool say: the tool by its name, the variables of its kind with their values, and the first context.
#![tactic(auto)]

mod asking;
mod binding;
mod finding;
mod ground;
mod kinds;
mod presence;
mod refusal;

pub use asking::{AskedTool, asked_tool};
pub use ground::Ground;
pub use refusal::ArgumentRefusal;
