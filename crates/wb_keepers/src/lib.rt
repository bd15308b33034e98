//! A keeper of rows in memory, whose calls fail where they are told to.
#![tactic(auto)]

mod changes;
mod memory_keeper;

pub use memory_keeper::MemoryKeeper;
