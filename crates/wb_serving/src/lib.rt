//! Serving: the connections of a door, one after another, and the requests of each, answered by one machine.
#![tactic(auto)]

mod answering;
mod connection;
mod ends;
mod laws;
mod machine;
mod replies;
mod serving;
mod turn;

pub use ends::{End, Ended};
pub use laws::{all_is_kept, all_is_written};
pub use machine::{Answer, Machine};
pub use serving::serve;
