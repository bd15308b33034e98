//! Doors: one in memory, whose calls fail where they are told to, and one over TCP.
#![tactic(auto)]

mod coming;
mod memory_door;
mod sockets;
mod system_sockets;
mod tcp_door;
mod visits;

pub use memory_door::MemoryDoor;
pub use sockets::{Came, Sockets, SocketsTold};
pub use system_sockets::SystemSockets;
pub use tcp_door::{TcpDoor, accept_one, read_some, write_whole};
pub use visits::Visits;
