//! The outside of the workbench: files, peers, kept rows and output, each behind a trait whose contract
//! says what a call may answer and what it leaves. Forms in memory and adapters implement the traits.
#![tactic(auto)]

mod bytes;
mod door;
mod faults;
mod file_shelf;
mod files;
mod keeper;
mod log;
mod memory_shelf;
mod memory_sink;
mod output;
mod shelf;
mod sink;
mod stdout_sink;
mod steps;
mod sure_door;
mod sure_keeper;
mod sure_shelf;
mod sure_sink;
mod visits;

pub use bytes::Bytes;
pub use door::{Door, Got, Next};
pub use file_shelf::{FileShelf, read_file};
pub use files::{Files, FilesTold, Part, SystemFiles, read_part};
pub use keeper::{Committed, Keeper, Loaded, Row, RowChange};
pub use log::Log;
pub use memory_shelf::MemoryShelf;
pub use memory_sink::MemorySink;
pub use output::{Output, OutputTold, Put, SystemOutput, put_part};
pub use shelf::{Call, Shelf, Taken};
pub use sink::{Sink, Wrote};
pub use stdout_sink::{StdoutSink, write_whole};
pub use steps::Steps;
pub use sure_door::SureDoor;
pub use sure_keeper::SureKeeper;
pub use sure_shelf::SureShelf;
pub use sure_sink::SureSink;
