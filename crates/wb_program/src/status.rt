/// How a run ends. The number is the program's exit status.
#[derive(Clone, Copy)]
pub enum Status {
    /// All that was asked for is written.
    Done = 0,
    /// The viewpoint has problems.
    Problems = 1,
    /// The words are of no form.
    BadWords = 2,
    /// A file could not be read.
    ShelfFault = 3,
    /// A file is not of its form.
    BadInput = 4,
    /// A file, or the diagram, passes a limit.
    TooLarge = 5,
    /// The output could not be written.
    SinkFault = 6,
    /// The keeper failed while the session was opened.
    KeeperFault = 7,
    /// The kept rows are those of no state.
    BadStore = 8,
    /// The door failed.
    DoorFault = 9,
    /// As many connections as were asked for are served.
    TurnsSpent = 10,
    /// Memory ran out.
    NoMemory = 11,
    /// The words or a file ask for more than is built.
    NotBuilt = 12,
}
