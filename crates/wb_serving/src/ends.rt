//! How serving ends.

/// How a connection ended.
#[derive(Clone, Copy, Debug, PartialEq, Eq)]
pub enum End {
    /// Its input ended, in less than a request.
    Input,
    /// A request stopped the program.
    Stop,
    /// The last request that a connection may make was answered.
    Spent,
    /// The last reply closed it.
    Close,
    /// A call of the door failed.
    Fault,
}

/// How serving ended.
#[derive(Clone, Copy, Debug, PartialEq, Eq)]
pub enum Ended {
    /// No connection was to come.
    Closed,
    /// A request stopped the program.
    Stopped,
    /// The door failed to give the next connection.
    Fault,
    /// As many connections as were asked for were served.
    Spent,
}
