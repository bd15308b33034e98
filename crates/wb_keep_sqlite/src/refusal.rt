//! Why a call on the database comes to nothing.
use sqlite::{Error, ErrorCode};
use std::alloc::AllocError;

/// Want of memory, or any other refusal of the database.
#[derive(Clone, Copy, Debug, PartialEq, Eq)]
pub enum Refusal {
    NoMemory,
    Failed,
}

impl From<Error> for Refusal {
    fn from(error: Error) -> Refusal {
        match error {
            Error::SqliteFailure(ErrorCode::OutOfMemory) => Refusal::NoMemory,
            _ => Refusal::Failed,
        }
    }
}

impl From<AllocError> for Refusal {
    fn from(_error: AllocError) -> Refusal {
        Refusal::NoMemory
    }
}
