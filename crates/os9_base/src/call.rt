use std::alloc::AllocError;
use thiserror::Error;

/// Out of memory, for calls that can fail in no other way.
#[derive(Clone, Copy, Debug, PartialEq, Eq, Error)]
#[error("no memory")]
pub struct OutOfMemory;

impl From<AllocError> for OutOfMemory {
    fn from(_error: AllocError) -> OutOfMemory {
        OutOfMemory
    }
}

/// How an attempt of a system call ended.
#[derive(Clone, Copy, Debug, PartialEq, Eq)]
pub enum CallEnd {
    /// The call is done: carry is clear.
    Done,
    /// The call is refused with this number: carry is set and B is the number.
    Error(u8),
    /// The call waits, and is attempted again when its process is next chosen.
    Wait,
    /// The process has ended.
    Ended,
    /// Out of memory, and the run ends.
    NoMemory,
}
