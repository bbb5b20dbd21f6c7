//! Locks and requests (Level Two manual, RBF record locking; the exact ranges are this project's
//! own).

use crate::place::FilePlace;
use os9_base::registers::Pid;

/// A range of bytes of a file: from `start` to before `end`, or all from `start` on if there is no
/// end.
#[derive(Clone, Copy, Debug, PartialEq, Eq)]
pub struct Range {
    pub start: u32,
    pub end: Option<u32>,
}

/// A lock on a range of a file, held or requested: its owner is the process that holds or requests
/// it.
#[derive(Clone, Copy, Debug, PartialEq, Eq)]
pub struct Held {
    pub owner: Pid,
    pub file: FilePlace,
    pub range: Range,
}

/// A request for a lock, with its call: the call's code, its system path, and the count of its
/// bytes.
#[derive(Clone, Copy, Debug, PartialEq, Eq)]
pub struct Request {
    pub code: u8,
    pub path: u8,
    pub count: u16,
    pub lock: Held,
    /// The maximum number of ticks that the call waits; 0 for no limit, 1 for no wait (SS.Ticks).
    pub ticks: u16,
    /// The tick of the call's first attempt.
    pub since: u32,
}

/// The answer to a request.
#[derive(Clone, Copy, Debug, PartialEq, Eq)]
pub enum Grant {
    /// No lock of another process conflicts.
    Granted,
    /// A lock of another process conflicts, and the call does not wait any longer: error 252.
    Locked,
    /// A lock of another process conflicts, and its owner waits for the requesting process,
    /// directly or through others: error 254.
    Deadlock,
    /// The call waits.
    Wait,
}

/// What an entry of the history records.
#[derive(Clone, Copy, Debug, PartialEq, Eq)]
pub enum EntryKind {
    /// A lock was granted to a path, possibly with a read.
    Get,
    /// A range was written, or the size was changed.
    Put,
    /// A lock ended without a Get or a Put of its path.
    Drop,
}

/// The length of a list by system path, with place 0 unused.
pub const PATH_PLACES: usize = 65;

/// The length of a list by process, with places 0 and 1 unused.
pub const LOCK_PROCESSES: usize = 33;
