//! Entries of the history (this project's own).

ghost use Rattle.std.specs.Prelude.{◌≡◌, []};

use crate::lock::{EntryKind, Range};
use crate::place::FilePlace;
use std::marker::Model;

/// The bytes of an entry.
#[derive(Drop)]
pub struct EntryBytes {
    bytes: Vec<u8>,
}

impl Model for EntryBytes {
    ghost use Rattle.std.specs.Prelude.{ℕ, List};

    ghost Value = { List ℕ };

    ghost view = { λ it. it.bytes.items };
}

impl EntryBytes {
    /// An entry's bytes from a vector.
    pub fn new(bytes: Vec<u8>) -> EntryBytes
        ensures { result ≡ bytes.items }
    {
        EntryBytes { bytes }
    }

    /// The bytes as a slice.
    pub fn bytes(&self) -> &[u8]
        ensures { result.now ≡ self.now }
    {
        self.bytes.as_slice()
    }
}

/// An entry of the history: a lock that a process was granted or gave up on a system path, or a
/// write, with the bytes read or written.
#[derive(Drop)]
pub struct Entry {
    pub kind: EntryKind,
    pub process: u8,
    pub path: u8,
    pub file: FilePlace,
    pub range: Range,
    pub bytes: EntryBytes,
}
