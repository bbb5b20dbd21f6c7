ghost use Rattle.std.specs.Prelude.{◌≡◌, ◌+◌, ◌-◌, ◌<◌, ◌≤◌, ◌↔◌, IsTrue, [], ◌∷◌, ◌++◌, Some, length, slice_get, take};
ghost use Rattle.io_model.specs.Edit.{no_line, cleared, with_bytes};

use arrayvec::ArrayVec;
use io_model::keys::RETURN;
use std::marker::Model;

/// The maximum length of a line in bytes, with its carriage return.
pub const MAX_LINE: usize = 256;

/// The line of a terminal's read, and the last finished line (Level Two manual, SCF). It takes no
/// memory.
#[derive(Drop)]
pub struct Line {
    bytes: ArrayVec<u8, 256>,
    last: ArrayVec<u8, 256>,
}

impl Model for Line {
    ghost use Rattle.std.specs.Prelude.{◌≤◌, length};
    ghost use Rattle.io_model.specs.Edit.{Editing};

    ghost Value = { Editing };

    ghost view = { λ l. record { bytes = l.bytes.items; last = l.last.items } };

    ghost invariant = { λ l. (length l.bytes.items ≤ 256) × (length l.last.items ≤ 255) };
}

impl Line {
    /// An empty line, with no line before it.
    pub fn new() -> Line
        ensures { result ≡ no_line }
    {
        Line {
            bytes: ArrayVec::new(),
            last: ArrayVec::new(),
        }
    }

    /// The number of bytes in the line, at most 256.
    pub fn len(&self) -> u16
        ensures len { result ≡ length self.now.bytes }
        ensures within { result ≤ 256 }
    {
        self.bytes.len() as u16
    }

    /// The byte of the line at this place; the first one is at 0.
    pub fn byte(&self, i: u16) -> u8
        requires { i < length self.now.bytes }
        ensures { slice_get self.now.bytes i ≡ Some result }
    {
        self.bytes[usize::from(i)]
    }

    /// The bytes of the line.
    pub fn as_slice(&self) -> &[u8]
        ensures bytes { result.now ≡ self.now.bytes }
        ensures within { length result.now ≤ 256 }
    {
        self.bytes.as_slice()
    }

    /// Removes every byte. The last finished line stays.
    pub fn clear(&mut self)
        ensures { self.new ≡ cleared self.old }
    {
        self.bytes.clear();
    }

    // The last finished line.
    pub(crate) fn last(&self) -> &[u8]
        ensures bytes { result.now ≡ self.now.last }
        ensures within { length result.now ≤ 255 }
    {
        self.last.as_slice()
    }

    pub(crate) fn push(&mut self, byte: u8)
        requires { length self.old.bytes < 256 }
        ensures { self.new ≡ with_bytes self.old (self.old.bytes ++ byte ∷ []) }
    {
        self.bytes.push(byte);
    }

    // Removes the last byte, if there is one.
    pub(crate) fn pop(&mut self)
        ensures { self.new ≡ with_bytes self.old (take (length self.old.bytes - 1) self.old.bytes) }
    {
        let _ = self.bytes.pop();
    }

    // Begins again with the first bytes of the last finished line, at most `most`.
    pub(crate) fn recall(&mut self, most: u16)
        ensures { self.new ≡ with_bytes self.old (take most self.old.last) }
    {
        self.bytes = copy_of(self.last.as_slice());
        self.bytes.truncate(usize::from(most));
    }

    // Makes these bytes the last finished line, and ends the line with a carriage return.
    pub(crate) fn finish(&mut self)
        requires { length self.old.bytes < 256 }
        ensures bytes { self.new.bytes ≡ self.old.bytes ++ 13 ∷ [] }
        ensures last { self.new.last ≡ self.old.bytes }
    {
        self.last = copy_of(self.bytes.as_slice());
        self.bytes.push(RETURN);
    }
}

// These bytes.
fn copy_of(bytes: &[u8]) -> ArrayVec<u8, 256>
    requires { length bytes.now ≤ 256 }
    ensures { result.items ≡ bytes.now }
{
    let mut copy = ArrayVec::new();
    let fits = copy.try_extend_from_slice(bytes).is_ok();
    prove!(fits);
    copy
}
