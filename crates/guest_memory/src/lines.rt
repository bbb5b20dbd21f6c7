//! Ranges and lines of a process's memory, block by block.

ghost use Rattle.std.specs.Prelude.{◌≡◌, ◌+◌, ◌<◌, ◌≤◌, ◌/◌, ◌↔◌, ℕ, Some, None, IsTrue, IsSome, IfSome, IfNone, length, take, position, ◌==◌};
ghost use Rattle.std.specs.Option.{option_map_or};
ghost use Rattle.os9_base.specs.Cells.{FitsIn};
ghost use Rattle.proc_model.specs.Slots.{block_at};
ghost use Rattle.os9_base.specs.UserLines.{line_at};
ghost use Rattle.os9_base.specs.UserNames.{user_cell};
ghost use Rattle.guest_memory.specs.Pieces.{IsPiece};
ghost use Rattle.guest_memory.specs.Tie.{cells_of};

use crate::memory::Memory;
use block_map::map::Map;
use os9_base::limits::BLOCK_BYTES;
use os9_base::registers::Pid;

/// The code of a carriage return, which ends a line.
const RETURN: u8 = 0x0D;

impl Memory {
    /// Do `len` bytes of a process from an address on lie in named slots, up to `FFFF`?
    pub fn is_named(&self, p: Pid, at: u16, len: u16) -> bool
        requires { p.0 < 33 }
        ensures { IsTrue result ↔ FitsIn (cells_of self.now p.0) at len }
    {
        len == 0
            || u32::from(at) + u32::from(len) <= 0x1_0000
                && are_slots_named(
                    &self.maps[p.0 as usize],
                    slot_of(at),
                    slot_of(at + (len - 1)),
                )
    }

    /// Reads the bytes of a process from an address on, up to and with the first carriage return,
    /// but at most `most`, into the front of a buffer. Returns the number of bytes, or None if one
    /// of them is in no named slot or past `FFFF`.
    pub fn read_line(&self, p: Pid, at: u16, most: u16, into: &mut [u8]) -> Option<usize>
        requires process { p.0 < 33 }
        requires room { most ≤ length into.old }
        ensures none { IfNone result (line_at (cells_of self.now p.0) at most ≡ None) }
        ensures some { IfSome result (λ count. line_at (cells_of self.now p.0) at most
            ≡ Some (take count into.new)) }
        ensures short { IfSome result (λ count. count ≤ most) }
        ensures room { length into.new ≡ length into.old }
    {
        let mut count = 0;
        'pieces: while count < most {
            let piece = self.piece(p, at, count, most - count)?;
            let found = return_place(piece);
            let len = line_len(found, piece.len());
            let start = count as usize;
            into[start..start + len].copy_from_slice(&piece[..len]);
            count += len as u16;
            if found.is_some() {
                return Some(count as usize);
            }
        }
        Some(most as usize)
    }

    /// The bytes of a process at an offset from an address that lie together there, at most `most`;
    /// None if the first of them is in no named slot or past `FFFF`.
    fn piece(&self, p: Pid, at: u16, offset: u16, most: u16) -> Option<&[u8]>
        requires process { p.0 < 33 }
        requires some { 0 < most }
        ensures none { IfNone result (user_cell (cells_of self.now p.0) (at + offset) ≡ None) }
        ensures some { IfSome result (λ bytes.
            IsPiece (cells_of self.now p.0) (at + offset) most bytes.now) }
    {
        let address = at.checked_add(offset)?;
        let id = self.maps[p.0 as usize].place(slot_of(address))?;
        let bytes = &self.pool.bytes(id)[(address % BLOCK_BYTES) as usize..];
        Some(&bytes[..bytes.len().min(most as usize)])
    }
}

/// The place of the first carriage return.
fn return_place(bytes: &[u8]) -> Option<usize>
    ensures place { result ≡ position (λ byte. byte == 13) bytes.now }
    ensures within { IfSome result (λ place. place < length bytes.now) }
{
    bytes.iter().position(|byte| *byte == RETURN)
}

/// The number of bytes up to and with the first carriage return, which is at `found`; `all` if
/// there is none.
fn line_len(found: Option<usize>, all: usize) -> usize
    requires { IfSome found (λ place. place < all) }
    ensures { result ≡ option_map_or (λ place. place + 1) found all }
{
    match found {
        Some(place) => place + 1,
        None => all,
    }
}

/// Does each slot from `first` to `last` name a block?
fn are_slots_named(map: &Map, first: u8, last: u8) -> bool
    requires { last < 8 }
    ensures { IsTrue result
        ↔ ((slot : ℕ) → first ≤ slot → slot ≤ last → IsSome (block_at map.now slot)) }
{
    for slot in first..=last {
        if map.place(slot).is_none() {
            return false;
        }
    }
    true
}

/// The slot of an address.
fn slot_of(at: u16) -> u8
    ensures { result ≡ at / 8192 }
{
    (at / BLOCK_BYTES) as u8
}
