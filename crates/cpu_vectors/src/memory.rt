ghost use Rattle.std.specs.Prelude.{◌≡◌, false, ◌↔◌, ◌+◌, ◌/◌, ◌%◌, ◌*◌, ◌≤◌, ◌++◌, IsTrue, bytes_eq, length, take, drop, vec_len};
ghost use Rattle.std.specs.Bool.{OnTrue, OnFalse};
ghost use Rattle.os9_base.specs.Cells.{FitsIn, HoldsBytes, store_cells};
ghost use Rattle.cpu_vectors.specs.Memory.{cells_of, is_in_named_slot};

use crate::vector::{Cell, Vector};
use cpu6809::Bus;
use std::alloc::{AllocError, Global};

const ADDRESSES: usize = 0x1_0000;

/// The number of addresses in a slot.
const SLOT_LEN: usize = 0x2000;

/// A byte at each address.
#[derive(Drop)]
struct Bytes {
    all: Vec<u8>,
    ghost whole: { vec_len all ≡ 65536 },
}

/// The bytes of all addresses, in eight slots of which some are named. Those from an address to
/// the end of its slot lie together.
#[derive(Drop)]
pub(crate) struct Memory {
    slots: u8,
    bytes: Bytes,
}

impl Bytes {
    /// Puts these bytes in place of those from `at` on.
    fn overwrite(&mut self, at: u16, from: &[u8])
        requires { at + length from.now ≤ 65536 }
        ensures { self.new.all.items ≡ take at self.old.all.items
            ++ (from.now ++ drop (at + length from.now) self.old.all.items) }
    {
        let start = at as usize;
        self.all[start..start + from.len()].copy_from_slice(from);
    }
}

impl Memory {
    /// The memory before the step.
    pub(crate) fn before(alloc: Global, vector: &Vector) -> Result<Memory, AllocError> {
        let mut bytes = vec![in alloc; 0u8; ADDRESSES]?;
        fill(&mut bytes, &vector.cells);
        Ok(Memory {
            slots: vector.slots,
            bytes: Bytes { all: bytes },
        })
    }

    /// The memory that the step is expected to leave.
    pub(crate) fn after(alloc: Global, vector: &Vector) -> Result<Memory, AllocError> {
        let mut memory = Memory::before(alloc, vector)?;
        fill(&mut memory.bytes.all, &vector.written);
        Ok(memory)
    }

    fn has_slot(&self, at: u16) -> bool
        ensures { result ≡ is_in_named_slot self.now.slots at }
    {
        self.slots >> (at >> 13) & 1 == 1
    }

    /// Are the bytes at all addresses the same?
    pub(crate) fn same_bytes(&self, other: &Memory) -> bool
        ensures { result ≡ bytes_eq self.now.bytes.all.items other.now.bytes.all.items }
    {
        self.bytes.all.as_slice() == other.bytes.all.as_slice()
    }
}

/// Puts the bytes of these cells at their addresses.
fn fill(bytes: &mut [u8], cells: &[Cell])
    requires { length bytes.old ≡ 65536 }
{
    for cell in cells {
        bytes[cell.at as usize] = cell.byte;
    }
}

/// The end of the slot of an address.
fn slot_end(at: u16) -> usize
    ensures { result ≡ at / 8192 * 8192 + 8192 }
{
    at as usize / SLOT_LEN * SLOT_LEN + SLOT_LEN
}

impl Bus for Memory {
    ghost cells = { λ memory at. cells_of memory.slots memory.bytes.all.items at };

    ghost same_beside = { λ _ _. Unit {0} };

    ghost same_beside_self = { λ _. tt };

    ghost same_beside_then = { λ _ _ _ _ _. tt };

    fn slice_from(&self, at: u16) -> &[u8]
        ensures fits { at + length result.now ≤ 65536 }
        ensures bytes { HoldsBytes (cells_of self.now.slots self.now.bytes.all.items) at
            result.now }
        ensures whole { OnTrue (is_in_named_slot self.now.slots at)
            (at % 8192 + length result.now ≡ 8192) }
    {
        if self.has_slot(at) {
            &self.bytes.all[at as usize..slot_end(at)]
        } else {
            &[]
        }
    }

    fn read(&self, at: u16) -> Option<u8> {
        if self.has_slot(at) {
            self.bytes.all.get(at as usize).copied()
        } else {
            None
        }
    }

    fn put(&mut self, at: u16, byte: u8) {
        self.bytes.all[at as usize] = byte;
    }

    fn store_slice(&mut self, at: u16, from: &[u8]) -> bool
        ensures fits { OnTrue result
            (FitsIn (cells_of self.old.slots self.old.bytes.all.items) at (length from.now)) }
        ensures stored { OnTrue result (cells_of self.new.slots self.new.bytes.all.items
            ≡ store_cells (cells_of self.old.slots self.old.bytes.all.items) at from.now) }
        ensures left { OnFalse result (cells_of self.new.slots self.new.bytes.all.items
            ≡ cells_of self.old.slots self.old.bytes.all.items) }
        ensures beside { Unit {0} }
        ensures always { IsTrue result ↔ (IsTrue (is_in_named_slot self.old.slots at)
            × (at % 8192 + length from.now ≤ 8192)) }
    {
        if !self.has_slot(at) {
            return false;
        }
        if at as usize + from.len() > slot_end(at) {
            return false;
        }
        self.bytes.overwrite(at, from);
        true
    }
}

/// The same memory, in which no bytes lie together.
#[derive(Drop)]
pub(crate) struct Scattered {
    pub(crate) memory: Memory,
}

impl Bus for Scattered {
    ghost cells = { λ scattered at.
        cells_of scattered.memory.slots scattered.memory.bytes.all.items at };

    ghost same_beside = { λ _ _. Unit {0} };

    ghost same_beside_self = { λ _. tt };

    ghost same_beside_then = { λ _ _ _ _ _. tt };

    fn slice_from(&self, _at: u16) -> &[u8]
        ensures fits { _at + length result.now ≤ 65536 }
        ensures bytes { HoldsBytes
            (cells_of self.now.memory.slots self.now.memory.bytes.all.items) _at result.now }
        ensures none { length result.now ≡ 0 }
    {
        &[]
    }

    fn read(&self, at: u16) -> Option<u8> {
        self.memory.read(at)
    }

    fn put(&mut self, at: u16, byte: u8) {
        self.memory.put(at, byte);
    }

    fn store_slice(&mut self, _at: u16, _from: &[u8]) -> bool
        ensures never { result ≡ false }
        ensures left { self.new ≡ self.old }
    {
        false
    }
}
