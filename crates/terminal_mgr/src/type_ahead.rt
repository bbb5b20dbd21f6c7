ghost use Rattle.std.specs.Prelude.{◌≡◌, ◌<◌, ◌≤◌, ◌↔◌, IsTrue, [], ◌∷◌, ◌++◌, IfOk, length, slice_get, drop, take};

use circular_buffer::HeapCircularBuffer;
use io_model::terminal::TYPE_AHEAD;
use os9_base::call::OutOfMemory;
use std::alloc::Global;
use std::marker::Model;

// The arrived keys that no read has used yet, at most 256.
#[derive(Drop)]
pub(crate) struct TypeAhead {
    keys: HeapCircularBuffer<u8>,
}

impl Model for TypeAhead {
    ghost use Rattle.std.specs.Prelude.{◌≡◌, ◌≤◌, ℕ, List, length};

    ghost Value = { List ℕ };

    ghost view = { λ t. t.keys.items };

    ghost invariant = { λ t. (t.keys.capacity ≡ 256) × (length t.keys.items ≤ 256) };
}

impl TypeAhead {
    pub(crate) fn new(alloc: Global) -> Result<TypeAhead, OutOfMemory>
        ensures { IfOk result (λ t. t ≡ []) }
    {
        Ok(TypeAhead {
            keys: HeapCircularBuffer::with_capacity(alloc, TYPE_AHEAD)?,
        })
    }

    pub(crate) fn len(&self) -> u16
        ensures len { result ≡ length self.now }
        ensures within { result ≤ 256 }
    {
        self.keys.len() as u16
    }

    // Keeps a key. False if it is dropped, since the type-ahead is full.
    pub(crate) fn keep(&mut self, key: u8) -> bool
        ensures room { IsTrue result ↔ (length self.old < 256) }
        ensures kept { self.new ≡ take 256 (self.old ++ key ∷ []) }
        ensures within { length self.new ≤ 256 }
    {
        self.keys.try_push_back(key).is_ok()
    }

    // Takes the first key.
    pub(crate) fn next(&mut self) -> Option<u8>
        ensures first { result ≡ slice_get self.old 0 }
        ensures taken { self.new ≡ drop 1 self.old }
        ensures within { length self.new ≤ 256 }
    {
        self.keys.pop_front()
    }
}
