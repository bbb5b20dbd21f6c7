ghost use Rattle.std.specs.Prelude.{◌≡◌, ℕ, Some, []};

use crate::pending::Pending;
use crate::terminal::{CharDriver, Key, PutFault, TermFault};
use std::alloc::Global;
use std::mem;

/// A terminal over memory that never fails: its count of faults is always 0. Its bytes are
/// observed.
#[derive(Debug, Drop)]
pub struct SureTty {
    pending: Pending,
    bytes: Vec<u8>,
}

impl SureTty {
    /// A terminal without keys and without bytes put.
    pub fn new(alloc: Global) -> SureTty
        ensures no_keys { ⟦<SureTty as CharDriver>⟧.keys_left result ≡ [] }
        ensures no_bytes { ⟦<SureTty as CharDriver>⟧.bytes_put result ≡ Some [] }
        ensures no_faults { ⟦<SureTty as CharDriver>⟧.term_faults result ≡ 0 }
    {
        SureTty {
            pending: Pending::new(alloc),
            bytes: Vec::new(alloc),
        }
    }
}

impl CharDriver for SureTty {
    ghost keys_left = { λ tty. tty.pending };

    ghost bytes_put = { λ tty. Some tty.bytes.items };

    ghost term_faults = { λ _. 0 };

    fn load(&mut self, keys: Vec<Key>) -> Result<(), Vec<Key>> {
        self.pending.load(keys)
    }

    fn key(&mut self, tick: u32) -> Result<Option<u8>, TermFault> {
        Ok(self.pending.next_due(tick))
    }

    fn put(&mut self, byte: u8) -> Result<(), PutFault> {
        self.bytes.push(byte).map_err(|_| PutFault::OutOfMemory)
    }

    fn take(&mut self) -> Vec<u8> {
        let alloc = *self.bytes.allocator();
        mem::replace(&mut self.bytes, Vec::new(alloc))
    }
}
