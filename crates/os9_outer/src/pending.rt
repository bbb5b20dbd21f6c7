ghost use Rattle.std.specs.Prelude.{◌≡◌, ℕ, ◌<◌, List, [], length, drop, IfErr, OnOk, OnErr};
ghost use Rattle.os9_outer.specs.Terminal.{due_byte, keys_after};

use crate::terminal::Key;
use std::alloc::Global;
use std::marker::Model;

/// The keys that a terminal has not given yet.
#[derive(Debug, Drop)]
pub struct Pending {
    keys: Vec<Key>,
    given: usize,
}

impl Model for Pending {
    ghost use Rattle.std.specs.Prelude.{List, drop, vec_len, ◌≤◌};
    ghost use Rattle.os9_outer.specs.declared.terminal.Key.{Key};

    ghost Value = { List Key };

    ghost view = { λ pending. drop pending.given pending.keys.items };

    ghost invariant = { λ pending. pending.given ≤ vec_len pending.keys };
}

impl Pending {
    pub fn new(alloc: Global) -> Pending
        ensures { result ≡ [] }
    {
        Pending {
            keys: Vec::new(alloc),
            given: 0,
        }
    }

    pub fn load(&mut self, keys: Vec<Key>) -> Result<(), Vec<Key>>
        ensures loaded { OnOk result (self.new ≡ keys.items) }
        ensures was_empty { OnOk result (self.old ≡ []) }
        ensures was_loaded { OnErr result (0 < length self.old) }
        ensures handed_back { IfErr result (λ back. back.items ≡ keys.items) }
        ensures kept { OnErr result (self.new ≡ self.old) }
    {
        if self.given < self.keys.len() {
            return Err(keys);
        }
        self.keys = keys;
        self.given = 0;
        Ok(())
    }

    pub fn next_due(&mut self, tick: u32) -> Option<u8>
        ensures answered { result ≡ due_byte self.old tick }
        ensures taken { self.new ≡ keys_after self.old tick }
    {
        if self.given == self.keys.len() {
            return None;
        }
        let key = self.keys[self.given];
        if key.tick > tick {
            return None;
        }
        self.given += 1;
        Some(key.byte)
    }
}
