ghost use Rattle.std.specs.Prelude.{◌≡◌, ℕ, ◌+◌, ◌-◌, ◌^◌, ◌≤◌, min, Some, []};
ghost use Rattle.std.specs.Bool.{OnTrue, OnFalse};
ghost use Rattle.os9_outer.specs.Plans.{is_planned, planned_calls};

use crate::pending::Pending;
use crate::terminal::{CharDriver, Key, PutFault, TermFault};
use std::alloc::Global;
use std::mem;

/// A terminal over memory for tests, whose calls of `key` and `put`, counted together from 1, fail
/// as planned. Its bytes are observed.
#[derive(Debug, Drop)]
pub struct ScriptTty {
    pending: Pending,
    bytes: Vec<u8>,
    calls: u64,
    faults: u64,
    plan: Vec<u64>,
}

impl ScriptTty {
    /// A terminal without keys and without bytes put, whose calls of these numbers fail.
    pub fn new(alloc: Global, plan: Vec<u64>) -> ScriptTty
        ensures no_keys { ⟦<ScriptTty as CharDriver>⟧.keys_left result ≡ [] }
        ensures no_bytes { ⟦<ScriptTty as CharDriver>⟧.bytes_put result ≡ Some [] }
        ensures no_faults { ⟦<ScriptTty as CharDriver>⟧.term_faults result ≡ 0 }
        ensures planned { planned_calls result ≡ plan.items }
    {
        ScriptTty {
            pending: Pending::new(alloc),
            bytes: Vec::new(alloc),
            calls: 0,
            faults: 0,
            plan,
        }
    }

    // Counts a call, and its fault if it is to fail; returns whether it is.
    fn fails_next(&mut self) -> bool
        ensures planned { result ≡ is_planned (planned_calls self.old) self.new.calls }
        ensures plan_kept { planned_calls self.new ≡ planned_calls self.old }
        ensures call_counted { self.new.calls ≡ min (self.old.calls + 1) (2 ^ 64 - 1) }
        ensures keys_kept { self.new.pending ≡ self.old.pending }
        ensures bytes_kept { self.new.bytes.items ≡ self.old.bytes.items }
        ensures fault_counted { OnTrue result
            (self.new.faults ≡ min (self.old.faults + 1) (2 ^ 64 - 1)) }
        ensures faults_kept { OnFalse result (self.new.faults ≡ self.old.faults) }
        ensures never_falls { self.old.faults ≤ self.new.faults }
    {
        self.calls = self.calls.saturating_add(1);
        if self.plan.contains(&self.calls) {
            self.faults = self.faults.saturating_add(1);
            true
        } else {
            false
        }
    }
}

impl CharDriver for ScriptTty {
    ghost keys_left = { λ tty. tty.pending };

    ghost bytes_put = { λ tty. Some tty.bytes.items };

    ghost term_faults = { λ tty. tty.faults };

    fn load(&mut self, keys: Vec<Key>) -> Result<(), Vec<Key>> {
        self.pending.load(keys)
    }

    fn key(&mut self, tick: u32) -> Result<Option<u8>, TermFault> {
        if self.fails_next() {
            return Err(TermFault);
        }
        Ok(self.pending.next_due(tick))
    }

    fn put(&mut self, byte: u8) -> Result<(), PutFault> {
        if self.fails_next() {
            return Err(PutFault::Fault);
        }
        self.bytes.push(byte).map_err(|_| PutFault::OutOfMemory)
    }

    fn take(&mut self) -> Vec<u8> {
        let alloc = *self.bytes.allocator();
        mem::replace(&mut self.bytes, Vec::new(alloc))
    }
}
