//! The observable part of a kernel: the chosen process, its executed instructions, the history of
//! record locks, and of each process the registers, the bytes and whether a tick ends its wait.

ghost use Rattle.std.specs.Prelude.{◌≡◌, ◌<◌, option_map};
ghost use Rattle.proc_model.specs.Processes.{cells_at};
ghost use Rattle.proc_model.specs.Send.{is_call as is_call_model};
ghost use Rattle.lock_model.specs.History.{AtomicPairs};
ghost use Rattle.machine_model.specs.State.{State};
ghost use Rattle.os9_kernel.specs.Outside.{Outside};
ghost use Rattle.os9_kernel.specs.Tie.{Represents, executed};
ghost use Rattle.os9_kernel.specs.View.{has_limit as has_limit_model, living_regs, sleeps_by_clock as sleeps_by_clock_model, wakes_by_clock as wakes_by_clock_model};
ghost use Rattle.os9_base.specs.UserNames.{user_cell};

use crate::kernel::Kernel;
use lock_model::history::Entry;
use lock_model::lock::Request;
use os9_base::calls::F_SLEEP;
use os9_base::registers::{Pid, Regs};
use proc_model::record::Life;
use record_locks::records::Records;

impl Kernel {
    /// The process that was chosen last, if one was Ready. None before the first choice.
    pub fn chosen(&self) -> Option<Pid>
        ensures { (devices : Outside) (s : State) → Represents self.now devices s
            → option_map (λ p. p.0) result ≡ s.chosen }
    {
        self.chosen
    }

    /// The number of instructions that the chosen process has executed since it was chosen, at most
    /// 4,294,967,295.
    pub fn executed(&self) -> u32
        ensures { result ≡ executed self.now }
    {
        self.executed
    }

    /// The registers of a process, if it lives.
    pub fn regs(&self, p: Pid) -> Option<Regs>
        ensures { (devices : Outside) (s : State) → Represents self.now devices s
            → result ≡ living_regs s.processes p.0 }
    {
        match self.machine.processes.table.life(p) {
            None | Some(Life::Ended(_)) => None,
            Some(_) => Some(self.machine.processes.regs(p)),
        }
    }

    /// The byte of a process at an address, if a block is there.
    pub fn byte(&self, p: Pid, at: u16) -> Option<u8>
        requires { p.0 < 33 }
        ensures { (devices : Outside) (s : State) → Represents self.now devices s
            → result ≡ user_cell (cells_at s.processes p.0) at }
    {
        self.machine.processes.memory.byte(p, at, 0)
    }

    /// The history of reads and writes under record locks, oldest entry first. Each read for update
    /// in it and the write of that update are one step of their file's history.
    pub fn history(&self) -> &[Entry]
        ensures history { (devices : Outside) (s : State) → Represents self.now devices s
            → result.now ≡ s.files.records.history }
        ensures atomic { AtomicPairs result.now }
    {
        self.machine.files.records.history()
    }

    /// The record locks with their history, of a kernel that is not used any more.
    pub fn into_records(self) -> Records
        ensures { (devices : Outside) (s : State) → Represents self devices s
            → result ≡ s.files.records }
    {
        let files = self.machine.files;
        files.records
    }

    /// Does a tick end what a process waits for: a sleep until a tick that is set, or a wait for a
    /// record, for a limited number of ticks (SS.Ticks)?
    pub fn wakes_by_clock(&self, p: Pid) -> bool
        requires { p.0 < 33 }
        ensures { (devices : Outside) (s : State) → Represents self.now devices s
            → result ≡ wakes_by_clock_model s p.0 }
    {
        self.sleeps_by_clock(p) || has_limit(self.machine.files.records.locks().request_of(p))
    }

    /// Does a process sleep until a tick that is set?
    fn sleeps_by_clock(&self, p: Pid) -> bool
        requires { p.0 < 33 }
        ensures { (devices : Outside) (s : State) → Represents self.now devices s
            → result ≡ sleeps_by_clock_model s.processes p.0 }
    {
        let waits = matches!(self.machine.processes.table.life(p), Some(Life::Waiting));
        let own = self.machine.processes.own(p);
        waits && is_call(own.call, F_SLEEP) && own.until.is_some()
    }
}

/// Does a request for a record wait for a limited number of ticks?
fn has_limit(request: Option<Request>) -> bool
    ensures { result ≡ has_limit_model request }
{
    match request {
        None => false,
        Some(request) => 1 < request.ticks,
    }
}

/// Has the unfinished call this code?
fn is_call(call: Option<u8>, code: u8) -> bool
    ensures { result ≡ is_call_model call code }
{
    match call {
        None => false,
        Some(other) => other == code,
    }
}
