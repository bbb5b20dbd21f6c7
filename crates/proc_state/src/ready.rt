//! Who is Ready (Level Two manual, process scheduling).

ghost use Rattle.std.specs.Prelude.{◌≡◌, ◌<◌, is_some, length};
ghost use Rattle.proc_model.specs.Records.{record_of, record_passes};
ghost use Rattle.proc_model.specs.Ends.{ended_child, is_ended_child as is_ended_child_model};
ghost use Rattle.proc_model.specs.Processes.{Processes, own_at, no_own};
ghost use Rattle.proc_model.specs.IoReady.{has_io};
ghost use Rattle.proc_model.specs.Ready.{is_ready, may_go_on as may_go_on_model};
ghost use Rattle.proc_model.specs.Send.{is_call as is_call_model};
ghost use Rattle.proc_model.specs.Sleep.{may_wake as may_wake_model};
ghost use Rattle.proc_model.specs.Memory.{first_memory};
ghost use Rattle.proc_state.specs.Ready.{ready_at};
ghost use Rattle.proc_state.specs.Tie.{RepresentsProcesses, processes_of};

use crate::state::ProcState;
use os9_base::calls::{F_SLEEP, F_WAIT};
use os9_base::limits::PROCESS_PLACES;
use os9_base::registers::Pid;
use proc_model::io_ready::IoReady;
use proc_model::own::Own;
use proc_model::record::Life;
use process_table::Table;

impl ProcState {
    /// Is this process Ready: does it live, and not wait, or is a signal pending, or may its wait
    /// for a child, its sleep or its call on input and output end?
    pub fn ready(&self, p: Pid, io: &IoReady) -> bool
        requires { p.0 < 33 }
        ensures here { result ≡ ready_at (has_io io.now) self.now.tick self.now p.0 }
        ensures tied { (m : Processes) → RepresentsProcesses self.now m
            → result ≡ is_ready (has_io io.now) m p.0 }
    {
        match self.table.life(p) {
            Some(Life::Running) => true,
            Some(Life::Waiting) => {
                self.table.due_signal(p).is_some() || self.may_go_on(p) || io.allows(p)
            }
            Some(Life::Ended(_)) | None => false,
        }
    }

    /// Has a child ended that this process waits for, or may its sleep end?
    fn may_go_on(&self, p: Pid) -> bool
        requires { p.0 < 33 }
        ensures { result ≡ may_go_on_model (processes_of self.now (first_memory 0)) p.0 }
    {
        let own = self.own(p);
        if is_call(own.call, F_WAIT) && has_ended_child(&self.table, p) {
            return true;
        }
        is_call(own.call, F_SLEEP) && may_wake(self.tick, own)
    }
}

/// Does the unfinished call have this code?
fn is_call(call: Option<u8>, code: u8) -> bool
    ensures { result ≡ is_call_model call code }
{
    match call {
        Some(other) => other == code,
        None => false,
    }
}

/// May the sleep of a process end: is its tick reached, or has a wake arrived?
fn may_wake(tick: u32, own: Own) -> bool
    ensures { result ≡ may_wake_model tick own }
{
    own.woken || own.until.is_some_and(|until| until <= tick)
}

/// Has a child of this process ended?
fn has_ended_child(table: &Table, parent: Pid) -> bool
    requires { length table.now ≡ PROCESS_PLACES }
    ensures { result ≡ is_some (ended_child table.now parent.0) }
{
    for number in 0..PROCESS_PLACES {
        if is_ended_child(table, Pid(number), parent) {
            return true;
        }
    }
    false
}

/// Is this a child of this process, and has it ended?
fn is_ended_child(table: &Table, child: Pid, parent: Pid) -> bool
    ensures { result
        ≡ record_passes (is_ended_child_model parent.0) (record_of table.now child.0) }
{
    match table.life(child) {
        Some(Life::Ended(_)) => table.parent(child) == parent,
        Some(Life::Running) | Some(Life::Waiting) | None => false,
    }
}
