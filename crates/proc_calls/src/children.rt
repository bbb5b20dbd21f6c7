//! Calls on the ends of processes.

ghost use Rattle.std.specs.Prelude.{◌≡◌, OnErr};
ghost use Rattle.proc_model.specs.Ends.{reaped, after_reap};
ghost use Rattle.proc_model.specs.Records.{IsLiving, record_at};
ghost use Rattle.proc_model.specs.Exit.{f_exit as f_exit_model};
ghost use Rattle.proc_model.specs.Processes.{Processes, with_records};
ghost use Rattle.proc_model.specs.Wait.{f_wait as f_wait_model};
ghost use Rattle.proc_state.specs.Tie.{RepresentsProcesses, ReturnsCallEnd};
ghost use Rattle.proc_calls.specs.Telling.{KeepsRecordsAndTurns};

use os9_base::call::CallEnd;
use os9_base::errors::E_NOCHLD;
use os9_base::registers::{Pid, Regs};
use proc_model::record::Reap;
use proc_state::state::ProcState;

/// F$Wait: waits for the end of a child (System Programmer's Manual, F$Wait). Returns the number of
/// the ended child of least number in A and its status in B, and removes the child's record. The
/// call waits while no child has ended.
///
/// # Errors
///
/// E$NoChld exactly if the process has no children.
pub fn f_wait(s: &mut ProcState, p: Pid) -> CallEnd
    requires lives { IsLiving s.old.table p.0 }
    ensures call { (m : Processes) → RepresentsProcesses s.old m
        → ReturnsCallEnd m p.0 (f_wait_model m p.0) result s.new }
    ensures lives { IsLiving s.new.table p.0 }
    ensures still { result ≡ CallEnd.Wait → KeepsRecordsAndTurns s.old s.new }
{
    let regs = s.regs(p);
    match reap(s, p) {
        Ok((child, status)) => {
            let a = child.0;
            let b = status;
            s.set_regs(p, Regs { a, b, ..regs });
            CallEnd::Done
        }
        Err(Reap::NoChild) => CallEnd::Error(E_NOCHLD),
        Err(Reap::NotYet) => CallEnd::Wait,
    }
}

/// F$Exit: ends the process with the status in B (System Programmer's Manual, F$Exit). Its parent
/// may wait for the status.
pub fn f_exit(s: &mut ProcState, p: Pid) -> CallEnd
    requires lives { IsLiving s.old.table p.0 }
    ensures call { (m : Processes) → RepresentsProcesses s.old m
        → ReturnsCallEnd m p.0 (f_exit_model m p.0) result s.new }
{
    let regs = s.regs(p);
    s.end(p, regs.b);
    CallEnd::Ended
}

/// Removes the record of the ended child of least number; returns its number and status.
fn reap(s: &mut ProcState, p: Pid) -> Result<(Pid, u8), Reap>
    requires lives { IsLiving s.old.table p.0 }
    ensures child { result ≡ reaped s.old.table p.0 }
    ensures tied { (m : Processes) → RepresentsProcesses s.old m
        → RepresentsProcesses s.new (with_records m (after_reap s.old.table p.0)) }
    ensures record { record_at s.new.table p.0 ≡ record_at s.old.table p.0 }
    ensures lives { IsLiving s.new.table p.0 }
    ensures none { OnErr result (KeepsRecordsAndTurns s.old s.new) }
{
    s.table.reap(p)
}
