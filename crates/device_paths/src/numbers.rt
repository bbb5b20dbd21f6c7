//! Calls on path numbers.

ghost use Rattle.std.specs.Prelude.{◌≡◌, ℕ, None, List};
ghost use Rattle.os9_outer.specs.TerminalState.{TerminalState};
ghost use Rattle.proc_model.specs.Records.{IsLiving};
ghost use Rattle.proc_model.specs.Processes.{Processes};
ghost use Rattle.io_model.specs.Attempts.{caller_of};
ghost use Rattle.io_model.specs.Close.{i_close as i_close_model};
ghost use Rattle.io_model.specs.Dup.{i_dup as i_dup_model};
ghost use Rattle.io_model.specs.Io.{pending_at};
ghost use Rattle.io_model.specs.declared.io_call.IoCall.TheVariants as Call;
ghost use Rattle.io_state.specs.Attempt.{IoAttempted};
ghost use Rattle.device_paths.specs.Quiet.{EndsIoAttempt};
ghost use Rattle.proc_state.specs.Tie.{RepresentsProcesses};

use io_model::path::PathsFull;
use io_state::ends::{answer, refuse};
use io_state::state::IoState;
use os9_base::call::CallEnd;
use os9_base::errors::{E_BPNUM, E_PTHFUL};
use os9_base::registers::{Pid, Regs};
use proc_state::state::ProcState;

/// I$Dup: gives a path another number (System Programmer's Manual, I$Dup). Takes the number of the
/// path in A; returns its new number, the least free one, in A.
///
/// # Errors
///
/// E$BPNum exactly if the number names no path, else E$PthFul exactly if the process's sixteen
/// numbers are in use. A refused call changes nothing.
pub fn i_dup(s: &mut ProcState, io: &mut IoState, p: Pid) -> CallEnd
    requires lives { IsLiving s.old.table p.0 }
    requires first { pending_at io.old p.0 ≡ None }
    ensures call { (m : Processes) (drives : ℕ) (terms : List TerminalState)
        → RepresentsProcesses s.old m → IoAttempted Call.Dup m io.old drives p.0 result s.new io.new
        terms terms }
    ensures lives { IsLiving s.new.table p.0 }
{
    double(s, io, p)
}

/// Gives the path in A another number.
fn double(s: &mut ProcState, io: &mut IoState, p: Pid) -> CallEnd
    requires lives { IsLiving s.old.table p.0 }
    requires first { pending_at io.old p.0 ≡ None }
    ensures call { (m : Processes) → RepresentsProcesses s.old m
        → EndsIoAttempt (i_dup_model (caller_of m p.0) io.old) m io.old p.0 result s.new io.new }
    ensures lives { IsLiving s.new.table p.0 }
{
    let regs = s.regs(p);
    if io.slot(p, regs.a).is_none() {
        return refuse(io, p, E_BPNUM);
    }
    match io.dup(p, regs.a) {
        Err(PathsFull) => refuse(io, p, E_PTHFUL),
        Ok(a) => answer(s, io, p, Regs { a, ..regs }),
    }
}

/// I$Close: closes a path number (System Programmer's Manual, I$Close). Takes the number in A, and
/// frees it. A path ends with its last number, and a pipe with its path.
///
/// # Errors
///
/// E$BPNum exactly if the number names no path. A refused call changes nothing.
pub fn i_close(s: &mut ProcState, io: &mut IoState, p: Pid) -> CallEnd
    requires lives { IsLiving s.old.table p.0 }
    requires first { pending_at io.old p.0 ≡ None }
    ensures call { (m : Processes) (drives : ℕ) (terms : List TerminalState)
        → RepresentsProcesses s.old m → IoAttempted Call.Close m io.old drives p.0 result s.new
        io.new terms terms }
    ensures lives { IsLiving s.new.table p.0 }
{
    close(s, io, p)
}

/// Closes the path number in A.
fn close(s: &mut ProcState, io: &mut IoState, p: Pid) -> CallEnd
    requires lives { IsLiving s.old.table p.0 }
    requires first { pending_at io.old p.0 ≡ None }
    ensures call { (m : Processes) → RepresentsProcesses s.old m
        → EndsIoAttempt (i_close_model (caller_of m p.0) io.old) m io.old p.0 result s.new io.new }
    ensures lives { IsLiving s.new.table p.0 }
{
    let regs = s.regs(p);
    if io.slot(p, regs.a).is_none() {
        return refuse(io, p, E_BPNUM);
    }
    io.close(p, regs.a);
    answer(s, io, p, regs)
}
