//! Calls on the status of a path.

ghost use Rattle.std.specs.Prelude.{◌≡◌, ◌<◌, ℕ, None, List, length};
ghost use Rattle.os9_outer.specs.TerminalState.{TerminalState};
ghost use Rattle.proc_model.specs.Records.{IsLiving};
ghost use Rattle.proc_model.specs.Processes.{Processes};
ghost use Rattle.io_model.specs.Attempts.{caller_of};
ghost use Rattle.io_model.specs.Status as model;
ghost use Rattle.io_model.specs.Io.{pending_at};
ghost use Rattle.io_model.specs.declared.io_call.IoCall.TheVariants as Call;
ghost use Rattle.io_state.specs.Attempt.{IoAttempted};
ghost use Rattle.io_state.specs.Sound.{IsThere};
ghost use Rattle.device_paths.specs.Quiet.{EndsIoAttempt};
ghost use Rattle.proc_state.specs.Tie.{RepresentsProcesses};

use io_model::path::Target;
use io_model::status::{OPTION_BYTES, SS_EOF, SS_OPT, SS_READY};
use io_state::ends::{answer, refuse};
use io_state::state::IoState;
use os9_base::call::CallEnd;
use os9_base::errors::{E_BPADDR, E_BPNUM, E_NOTRDY, E_UNKSVC};
use os9_base::registers::{Pid, Regs};
use proc_state::state::ProcState;

/// I$SetStt: sets the status of a path (System Programmer's Manual, I$SetStt). Takes the path in A
/// and the code in B.
///
/// # Errors
///
/// E$BPNum exactly if the number names no path, else E$UnkSvc: no status of a terminal or a pipe
/// can be set. A refused call changes nothing.
pub fn i_setstt(s: &mut ProcState, io: &mut IoState, p: Pid) -> CallEnd
    requires lives { IsLiving s.old.table p.0 }
    requires first { pending_at io.old p.0 ≡ None }
    ensures call { (m : Processes) (drives : ℕ) (terms : List TerminalState)
        → RepresentsProcesses s.old m → IoAttempted Call.SetStt m io.old drives p.0 result s.new
        io.new terms terms }
    ensures lives { IsLiving s.new.table p.0 }
{
    set_status(s, io, p)
}

/// Sets the status of the path in A.
fn set_status(s: &mut ProcState, io: &mut IoState, p: Pid) -> CallEnd
    requires lives { IsLiving s.old.table p.0 }
    requires first { pending_at io.old p.0 ≡ None }
    ensures call { (m : Processes) → RepresentsProcesses s.old m
        → EndsIoAttempt (model.i_setstt (caller_of m p.0) io.old) m io.old p.0 result s.new io.new }
    ensures lives { IsLiving s.new.table p.0 }
{
    let regs = s.regs(p);
    match io.open_path(p, regs.a) {
        None => refuse(io, p, E_BPNUM),
        Some(_) => refuse(io, p, E_UNKSVC),
    }
}

/// I$GetStt: asks for the status of a path (System Programmer's Manual, I$GetStt). Takes the path
/// in A and the code in B. SS.Opt stores 32 bytes at X, SS.Ready returns in B the number of bytes
/// that may be read at once, at most 255, and SS.EOF returns 0 in B.
///
/// # Errors
///
/// E$BPNum exactly if the number names no path, else E$UnkSvc exactly if the code is another one;
/// else for SS.Opt E$BPAddr exactly if one of the bytes is in no named slot or past `FFFF`, and for
/// SS.Ready E$NotRdy exactly if no byte is there. A refused call changes nothing.
pub fn i_getstt(s: &mut ProcState, io: &mut IoState, p: Pid) -> CallEnd
    requires lives { IsLiving s.old.table p.0 }
    requires first { pending_at io.old p.0 ≡ None }
    ensures call { (m : Processes) (drives : ℕ) (terms : List TerminalState)
        → RepresentsProcesses s.old m → IoAttempted Call.GetStt m io.old drives p.0 result s.new
        io.new terms terms }
    ensures lives { IsLiving s.new.table p.0 }
{
    get_status(s, io, p)
}

/// Asks for the status of the path in A.
fn get_status(s: &mut ProcState, io: &mut IoState, p: Pid) -> CallEnd
    requires lives { IsLiving s.old.table p.0 }
    requires first { pending_at io.old p.0 ≡ None }
    ensures call { (m : Processes) → RepresentsProcesses s.old m
        → EndsIoAttempt (model.i_getstt (caller_of m p.0) io.old) m io.old p.0 result s.new io.new }
    ensures lives { IsLiving s.new.table p.0 }
{
    let regs = s.regs(p);
    match io.open_path(p, regs.a) {
        None => refuse(io, p, E_BPNUM),
        Some((_, desc)) => get_status_of(s, io, p, desc.target),
    }
}

/// Asks for the status of a path on this target, by the code in B.
fn get_status_of(s: &mut ProcState, io: &mut IoState, p: Pid, target: Target) -> CallEnd
    requires lives { IsLiving s.old.table p.0 }
    requires first { pending_at io.old p.0 ≡ None }
    requires there { IsThere io.old target }
    ensures call { (m : Processes) → RepresentsProcesses s.old m → (code : ℕ) → code
        ≡ (caller_of m p.0).regs.b
        → EndsIoAttempt (model.gets_status (caller_of m p.0) io.old target code) m io.old p.0 result
        s.new io.new }
    ensures lives { IsLiving s.new.table p.0 }
{
    let regs = s.regs(p);
    match regs.b {
        SS_OPT => get_options(s, io, p, target),
        SS_READY => get_ready(s, io, p, target),
        SS_EOF => answer(s, io, p, Regs { b: 0, ..regs }),
        _ => refuse(io, p, E_UNKSVC),
    }
}

/// SS.Opt: stores the options of a path on this target.
fn get_options(s: &mut ProcState, io: &mut IoState, p: Pid, target: Target) -> CallEnd
    requires lives { IsLiving s.old.table p.0 }
    requires first { pending_at io.old p.0 ≡ None }
    ensures call { (m : Processes) → RepresentsProcesses s.old m
        → EndsIoAttempt (model.gets_options
        (caller_of m p.0) io.old target) m io.old p.0 result s.new io.new }
    ensures lives { IsLiving s.new.table p.0 }
{
    let regs = s.regs(p);
    if !s.read_bytes(p, regs.x, OPTION_BYTES as u16) {
        return refuse(io, p, E_BPADDR);
    }
    s.store(p, regs.x, &options(target));
    answer(s, io, p, regs)
}

/// The options of a path on this target: the first byte says what it is.
fn options(target: Target) -> [u8; OPTION_BYTES]
    ensures { result ≡ model.options target }
{
    let mut bytes = [0; OPTION_BYTES];
    bytes[0] = match target {
        Target::File(_, _) | Target::Folder(_, _) => 1,
        Target::Term(_) => 0,
        Target::Pipe(_) => 2,
    };
    bytes
}

/// SS.Ready: the number of bytes that a path on this target has for a read.
fn get_ready(s: &mut ProcState, io: &mut IoState, p: Pid, target: Target) -> CallEnd
    requires lives { IsLiving s.old.table p.0 }
    requires first { pending_at io.old p.0 ≡ None }
    requires there { IsThere io.old target }
    ensures call { (m : Processes) → RepresentsProcesses s.old m
        → EndsIoAttempt (model.gets_ready (caller_of m p.0) io.old target) m io.old p.0 result s.new
        io.new }
    ensures lives { IsLiving s.new.table p.0 }
{
    let regs = s.regs(p);
    let count = io.ready_count(target);
    if count == 0 {
        return refuse(io, p, E_NOTRDY);
    }
    let b = count.min(255) as u8;
    answer(s, io, p, Regs { b, ..regs })
}
