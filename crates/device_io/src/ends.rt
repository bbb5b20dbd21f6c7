//! How attempts begin and end.

ghost use Rattle.std.specs.Prelude.{◌≡◌, ◌<◌, ◌+◌, ◌≤◌, None, Some, unwrap_or};
ghost use Rattle.io_model.specs.Pending as model;
ghost use Rattle.io_model.specs.Attempts.{result_by};
ghost use Rattle.io_model.specs.Io.{Io, pending_at, with_call};
ghost use Rattle.io_model.specs.Step.{IoEnd, leaves};
ghost use Rattle.io_state.specs.Sound.{IsIo, MayWait, ReadsNoTerminal};
ghost use Rattle.proc_model.specs.Records.{IsLiving};
ghost use Rattle.proc_model.specs.Processes.{Processes};
ghost use Rattle.device_io.specs.Leaving.{IsTold};
ghost use Rattle.proc_state.specs.Tie.{ReturnsCallEnd, RepresentsProcesses};

use io_model::path::SysPath;
use io_model::pending::PendingCall;
use io_state::state::IoState;
use os9_base::call::CallEnd;
use os9_base::registers::{Pid, Regs};
use proc_state::state::ProcState;

/// The call as an attempt finds it: the pending call, or at the first attempt the call of this code
/// on this path for `count` bytes.
pub(crate) fn call_now(io: &IoState, p: Pid, code: u8, path: SysPath, count: u16) -> PendingCall
    requires { p.0 < 33 }
    ensures call { result ≡ unwrap_or (pending_at io.now p.0)
        (record { code = code; path = path; moved = 0; count = count }) }
    ensures sound { IsIo io.now }
{
    let moved = 0;
    io.pending(p).unwrap_or(PendingCall {
        code,
        path,
        moved,
        count,
    })
}

/// A call after an attempt that moved `count` more bytes.
pub(crate) fn moved_on(call: PendingCall, count: u16) -> PendingCall
    requires { call.moved + count ≤ 65535 }
    ensures { result ≡ model.moved_on call count }
{
    let moved = call.moved + count;
    PendingCall { moved, ..call }
}

/// The call waits, and is pending.
pub(crate) fn keep(io: &mut IoState, p: Pid, call: PendingCall) -> CallEnd
    requires process { p.0 < 33 }
    requires may { MayWait io.old.paths p.0 call }
    requires no_read { ReadsNoTerminal io.old p.0 }
    ensures end { result ≡ CallEnd.Wait }
    ensures io { io.new ≡ with_call io.old p.0 (Some call) }
{
    io.keep(p, Some(call));
    CallEnd::Wait
}

/// The call is done. It is not pending.
pub(crate) fn finish(io: &mut IoState, p: Pid) -> CallEnd
    requires process { p.0 < 33 }
    requires no_read { ReadsNoTerminal io.old p.0 }
    ensures end { result ≡ CallEnd.Done }
    ensures io { io.new ≡ with_call io.old p.0 None }
{
    io.keep(p, None);
    CallEnd::Done
}

/// Tells the process of an attempt that stored nothing how it ended: it has these registers if the
/// call is done.
pub(crate) fn tell(s: &mut ProcState, p: Pid, end: CallEnd, regs: Regs)
    requires lives { IsLiving s.old.table p.0 }
    ensures told { (m : Processes) (it : IoEnd) (io : Io) → RepresentsProcesses s.old m
        → IsTold it regs end → ReturnsCallEnd m p.0 (result_by it m p.0 (leaves it io)) end s.new }
    ensures lives { IsLiving s.new.table p.0 }
{
    if end == CallEnd::Done {
        s.set_regs(p, regs);
    }
}
