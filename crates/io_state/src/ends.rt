//! How calls end that nothing is kept of.

ghost use Rattle.std.specs.Prelude.{◌≡◌, ◌<◌, None};
ghost use Rattle.io_model.specs.Io.{with_call};
ghost use Rattle.io_state.specs.Sound.{ReadsNoTerminal};
ghost use Rattle.proc_model.specs.Processes.{Processes, with_regs_of};
ghost use Rattle.proc_model.specs.Records.{IsLiving};
ghost use Rattle.proc_state.specs.Tie.{RepresentsProcesses};

use crate::state::IoState;
use os9_base::call::CallEnd;
use os9_base::registers::{Pid, Regs};
use proc_state::state::ProcState;

/// Refuses the call with this number. Nothing is kept of it.
pub fn refuse(io: &mut IoState, p: Pid, number: u8) -> CallEnd
    requires process { p.0 < 33 }
    requires no_read { ReadsNoTerminal io.old p.0 }
    ensures end { result ≡ CallEnd.Error number }
    ensures io { io.new ≡ with_call io.old p.0 None }
{
    io.keep(p, None);
    CallEnd::Error(number)
}

/// The call is done, and its process has these registers. Nothing is kept of it.
pub fn answer(s: &mut ProcState, io: &mut IoState, p: Pid, regs: Regs) -> CallEnd
    requires lives { IsLiving s.old.table p.0 }
    requires no_read { ReadsNoTerminal io.old p.0 }
    ensures end { result ≡ CallEnd.Done }
    ensures tied { (m : Processes) → RepresentsProcesses s.old m
        → RepresentsProcesses s.new (with_regs_of m p.0 regs) }
    ensures io { io.new ≡ with_call io.old p.0 None }
    ensures lives { IsLiving s.new.table p.0 }
{
    s.set_regs(p, regs);
    io.keep(p, None);
    CallEnd::Done
}
