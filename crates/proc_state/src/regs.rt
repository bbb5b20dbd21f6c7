//! Registers of a process that change while it is chosen.

ghost use Rattle.std.specs.Prelude.{◌≡◌, ℕ, Bool};
ghost use Rattle.proc_model.specs.Processes.{Processes, with_regs_of};
ghost use Rattle.proc_model.specs.Records.{IsLiving};
ghost use Rattle.proc_state.specs.Tie.{RepresentsProcesses};
ghost use Rattle.proc_state.specs.Active.{AreActiveAt};

use crate::state::ProcState;
use os9_base::registers::{Pid, Regs};

/// Sets the registers that the next instruction of a process finds. Nobody becomes Ready by that,
/// and nobody ceases to be so.
pub fn set_regs(s: &mut ProcState, p: Pid, regs: Regs)
    requires { IsLiving s.old.table p.0 }
    ensures tied { (m : Processes) → RepresentsProcesses s.old m
        → RepresentsProcesses s.new (with_regs_of m p.0 regs) }
    ensures lives { IsLiving s.new.table p.0 }
    ensures active { (io : ℕ → Bool) (tick : ℕ) → AreActiveAt io tick s.old
        → AreActiveAt io tick s.new }
{
    s.table.set_regs(p, regs);
}
