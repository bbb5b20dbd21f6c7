//! The data of one process.

ghost use Rattle.std.specs.Prelude.{◌≡◌, ℕ, ◌+◌, ◌<◌, ◌≤◌, IsSome, slice_index_or};
ghost use Rattle.std.specs.Option.{ForSome};
ghost use Rattle.guest_memory.specs.Tie.{modules_of};
ghost use Rattle.proc_model.specs.ModuleList.{module_entry_at};
ghost use Rattle.proc_model.specs.Records.{IsLiving, IsProcessNumber};
ghost use Rattle.proc_model.specs.Processes.{Processes, no_own, own_at, regs_at, with_regs_of, with_own};
ghost use Rattle.proc_state.specs.Tie.{RepresentsProcesses};

use crate::state::ProcState;
use os9_base::registers::{Pid, Regs};
use proc_model::own::Own;

impl ProcState {
    /// The registers as the next instruction of a process finds them.
    pub fn regs(&self, p: Pid) -> Regs
        requires { IsLiving self.now.table p.0 }
        ensures tied { (m : Processes) → RepresentsProcesses self.now m → result ≡ regs_at m p.0 }
        ensures process { IsProcessNumber p.0 }
    {
        self.table.regs(p)
    }

    /// Sets the registers that the next instruction of a process finds.
    pub fn set_regs(&mut self, p: Pid, regs: Regs)
        requires { IsLiving self.old.table p.0 }
        ensures tied { (m : Processes) → RepresentsProcesses self.old m
            → RepresentsProcesses self.new (with_regs_of m p.0 regs) }
        ensures lives { IsLiving self.new.table p.0 }
        ensures others { (q : ℕ) → IsLiving self.old.table q → IsLiving self.new.table q }
        ensures process { IsProcessNumber p.0 }
    {
        self.table.set_regs(p, regs);
    }

    /// The data of a process other than its record and its memory. Its primary module, if it has
    /// one, is entered.
    pub fn own(&self, p: Pid) -> Own
        requires { p.0 < 33 }
        ensures own { result ≡ slice_index_or self.now.own.items p.0 no_own }
        ensures tied { (m : Processes) → RepresentsProcesses self.now m → result ≡ own_at m p.0 }
        ensures entered { ForSome result.primary
            (λ id. IsSome (module_entry_at (modules_of self.now.memory) id.0)) }
        ensures sleep { ForSome result.until (λ until. until ≤ self.now.tick + 65535) }
    {
        self.own[p.0 as usize]
    }

    /// Sets the data of a process other than its record and its memory. Its primary module, if it
    /// has one, is entered, and its sleep, if it sleeps, ends at most 65,535 ticks later.
    pub fn set_own(&mut self, p: Pid, own: Own)
        requires process { p.0 < 33 }
        requires entered { ForSome own.primary
            (λ id. IsSome (module_entry_at (modules_of self.old.memory) id.0)) }
        requires sleep { ForSome own.until (λ until. until ≤ self.old.tick + 65535) }
        ensures tied { (m : Processes) → RepresentsProcesses self.old m
            → RepresentsProcesses self.new (with_own m p.0 own) }
        ensures records { self.new.table ≡ self.old.table }
        ensures turns { self.new.sched ≡ self.old.sched }
        ensures modules { modules_of self.new.memory ≡ modules_of self.old.memory }
    {
        self.own[p.0 as usize] = own;
    }
}
