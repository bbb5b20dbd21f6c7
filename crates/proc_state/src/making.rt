//! The beginning of a process.

ghost use Rattle.std.specs.Prelude.{◌≡◌, ℕ, IfNone, IfSome, option_map};
ghost use Rattle.proc_model.specs.Records.{IsLiving, free_process};
ghost use Rattle.proc_model.specs.Processes.{Processes};
ghost use Rattle.proc_state.specs.Beginning.{with_made};
ghost use Rattle.proc_state.specs.Tie.{RepresentsProcesses};

use crate::state::ProcState;
use os9_base::registers::Pid;

impl ProcState {
    /// Makes a process with the least number from 2 to 32 that no record has (F$Fork). It runs, its
    /// registers are all 0, it has no memory and no other data yet, and it counts as chosen now. A
    /// parent of 0 means none. Returns None if there are 31 records; nothing has changed then.
    pub fn make(&mut self, parent: Pid, user: u16, priority: u8) -> Option<Pid>
        ensures number { option_map (λ p. p.0) result ≡ free_process self.old.table }
        ensures made { (m : Processes) → RepresentsProcesses self.old m
            → IfSome result (λ p. RepresentsProcesses self.new
            (with_made m p parent user priority)) }
        ensures none { (m : Processes) → RepresentsProcesses self.old m
            → IfNone result (RepresentsProcesses self.new m) }
        ensures lives { IfSome result (λ p. IsLiving self.new.table p.0) }
        ensures others { (q : ℕ) → IsLiving self.old.table q → IsLiving self.new.table q }
    {
        let p = self.table.make(parent, user, priority)?;
        self.sched.add(p, priority);
        Some(p)
    }
}
