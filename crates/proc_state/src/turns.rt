//! Calls that end or wait.

ghost use Rattle.std.specs.Prelude.{◌≡◌, Some, true, false};
ghost use Rattle.proc_model.specs.Records.{IsLiving, record_at, is_waiting, with_waiting};
ghost use Rattle.proc_model.specs.Attempts as model;
ghost use Rattle.proc_model.specs.Attempts.{done_regs, goes_on, waiting};
ghost use Rattle.proc_model.specs.Processes.{Processes, regs_at, with_records};
ghost use Rattle.os9_sched.specs.Schedule.{after_wait};
ghost use Rattle.proc_state.specs.Tie.{RepresentsProcesses};

use crate::frame::refused_regs;
use crate::state::ProcState;
use os9_base::registers::{Pid, Regs};
use os9_sched::Cause;
use proc_model::own::Own;
use proc_model::record::Life;

impl ProcState {
    /// The call of a process is done: carry is clear, and the process goes on.
    pub fn succeed(&mut self, p: Pid)
        requires { IsLiving self.old.table p.0 }
        ensures tied { (m : Processes) → RepresentsProcesses self.old m
            → RepresentsProcesses self.new (goes_on m p.0 (done_regs (regs_at m p.0))) }
        ensures lives { IsLiving self.new.table p.0 }
    {
        let regs = self.table.regs(p);
        let cc = regs.cc - regs.cc % 2;
        self.go_on(p, Regs { cc, ..regs });
    }

    /// The call of a process is refused with this number: carry is set, B has the number, and the
    /// process goes on.
    pub fn refuse(&mut self, p: Pid, number: u8)
        requires { IsLiving self.old.table p.0 }
        ensures tied { (m : Processes) → RepresentsProcesses self.old m
            → RepresentsProcesses self.new
            (goes_on m p.0 (model.refused_regs (regs_at m p.0) number)) }
        ensures lives { IsLiving self.new.table p.0 }
    {
        let regs = self.table.regs(p);
        self.go_on(p, refused_regs(regs, number));
    }

    /// A process waits in its call for this, until this tick if there is one. A process that
    /// already waits keeps what it waits for.
    pub fn wait(&mut self, p: Pid, cause: Cause, until: Option<u32>)
        requires { IsLiving self.old.table p.0 }
        ensures tied { (m : Processes) → RepresentsProcesses self.old m
            → RepresentsProcesses self.new (waiting m p.0) }
        ensures lives { IsLiving self.new.table p.0 }
        ensures first { is_waiting (record_at self.old.table p.0).life ≡ false
            → self.new.sched
            ≡ after_wait self.old.sched p.0 (record { cause = cause; until = until }) }
        ensures further { is_waiting (record_at self.old.table p.0).life ≡ true
            → self.new.sched ≡ self.old.sched }
        ensures own { self.new.own ≡ self.old.own }
    {
        let waits = self.waits(p);
        self.table.set_waiting(p, true);
        if !waits {
            self.sched.wait(p, cause, until);
        }
    }

    /// A process has no call any more, and goes on with these registers.
    pub(crate) fn go_on(&mut self, p: Pid, regs: Regs)
        requires { IsLiving self.old.table p.0 }
        ensures tied { (m : Processes) → RepresentsProcesses self.old m
            → RepresentsProcesses self.new (goes_on m p.0 regs) }
        ensures lives { IsLiving self.new.table p.0 }
    {
        self.set_regs(p, regs);
        self.run(p);
        let own = self.own(p);
        self.set_own(
            p,
            Own {
                call: None,
                until: None,
                woken: false,
                ..own
            },
        );
    }

    /// A process does not wait any more.
    fn run(&mut self, p: Pid)
        requires { IsLiving self.old.table p.0 }
        ensures tied { (m : Processes) → RepresentsProcesses self.old m
            → RepresentsProcesses self.new (with_records m (with_waiting m.records p.0 false)) }
        ensures lives { IsLiving self.new.table p.0 }
    {
        self.table.set_waiting(p, false);
        self.sched.go(p);
    }

    /// Does a process wait?
    pub(crate) fn waits(&self, p: Pid) -> bool
        requires { IsLiving self.now.table p.0 }
        ensures { result ≡ is_waiting (record_at self.now.table p.0).life }
    {
        matches!(self.table.life(p), Some(Life::Waiting))
    }
}
