//! Changes of one process: it begins a call, its call is broken off, or it ends.

ghost use Rattle.std.specs.Prelude.{◌≡◌, ◌<◌, List, Some};
ghost use Rattle.proc_model.specs.Records.{IsLiving};
ghost use Rattle.proc_state.specs.Tie.{RepresentsProcesses};
ghost use Rattle.proc_model.specs.End.{ended};
ghost use Rattle.proc_model.specs.Processes.{Processes, own_at, with_own};
ghost use Rattle.io_model.specs.Waiting.{interrupted_count};
ghost use Rattle.file_drives.specs.Drives.{DriveView};
ghost use Rattle.file_rules.specs.Files.{Files};
ghost use Rattle.file_rules.specs.Locking.{files_interrupted};
ghost use Rattle.file_rules.specs.Processes.{files_ended};
ghost use Rattle.file_state.specs.Tie.{RepresentsFiles};
ghost use Rattle.machine_model.specs.ProcessEvent.{broken_off};
ghost use Rattle.os9_kernel.specs.Tie.{executed, signal_at};

use crate::kernel::Kernel;
use os9_base::registers::{Pid, Regs};
use proc_model::own::Own;

impl Kernel {
    /// A process has executed a system call with this code.
    pub(crate) fn begin_call(&mut self, p: Pid, code: u8)
        requires lives { IsLiving self.old.machine.processes.table p.0 }
        ensures tied { (m : Processes) → RepresentsProcesses self.old.machine.processes m
            → RepresentsProcesses self.new.machine.processes
            (with_own m p.0 (record (own_at m p.0) { call = Some code })) }
        ensures chosen { self.new.chosen ≡ self.old.chosen }
        ensures records { self.new.machine.processes.table ≡ self.old.machine.processes.table }
        ensures count { self.new.machine.processes.tick ≡ self.old.machine.processes.tick }
        ensures executed { executed self.new ≡ executed self.old }
        ensures known { self.new.known ≡ self.old.known }
        ensures files { self.new.machine.files ≡ self.old.machine.files }
        ensures clock { self.new.clock ≡ self.old.clock }
    {
        let own = self.machine.processes.own(p);
        self.machine.processes.set_own(
            p,
            Own {
                call: Some(code),
                ..own
            },
        );
    }

    /// Breaks off the call of a process that waits on a terminal or a pipe or for a record, if it
    /// does: Y has what the call has moved, if it answers a count.
    pub(crate) fn break_off(&mut self, p: Pid)
        requires lives { IsLiving self.old.machine.processes.table p.0 }
        ensures tied { (m : Processes) → RepresentsProcesses self.old.machine.processes m
            → RepresentsProcesses self.new.machine.processes
            (broken_off m p.0 (interrupted_count self.old.machine.files.io p.0)) }
        ensures files { (views : List DriveView) (files : Files)
            → RepresentsFiles self.old.machine.files views files
            → RepresentsFiles self.new.machine.files views (files_interrupted files p.0) }
        ensures clock { self.new.clock ≡ self.old.clock }
        ensures chosen { self.new.chosen ≡ self.old.chosen }
        ensures lives { IsLiving self.new.machine.processes.table p.0 }
        ensures executed { executed self.new ≡ executed self.old }
        ensures signal { signal_at self.new p.0 ≡ signal_at self.old p.0 }
    {
        let regs = self.machine.processes.regs(p);
        if let Some(y) = self.machine.files.interrupt(p) {
            self.machine.processes.set_regs(p, Regs { y, ..regs });
        }
    }

    /// A process ends with this status, its paths are closed, and it no longer has a directory.
    pub(crate) fn end_process(&mut self, p: Pid, status: u8)
        requires lives { IsLiving self.old.machine.processes.table p.0 }
        requires process { p.0 < 33 }
        ensures tied { (m : Processes) → RepresentsProcesses self.old.machine.processes m
            → RepresentsProcesses self.new.machine.processes (ended m p.0 status) }
        ensures files { (views : List DriveView) (files : Files)
            → RepresentsFiles self.old.machine.files views files
            → RepresentsFiles self.new.machine.files views (files_ended files p.0) }
        ensures clock { self.new.clock ≡ self.old.clock }
        ensures chosen { self.new.chosen ≡ self.old.chosen }
        ensures executed { executed self.new ≡ executed self.old }
    {
        self.machine.processes.end(p, status);
        self.machine.files.end(p);
    }
}
