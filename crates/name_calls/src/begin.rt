//! New paths on files.

ghost use Rattle.std.specs.Prelude.{◌≡◌, List};
ghost use Rattle.proc_model.specs.Processes.{Processes};
ghost use Rattle.proc_model.specs.Records.{IsLiving};
ghost use Rattle.file_drives.specs.Drives.{DriveView};
ghost use Rattle.file_state.specs.Context.{InFirstAttempt};
ghost use Rattle.name_calls.specs.Ends.{EndsQuietly};
ghost use Rattle.name_calls.specs.Steps.{begins};
ghost use Rattle.file_rules.specs.Attempts.{asker_of};
ghost use Rattle.file_rules.specs.Files.{Files};
ghost use Rattle.file_state.specs.Tie.{RepresentsFiles};
ghost use Rattle.io_model.specs.PathList.{PathList};
ghost use Rattle.io_state.specs.Files.{IsOnDisk};
ghost use Rattle.os9_base.specs.declared.registers.TimePacket.{TimePacket};
ghost use Rattle.proc_state.specs.Tie.{RepresentsProcesses};

use file_state::machine::Machine;
use io_model::path::{PathsFull, Target};
use io_state::ends::{answer, refuse};
use io_state::requester::Requester;
use os9_base::call::CallEnd;
use os9_base::errors::E_PTHFUL;
use os9_base::registers::Regs;

/// Ends a call with a new path on a file or a directory, with the mode in A. Its number is in A
/// then, and X is past the path list, which ends before `next`. The call is refused with E$PthFul
/// exactly if the process's sixteen numbers or the 64 system paths are in use.
pub(crate) fn begin_on(machine: &mut Machine, by: Requester, target: Target, next: u32) -> CallEnd
    requires calls { InFirstAttempt by machine.old }
    requires disk { IsOnDisk target }
    ensures begins { (m : Processes) (was : Files) (now : TimePacket) (list : PathList)
        (views : List DriveView) → RepresentsProcesses machine.old.processes m
        → RepresentsFiles machine.old.files views was → list.next ≡ next
        → EndsQuietly (begins (asker_of m by.p.0 now) was list target)
        m was by.p.0 result machine.new.processes machine.new.files views }
    ensures lives { IsLiving machine.new.processes.table by.p.0 }
{
    match machine.files.io.begin_on_disk(by.p, target, by.regs.a) {
        Err(PathsFull) => refuse(&mut machine.files.io, by.p, E_PTHFUL),
        Ok(a) => {
            let x = (next % 65_536) as u16;
            answer(
                &mut machine.processes,
                &mut machine.files.io,
                by.p,
                Regs { a, x, ..by.regs },
            )
        }
    }
}
