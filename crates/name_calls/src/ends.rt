//! The ends of calls that return the address past their path list.

ghost use Rattle.std.specs.Prelude.{ℕ, List};
ghost use Rattle.proc_model.specs.Processes.{Processes};
ghost use Rattle.file_drives.specs.Drives.{DriveView};
ghost use Rattle.file_rules.specs.Attempts.{asker_of};
ghost use Rattle.file_rules.specs.Files.{Files};
ghost use Rattle.file_rules.specs.Step.{FileStep};
ghost use Rattle.file_state.specs.Ends.{EndsFileAttempt};
ghost use Rattle.file_state.specs.Context.{InFirstAttempt};
ghost use Rattle.name_calls.specs.Tries.{TriesNameCall};
ghost use Rattle.os9_base.specs.declared.registers.TimePacket.{TimePacket};
ghost use Rattle.os9_outer.specs.TerminalState.{TerminalState};
ghost use Rattle.proc_model.specs.Records.{IsLiving};
ghost use Rattle.proc_state.specs.Tie.{RepresentsProcesses};

use file_state::machine::Machine;
use io_state::ends::{answer, refuse};
use io_state::requester::Requester;
use os9_base::call::CallEnd;
use os9_base::registers::Regs;

/// Ends the call of a process. `came` is the address past its path list, to which X is set, or the
/// number of its error. Nothing is kept of the call.
pub(crate) fn end_call(machine: &mut Machine, by: Requester, came: Result<u32, u8>) -> CallEnd
    requires calls { InFirstAttempt by machine.old }
    ensures ends { (step : FileStep) (most : ℕ) (m : Processes) (was : Files) (now : TimePacket)
        (terms : List TerminalState) (before views : List DriveView)
        → RepresentsProcesses machine.old.processes m
        → TriesNameCall step most (asker_of m by.p.0 now) was came machine.old.files before views
        → EndsFileAttempt step most m was now by.p.0 result machine.new.processes machine.new.files
        before views terms }
    ensures lives { IsLiving machine.new.processes.table by.p.0 }
{
    match came {
        Err(number) => refuse(&mut machine.files.io, by.p, number),
        Ok(next) => {
            let x = (next % 65_536) as u16;
            let regs = Regs { x, ..by.regs };
            answer(&mut machine.processes, &mut machine.files.io, by.p, regs)
        }
    }
}
