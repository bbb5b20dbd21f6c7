//! I$Seek (System Programmer's Manual, I$Seek).

ghost use Rattle.std.specs.Prelude.{List};
ghost use Rattle.file_state.specs.Context.{InFileCall, on_drives};
ghost use Rattle.proc_model.specs.Processes.{Processes};
ghost use Rattle.file_io.specs.Calls.{i_seek_calls};
ghost use Rattle.file_io.specs.Opened.{IsOpenedPath};
ghost use Rattle.file_drives.specs.Drives.{DriveView};
ghost use Rattle.file_rules.specs.Seek.{seeks_nothing};
ghost use Rattle.file_rules.specs.declared.path_call.PathCall.TheVariants as Call;
ghost use Rattle.file_state.specs.Counted.{AttemptsWithin};
ghost use Rattle.io_model.specs.Attempts.{caller_of};
ghost use Rattle.os9_base.specs.declared.registers.TimePacket.{TimePacket};
ghost use Rattle.os9_outer.specs.TerminalState.{TerminalState};
ghost use Rattle.device_paths.specs.Quiet.{EndsIoAttempt};
ghost use Rattle.proc_model.specs.Records.{IsLiving};
ghost use Rattle.proc_state.specs.Tie.{RepresentsProcesses};
ghost use Rattle.io_state.specs.Sound.{ReadsNoTerminal};

use crate::ends::answer_at;
use file_state::long::long_of;
use file_state::machine::Machine;
use file_state::state::OpenFile;
use io_state::ends::{answer, refuse};
use io_state::requester::Requester;
use io_state::state::IoState;
use os9_base::call::CallEnd;
use os9_base::errors::E_BPNUM;
use os9_base::registers::Pid;
use proc_state::state::ProcState;

/// I$Seek on a file or a directory, on the path that the number in A names (System Programmer's
/// Manual, I$Seek): sets the position of the path, which may be past the end. Takes the position in
/// X, its high half, and U. It reaches no drive and is never refused.
pub fn seek(machine: &mut Machine, by: Requester, opened: &OpenFile) -> CallEnd
    requires calls { InFileCall by machine.old }
    requires opened { IsOpenedPath machine.old.files by.p.0 by.regs.a opened.now }
    ensures call { (now : TimePacket) (views : List DriveView) (terms : List TerminalState)
        → AttemptsWithin i_seek_calls Call.Seek now by.p.0 result terms terms
        (on_drives machine.old views) (on_drives machine.new views) }
    ensures lives { IsLiving machine.new.processes.table by.p.0 }
{
    answer_at(machine, by, by.regs, opened, long_of(by.regs))
}

/// I$Seek on a terminal or a pipe, which has no position: it does nothing.
///
/// # Errors
///
/// E$BPNum exactly if the number in A names no path.
pub fn seek_nothing(s: &mut ProcState, io: &mut IoState, p: Pid) -> CallEnd
    requires lives { IsLiving s.old.table p.0 }
    requires no_read { ReadsNoTerminal io.old p.0 }
    ensures call { (m : Processes) → RepresentsProcesses s.old m
        → EndsIoAttempt (seeks_nothing (caller_of m p.0) io.old) m io.old p.0 result s.new io.new }
    ensures lives { IsLiving s.new.table p.0 }
{
    let regs = s.table.regs(p);
    if io.open_path(p, regs.a).is_none() {
        return refuse(io, p, E_BPNUM);
    }
    answer(s, io, p, regs)
}
