//! Attempts on terminals (Level Two manual, SCF).

ghost use Rattle.std.specs.Prelude.{◌≡◌, ◌<◌, ◌≤◌, take, vec_len};
ghost use Rattle.os9_base.specs.Cells.{FitsIn};
ghost use Rattle.proc_model.specs.Records.{IsLiving};
ghost use Rattle.proc_model.specs.Processes.{Processes};
ghost use Rattle.guest_memory.specs.Tie.{cells_of};
ghost use Rattle.io_model.specs.Attempts.{caller_of};
ghost use Rattle.io_model.specs.Step.{TerminalRead};
ghost use Rattle.io_model.specs.Terminals.{read_ends};
ghost use Rattle.io_state.specs.Terminals.{MayReadTerminal, count_of};
ghost use Rattle.proc_state.specs.Tie.{RepresentsProcesses};
ghost use Rattle.io_state.specs.Context.{InCall, SameDrives};
ghost use Rattle.device_io.specs.Moving.{read_terminal as read_terminal_model};
ghost use Rattle.device_io.specs.Streams.{streams};
ghost use Rattle.device_io.specs.Trying.{EndsBy, TriesIoStepFrom};

use device_table::devices::Devices;
use io_model::terminal::{Progress, TYPE_AHEAD};
use io_state::requester::Requester;
use io_state::state::IoState;
use io_state::terminal_calls::AttemptedRead;
use os9_base::call::CallEnd;
use os9_base::errors::{E_EOF, E_WRITE};
use os9_base::registers::Regs;
use os9_outer::terminal::CharDriver;
use proc_state::state::ProcState;

/// An attempt of a read of a terminal, whose buffer at X must be in named slots. It is done with a
/// line or with the last byte that it asks for, at most 256. The bytes are stored at X and counted
/// in Y. It waits before that.
///
/// # Errors
///
/// E$EOF at the end of the file, and E$Write if the terminal failed to put an echo.
pub(crate) fn read_terminal(
    s: &mut ProcState,
    io: &mut IoState,
    devices: &mut Devices,
    by: Requester,
    read: AttemptedRead,
) -> CallEnd
    requires calls { InCall by s.old }
    requires named { FitsIn (cells_of s.old.memory by.p.0) by.regs.x read.call.count }
    requires may { MayReadTerminal io.old by.p.0 read.terminal read.kind read.call }
    requires there { read.terminal < vec_len devices.old.terms }
    ensures call { TriesIoStepFrom (read_terminal_model read.kind read.terminal read.call) by
        result s.old s.new
        (streams CharDriver-box io.old devices.old) (streams CharDriver-box io.new devices.new) }
    ensures kept { SameDrives by s.new devices.old devices.new }
{
    let mut bytes = [0; TYPE_AHEAD];
    let answer = io.read_terminal(by.p, read, &mut bytes, devices);
    end_read(s, by, answer, &bytes)
}

/// Ends a read of a terminal by the terminal's answer. The bytes that it moved are at the front of
/// the buffer.
fn end_read(s: &mut ProcState, by: Requester, answer: Progress, bytes: &[u8; TYPE_AHEAD]) -> CallEnd
    requires calls { InCall by s.old }
    requires named { FitsIn (cells_of s.old.memory by.p.0) by.regs.x (count_of answer) }
    requires room { count_of answer ≤ 256 }
    ensures ends { (m : Processes) (read : TerminalRead) → RepresentsProcesses s.old m
        → EndsBy (read_ends (caller_of m by.p.0) read answer) by.regs.x
        (take (count_of answer) bytes.now) m by.p.0 result s.new }
    ensures lives { IsLiving s.new.table by.p.0 }
{
    match answer {
        Progress::Done(count) => {
            s.store(by.p, by.regs.x, &bytes[..count as usize]);
            s.set_regs(
                by.p,
                Regs {
                    y: count,
                    ..by.regs
                },
            );
            CallEnd::Done
        }
        Progress::Wait => CallEnd::Wait,
        Progress::End => CallEnd::Error(E_EOF),
        Progress::Fault => CallEnd::Error(E_WRITE),
        Progress::NoMemory => CallEnd::NoMemory,
    }
}
