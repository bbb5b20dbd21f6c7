//! Calls that use an open path, by what it was opened on.

ghost use Rattle.std.specs.Prelude.{List, vec_len};
ghost use Rattle.io_state.specs.Context.{AsManyTerminals, InCall, SameTerminals};
ghost use Rattle.file_state.specs.Context.{InFirstAttempt, on_drives, machine_seen};
ghost use Rattle.file_io.specs.Opened.{IsOpenedPath};
ghost use Rattle.call_dispatch.specs.Attempts.{TriesAt, TriesFileAt, TriesPathCallFrom};
ghost use Rattle.call_dispatch.specs.Bounds.{attempt_calls};
ghost use Rattle.call_dispatch.specs.Uses.{call_of, device_of};
ghost use Rattle.file_drives.specs.Drives.{DriveView, drives_seen};
ghost use Rattle.file_rules.specs.declared.path_call.PathCall.TheVariants as Call;
ghost use Rattle.file_state.specs.Asking.{KeepsRequest, TriesAgain};
ghost use Rattle.file_state.specs.Counted.{AttemptsWithin};
ghost use Rattle.file_state.specs.Tie.{AreSoundFiles};
ghost use Rattle.call_dispatch.specs.Staying.{MayAttemptIo};
ghost use Rattle.io_model.specs.Again.{path_number};
ghost use Rattle.os9_base.specs.declared.registers.TimePacket.{TimePacket};
ghost use Rattle.os9_outer.specs.TerminalState.{TerminalState};
ghost use Rattle.device_table.specs.Seen.{terminals_seen};
ghost use Rattle.proc_model.specs.Records.{IsLiving};

use crate::device::attempt_on_device;
use crate::path_use::PathUse;
use device_table::devices::Devices;
use file_io::reads::{read, read_line};
use file_io::seeks::{seek, seek_nothing};
use file_io::writes::{write, write_error, write_line};
use file_state::machine::Machine;
use file_state::state::OpenFile;
use file_status::gets::get_status;
use file_status::sets::set_status;
use io_model::io_call::IoCall;
use io_state::requester::Requester;
use os9_base::call::CallEnd;
use os9_outer::drive::BlockDriver;
use os9_outer::terminal::CharDriver;

/// An attempt, at the time `by.time`, of a call that uses an open path, by a living process
/// (System Programmer's Manual, "I/O service requests"). A path on a file or a directory uses the
/// call of files, any other the call of terminals and pipes. If a call of the process is pending,
/// this is a further attempt of it. `NoMemory` is returned only if there was no memory for a byte
/// that is put on a terminal, or for an entry of the history.
///
/// # Errors
///
/// Those of the calls, in the order of their definitions.
pub fn use_path(
    machine: &mut Machine,
    devices: &mut Devices,
    by: Requester,
    call: PathUse,
) -> CallEnd
    requires calls { InCall by machine.old.processes }
    requires may { MayAttemptIo (device_of call) machine.old.processes machine.old.files.io by.p.0
        (vec_len devices.old.terms) }
    requires kept { KeepsRequest machine.old.files.io machine.old.files.records.locks by.p.0 }
    requires sound { AreSoundFiles machine.old.files (drives_seen BlockDriver-box devices.old) }
    ensures call { TriesAt (call_of call) by.time by.p.0 result
        (terminals_seen CharDriver-box devices.old) (terminals_seen CharDriver-box devices.new)
        (machine_seen BlockDriver-box machine.old devices.old)
        (machine_seen BlockDriver-box machine.new devices.new) }
    ensures kept { AsManyTerminals by machine.new.processes devices.old devices.new }
{
    match machine.files.open_file(by.p, call.path_number(by.regs)) {
        Some(opened) => use_file(machine, devices, by, call, &opened),
        None => {
            // SS.Size and SS.Lock wait on files alone.
            prove!(machine.files.io.pending(by.p).is_none() || call != PathUse::SetStt);
            attempt_on_device(machine, devices, by, call.on_device())
        }
    }
}

/// The call on the file or directory that the number of its path names.
fn use_file(
    machine: &mut Machine,
    devices: &mut Devices,
    by: Requester,
    call: PathUse,
    opened: &OpenFile,
) -> CallEnd
    requires calls { InCall by machine.old.processes }
    requires again { TriesAgain (device_of call) by.regs machine.old.files by.p.0 }
    requires sound { AreSoundFiles machine.old.files (drives_seen BlockDriver-box devices.old) }
    requires opened { IsOpenedPath machine.old.files by.p.0 (path_number (device_of call) by.regs)
        opened.now }
    ensures call { TriesFileAt (call_of call) by.time by.p.0 result
        (machine_seen BlockDriver-box machine.old devices.old)
        (machine_seen BlockDriver-box machine.new devices.new) }
    ensures kept { SameTerminals by machine.new.processes devices.old devices.new }
{
    match call {
        PathUse::Read => read(machine, devices, by, opened),
        PathUse::ReadLn => read_line(machine, devices, by, opened),
        PathUse::Write => write(machine, devices, by, opened),
        PathUse::WritLn => write_line(machine, devices, by, opened),
        PathUse::GetStt => {
            // A call that asks for a status is at its first attempt.
            prove!(machine.files.io.pending(by.p).is_none());
            get_status(machine, devices, by, opened)
        }
        PathUse::SetStt => set_status(machine, devices, by, opened),
        PathUse::PErr => write_error(machine, devices, by, opened),
    }
}

/// An attempt of I$Seek by a living process (System Programmer's Manual, I$Seek). It sets the
/// position of the path in A if the path is on a file or a directory, and does nothing otherwise.
/// It reaches no drive.
///
/// # Errors
///
/// E$BPNum exactly if A names no path.
pub fn seek_path(machine: &mut Machine, by: Requester) -> CallEnd
    requires calls { InFirstAttempt by machine.old }
    ensures call { (now : TimePacket) (views : List DriveView) (terms : List TerminalState)
        → AttemptsWithin (attempt_calls Call.Seek) Call.Seek now by.p.0 result terms terms
        (on_drives machine.old views) (on_drives machine.new views) }
    ensures lives { IsLiving machine.new.processes.table by.p.0 }
{
    match machine.files.open_file(by.p, by.regs.a) {
        Some(opened) => seek(machine, by, &opened),
        None => {
            machine.files.records.cancel(by.p);
            seek_nothing(&mut machine.processes, &mut machine.files.io, by.p)
        }
    }
}

/// An attempt of I$Close by a living process (System Programmer's Manual, I$Close): it closes the
/// number in A. The path goes with its last number, and that of a file with its lock.
///
/// # Errors
///
/// E$BPNum exactly if A names no path.
pub fn close_path(machine: &mut Machine, devices: &mut Devices, by: Requester) -> CallEnd
    requires calls { InCall by machine.old.processes }
    requires may { MayAttemptIo IoCall.Close machine.old.processes machine.old.files.io by.p.0
        (vec_len devices.old.terms) }
    ensures call { (now : TimePacket) → TriesPathCallFrom Call.Close now by.p.0 result
        (terminals_seen CharDriver-box devices.old) (terminals_seen CharDriver-box devices.new)
        (machine_seen BlockDriver-box machine.old devices.old)
        (machine_seen BlockDriver-box machine.new devices.new) }
    ensures kept { AsManyTerminals by machine.new.processes devices.old devices.new }
{
    // A call that closes a path is at its first attempt.
    prove!(machine.files.io.pending(by.p).is_none());
    let regs = by.regs;
    match machine.files.open_file(by.p, regs.a) {
        Some(opened) => {
            machine.files.close_file(by.p, regs.a, opened.path);
            machine.processes.set_regs(by.p, regs);
            CallEnd::Done
        }
        None => attempt_on_device(machine, devices, by, IoCall::Close),
    }
}
