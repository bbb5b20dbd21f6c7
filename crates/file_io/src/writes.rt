//! I$Write, I$WritLn and F$PErr (System Programmer's Manual, I$Write, I$WritLn and F$PErr).

ghost use Rattle.std.specs.Prelude.{◌≡◌, ◌≢◌, ◌+◌, ◌<◌, ◌≤◌, ◌^◌, false, IfSome, List, Ok, Some, length, option_map, take};
ghost use Rattle.io_state.specs.Context.{InCall, SameTerminals};
ghost use Rattle.file_state.specs.Context.{InFileCall, machine_seen};
ghost use Rattle.proc_model.specs.Processes.{Processes, cells_at};
ghost use Rattle.proc_model.specs.UserBytes.{user_bytes};
ghost use Rattle.file_io.specs.Calls.{f_perr_calls, granted_write_calls, i_writln_calls, i_write_calls, writing_attempt_calls};
ghost use Rattle.file_io.specs.Ending.{EndsWrite};
ghost use Rattle.file_io.specs.Opened.{IsOpenedPath, IsPathOf, MayBeWritten};
ghost use Rattle.file_io.specs.Sending.{IsSending, MayWriteFile};
ghost use Rattle.file_io.specs.Trying.{TriesFileStep, TriesGranted};
ghost use Rattle.file_io.specs.Writing.{line_of, write_file as write_file_model, write_granted as write_granted_model, write_opened as write_opened_model};
ghost use Rattle.file_drives.specs.Drives.{drives_seen};
ghost use Rattle.file_drives.specs.Mounted.{HasDataFileAt};
ghost use Rattle.file_rules.specs.declared.path_call.PathCall.TheVariants as Call;
ghost use Rattle.file_rules.specs.Locking.{call_of};
ghost use Rattle.file_state.specs.Asking.{MayBeGranted, KeepsRequest, MayAsk, TriesAgain};
ghost use Rattle.file_state.specs.Lacks.{TriesWithin};
ghost use Rattle.file_state.specs.Tie.{AreSoundFiles};
ghost use Rattle.io_model.specs.Io.{pending_at};
ghost use Rattle.io_model.specs.Write.{error_line as error_line_model};
ghost use Rattle.io_model.specs.declared.io_call.IoCall.TheVariants as Device;
ghost use Rattle.io_model.specs.declared.modes.TheConstants.{STANDARD_ERROR};
ghost use Rattle.lock_model.specs.Conflict.{conflicts};
ghost use Rattle.lock_model.specs.Locks.{request_of};
ghost use Rattle.os9_outer.specs.TerminalState.{TerminalState};
ghost use Rattle.proc_model.specs.Records.{IsLiving};
ghost use Rattle.proc_state.specs.Tie.{AreProcessesSame, RepresentsProcesses};

use crate::ends::answer_at;
use device_table::devices::Devices;
use file_rules::claim::Claim;
use file_state::asking::range_of;
use file_state::machine::Machine;
use file_state::state::{FileState, OpenFile};
use io_model::modes::can_write;
use io_state::ends::{answer, refuse};
use io_state::requester::Requester;
use lock_model::lock::{Held, Request};
use os9_base::call::CallEnd;
use os9_base::calls::{F_PERR, I_WRITE, I_WRITLN};
use os9_base::errors::{E_BMODE, E_BPADDR};
use os9_base::registers::{Pid, Regs};
use os9_outer::drive::BlockDriver;
use proc_state::state::ProcState;
use rbf_write::NewBytes;

/// The number of bytes in the line of an error.
const ERROR_LINE_BYTES: u16 = 11;

/// I$Write to a file on the path that the number in A names, at the time `by.time` (System
/// Programmer's Manual, I$Write). Takes the address of the bytes in X and their count in Y; returns
/// the count in Y. The position moves past the bytes written. If the write begins past the old end,
/// zeros fill the gap. The path then holds no lock (Level Two manual, RBF record locking). The call
/// waits if another process holds a byte of its range.
///
/// # Errors
///
/// E$BPAddr exactly if one of the bytes is in no named slot or past `FFFF`, else E$BMode exactly if
/// the path may not be written. If Y is 0, the write is done then. Else the number of the fault, if
/// the drive fails; E$Lock or E$DeadLk, as the request is answered; E$Full exactly if fewer
/// clusters are free than the write needs; E$SLF if the list of segments has no place for a chosen
/// cluster. `NoMemory` is returned only if the history had no room for the entry of a write that is
/// done.
pub fn write(
    machine: &mut Machine,
    devices: &mut Devices,
    by: Requester,
    opened: &OpenFile,
) -> CallEnd
    requires calls { InCall by machine.old.processes }
    requires again { TriesAgain Device.Write by.regs machine.old.files by.p.0 }
    requires sound { AreSoundFiles machine.old.files (drives_seen BlockDriver-box devices.old) }
    requires opened { IsOpenedPath machine.old.files by.p.0 by.regs.a opened.now }
    ensures call { (terms : List TerminalState)
        → TriesWithin i_write_calls Call.Write by.time by.p.0 result terms terms
        (machine_seen BlockDriver-box machine.old devices.old)
        (machine_seen BlockDriver-box machine.new devices.new) }
    ensures kept { SameTerminals by machine.new.processes devices.old devices.new }
{
    let regs = by.regs;
    if !machine.processes.read_bytes(by.p, regs.x, regs.y) {
        return refuse(&mut machine.files.io, by.p, E_BPADDR);
    }
    let sent = Sending {
        code: I_WRITE,
        count: regs.y,
        done: regs,
    };
    send(machine, devices, by, opened, sent)
}

/// I$WritLn to a file on the path that the number in A names, at the time `by.time` (System
/// Programmer's Manual, I$WritLn): as [`write`], but only up to and including the first carriage
/// return, and at most Y bytes.
///
/// # Errors
///
/// As [`write`]; only the bytes of the line have to be in named slots.
pub fn write_line(
    machine: &mut Machine,
    devices: &mut Devices,
    by: Requester,
    opened: &OpenFile,
) -> CallEnd
    requires calls { InCall by machine.old.processes }
    requires again { TriesAgain Device.WritLn by.regs machine.old.files by.p.0 }
    requires sound { AreSoundFiles machine.old.files (drives_seen BlockDriver-box devices.old) }
    requires opened { IsOpenedPath machine.old.files by.p.0 by.regs.a opened.now }
    ensures call { (terms : List TerminalState)
        → TriesWithin i_writln_calls Call.WritLn by.time by.p.0 result terms terms
        (machine_seen BlockDriver-box machine.old devices.old)
        (machine_seen BlockDriver-box machine.new devices.new) }
    ensures kept { SameTerminals by machine.new.processes devices.old devices.new }
{
    let regs = by.regs;
    match line_count(&mut machine.processes, &machine.files, by.p, regs) {
        None => refuse(&mut machine.files.io, by.p, E_BPADDR),
        Some(count) => {
            let sent = Sending {
                code: I_WRITLN,
                count,
                done: Regs { y: count, ..regs },
            };
            send(machine, devices, by, opened, sent)
        }
    }
}

/// How many bytes a line write moves, which are then at the front of the buffer: up to and with the
/// first carriage return, but as many as its first attempt found at a further one. None if one of
/// them is not there.
fn line_count(s: &mut ProcState, files: &FileState, p: Pid, regs: Regs) -> Option<u16>
    requires process { p.0 < 33 }
    requires kept { KeepsRequest files.now.io files.now.records.locks p.0 }
    ensures line { (m : Processes) → RepresentsProcesses s.old m → line_of
        (request_of files.now.records.locks p.0) (cells_at m p.0) regs
        ≡ option_map (λ count. take count s.new.buffer.items) result }
    ensures some { IfSome result (λ count. regs.y ≢ 0 → 0 < count) }
    ensures same { AreProcessesSame s.old s.new }
{
    match files.records.locks().request_of(p) {
        None => {
            let count = s.read_line(p, regs.x, regs.y)?;
            Some(count as u16)
        }
        Some(request) => pending_count(s, files, p, regs, request),
    }
}

/// How many bytes a line write moves that waits in a request: as many as its first attempt found.
fn pending_count(
    s: &mut ProcState,
    files: &FileState,
    p: Pid,
    regs: Regs,
    request: Request,
) -> Option<u16>
    requires process { p.0 < 33 }
    requires kept { pending_at files.now.io p.0 ≡ Some (call_of request) }
    ensures line { (m : Processes) → RepresentsProcesses s.old m
        → user_bytes (cells_at m p.0) regs.x request.count
        ≡ option_map (λ count. take count s.new.buffer.items) result }
    ensures some { IfSome result (λ count. 0 < count) }
    ensures same { AreProcessesSame s.old s.new }
{
    // A call that waits has a byte left to move.
    prove!(files.io.pending(p).is_some());
    if s.read_bytes(p, regs.x, request.count) {
        Some(request.count)
    } else {
        None
    }
}

/// F$PErr to a file on the path of standard error, at the time `by.time`: writes the number in
/// B as a line (System Programmer's Manual, F$PErr). The registers are unchanged.
///
/// # Errors
///
/// E$BMode exactly if the path may not be written. Else as [`write`].
pub fn write_error(
    machine: &mut Machine,
    devices: &mut Devices,
    by: Requester,
    opened: &OpenFile,
) -> CallEnd
    requires calls { InCall by machine.old.processes }
    requires again { TriesAgain Device.PErr by.regs machine.old.files by.p.0 }
    requires sound { AreSoundFiles machine.old.files (drives_seen BlockDriver-box devices.old) }
    requires opened { IsOpenedPath machine.old.files by.p.0 STANDARD_ERROR opened.now }
    ensures call { (terms : List TerminalState)
        → TriesWithin f_perr_calls Call.PErr by.time by.p.0 result terms terms
        (machine_seen BlockDriver-box machine.old devices.old)
        (machine_seen BlockDriver-box machine.new devices.new) }
    ensures kept { SameTerminals by machine.new.processes devices.old devices.new }
{
    if !can_write(opened.desc.mode) {
        return refuse(&mut machine.files.io, by.p, E_BMODE);
    }
    let regs = by.regs;
    put_error_line(&mut machine.processes, regs.b);
    let sent = Sending {
        code: F_PERR,
        count: ERROR_LINE_BYTES,
        done: regs,
    };
    write_file(machine, devices, by, opened, sent)
}

/// A write of the bytes at the front of the buffer: the code of its call, their count, and the
/// registers that it answers.
#[derive(Clone, Copy, Debug, PartialEq, Eq)]
struct Sending {
    code: u8,
    count: u16,
    done: Regs,
}

/// An attempt to write bytes at the front of the buffer.
fn send(
    machine: &mut Machine,
    devices: &mut Devices,
    by: Requester,
    opened: &OpenFile,
    sent: Sending,
) -> CallEnd
    requires calls { InFileCall by machine.old }
    requires file { MayBeWritten opened.now machine.old.files.disks
        (drives_seen BlockDriver-box devices.old) }
    requires may { MayWriteFile machine.old.files.io machine.old.files.records.locks by.p.0
        opened.now by.regs sent }
    ensures call { TriesFileStep (write_opened_model sent.code
        (take sent.count machine.old.processes.buffer.items))
        (writing_attempt_calls sent.count) opened.now by.time by.p.0 result
        (machine_seen BlockDriver-box machine.old devices.old)
        (machine_seen BlockDriver-box machine.new devices.new) }
    ensures kept { SameTerminals by machine.new.processes devices.old devices.new }
{
    if !can_write(opened.desc.mode) {
        return refuse(&mut machine.files.io, by.p, E_BMODE);
    }
    let regs = by.regs;
    if regs.y == 0 {
        return answer(&mut machine.processes, &mut machine.files.io, by.p, regs);
    }
    write_file(machine, devices, by, opened, sent)
}

/// An attempt to write bytes at the front of the buffer, on a path that may be written: it requests
/// the range that it writes.
fn write_file(
    machine: &mut Machine,
    devices: &mut Devices,
    by: Requester,
    opened: &OpenFile,
    sent: Sending,
) -> CallEnd
    requires calls { InFileCall by machine.old }
    requires asks { MayAsk machine.old.files.io machine.old.files.records.locks by.p.0 opened.now }
    requires sends { IsSending sent }
    requires file { HasDataFileAt machine.old.files.disks
        (drives_seen BlockDriver-box devices.old) opened.now.place }
    ensures call { TriesFileStep (write_file_model sent.code
        (take sent.count machine.old.processes.buffer.items) sent.done)
        (writing_attempt_calls sent.count) opened.now by.time by.p.0 result
        (machine_seen BlockDriver-box machine.old devices.old)
        (machine_seen BlockDriver-box machine.new devices.new) }
    ensures kept { SameTerminals by machine.new.processes devices.old devices.new }
{
    let size = match machine.files.disks.size(devices, opened.place) {
        Ok(size) => size,
        Err(fault) => return refuse(&mut machine.files.io, by.p, fault.number()),
    };
    let claim = Claim {
        code: sent.code,
        count: sent.count,
        range: range_of(size, opened.desc.at, u32::from(sent.count)),
    };
    let tick = machine.processes.tick;
    let request = machine.files.request_now(by.p, opened, claim, tick);
    if let Some(end) = machine.files.ask(by.p, request, tick) {
        return end;
    }
    let writing = LockedWrite {
        sent,
        lock: request.lock,
    };
    write_granted(machine, devices, by, opened, writing)
}

/// A write of the bytes at the front of the buffer, and the lock that it was granted.
#[derive(Clone, Copy, Debug, PartialEq, Eq)]
struct LockedWrite {
    sent: Sending,
    lock: Held,
}

/// A write at the start of the lock that it was granted. The path then holds no lock.
fn write_granted(
    machine: &mut Machine,
    devices: &mut Devices,
    by: Requester,
    opened: &OpenFile,
    writing: LockedWrite,
) -> CallEnd
    requires calls { InFileCall by machine.old }
    requires path { IsPathOf machine.old.files.io opened.now }
    requires file { HasDataFileAt machine.old.files.disks
        (drives_seen BlockDriver-box devices.old) opened.now.place }
    requires granted { MayBeGranted machine.old.files.records.locks writing.lock }
    ensures call { TriesGranted (write_granted_model writing.lock
        (take writing.sent.count machine.old.processes.buffer.items) writing.sent.done)
        (granted_write_calls writing.lock writing.sent.count) opened.now by.time by.p.0 result
        (machine_seen BlockDriver-box machine.old devices.old)
        (machine_seen BlockDriver-box machine.new devices.new) }
    ensures kept { SameTerminals by machine.new.processes devices.old devices.new }
{
    let processes = &machine.processes;
    let bytes = &processes.buffer[..writing.sent.count as usize];
    let write = NewBytes {
        at: writing.lock.range.start,
        bytes,
        date: by.time,
    };
    let disks = &mut machine.files.disks;
    match disks.write_at(devices, opened.place, write) {
        Ok(()) => enter_write(machine, by, opened, writing),
        Err(fault) => refuse(&mut machine.files.io, by.p, fault.number()),
    }
}

/// Enters a write of the bytes at the front of the buffer in the history, and answers it.
fn enter_write(
    machine: &mut Machine,
    by: Requester,
    opened: &OpenFile,
    writing: LockedWrite,
) -> CallEnd
    requires calls { InFileCall by machine.old }
    requires path { IsPathOf machine.old.files.io opened.now }
    requires free { conflicts machine.old.files.records.locks writing.lock ≡ false }
    requires fits { writing.lock.range.start + writing.sent.count < 2 ^ 32 }
    ensures call { (m : Processes) → RepresentsProcesses machine.old.processes m → EndsWrite (Ok tt)
        writing.lock
        (take writing.sent.count machine.old.processes.buffer.items) writing.sent.done opened.now m
        by.p.0 machine.old.files result machine.new.processes machine.new.files }
    ensures lives { IsLiving machine.new.processes.table by.p.0 }
{
    let LockedWrite { sent, lock } = writing;
    let processes = &machine.processes;
    let bytes = &processes.buffer[..sent.count as usize];
    let records = &mut machine.files.records;
    if records.write(opened.path.0, lock, bytes).is_err() {
        return CallEnd::NoMemory;
    }
    let at = lock.range.start + u32::from(sent.count);
    answer_at(machine, by, sent.done, opened, at)
}

/// Puts the line of the number of an error at the front of the buffer.
fn put_error_line(s: &mut ProcState, number: u8)
    ensures line { take ERROR_LINE_BYTES s.new.buffer.items ≡ error_line_model number }
    ensures same { AreProcessesSame s.old s.new }
{
    put_line(&mut s.buffer, number);
}

/// The same at the front of the given buffer.
fn put_line(into: &mut [u8], number: u8)
    requires room { ERROR_LINE_BYTES ≤ length into.old }
    ensures line { take ERROR_LINE_BYTES into.new ≡ error_line_model number }
    ensures room { length into.new ≡ length into.old }
{
    into[..ERROR_LINE_BYTES as usize].copy_from_slice(&error_line(number));
}

/// The line of the number of an error.
fn error_line(number: u8) -> [u8; 11]
    ensures { result ≡ error_line_model number }
{
    [
        b'E',
        b'R',
        b'R',
        b'O',
        b'R',
        b' ',
        b'#',
        b'0' + number / 100,
        b'0' + number / 10 % 10,
        b'0' + number % 10,
        0x0D,
    ]
}
