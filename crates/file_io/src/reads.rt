//! I$Read and I$ReadLn (System Programmer's Manual, I$Read and I$ReadLn).

ghost use Rattle.std.specs.Prelude.{◌≡◌, ◌+◌, ◌<◌, ◌≤◌, ◌^◌, List, length, take};
ghost use Rattle.io_model.specs.Read.{read_code};
ghost use Rattle.io_state.specs.Context.{InCall, SameTerminals};
ghost use Rattle.file_state.specs.Context.{InFileCall, machine_seen};
ghost use Rattle.proc_model.specs.Processes.{Processes};
ghost use Rattle.file_io.specs.Calls.{granted_read_calls, i_read_calls, reading_attempt_calls};
ghost use Rattle.file_io.specs.Ending.{EndsFound, GivesLocked};
ghost use Rattle.file_io.specs.Opened.{IsOnFile, IsOpenedPath, IsPathOf};
ghost use Rattle.file_io.specs.Reading as model;
ghost use Rattle.file_io.specs.Reading.{HasBufferForLock, IsBuffer, MayReadFile, MayUpdate, part_of};
ghost use Rattle.file_io.specs.Trying.{TriesAlways, TriesGranted};
ghost use Rattle.file_rules.specs.Read.{line_range, lock_by};
ghost use Rattle.file_rules.specs.declared.path_call.PathCall.TheVariants as Call;
ghost use Rattle.file_state.specs.Asking.{MayBeGranted, TriesAgain};
ghost use Rattle.file_state.specs.Lacks.{TriesWithin};
ghost use Rattle.file_state.specs.Tie.{AreSoundFiles};
ghost use Rattle.guest_memory.specs.Tie.{cells_of};
ghost use Rattle.io_model.specs.declared.io_call.IoCall.TheVariants as Device;
ghost use Rattle.os9_base.specs.Cells.{FitsIn};
ghost use Rattle.os9_base.specs.declared.registers.TimePacket.{TimePacket};
ghost use Rattle.os9_outer.specs.TerminalState.{TerminalState};
ghost use Rattle.proc_model.specs.Records.{IsLiving};
ghost use Rattle.file_drives.specs.Drives.{drives_seen};
ghost use Rattle.proc_state.specs.Tie.{RepresentsProcesses};

use crate::ends::answer_at;
use crate::loading::{FilePart, has_return, load, part_length, store_front};
use crate::modes::is_for_update;
use device_table::devices::Devices;
use file_rules::claim::Claim;
use file_state::asking::range_of;
use file_state::machine::Machine;
use file_state::state::OpenFile;
use io_model::modes::can_read;
use io_model::terminal::ReadKind;
use io_state::ends::{answer, refuse};
use io_state::requester::Requester;
use lock_model::lock::{Held, Range};
use os9_base::call::CallEnd;
use os9_base::calls::{I_READ, I_READLN};
use os9_base::errors::{E_BMODE, E_BPADDR, E_EOF};
use os9_base::registers::Regs;
use os9_outer::drive::BlockDriver;

/// I$Read of a file or a directory on the path that the number in A names (System Programmer's
/// Manual, I$Read). Takes the address of the buffer in X and its size in bytes in Y; returns the
/// count in Y. The position moves past the bytes read. A path that may be written too then holds
/// the bytes that were asked for (Level Two manual, RBF record locking); the call waits for them if
/// another process holds one of them.
///
/// # Errors
///
/// E$BPAddr exactly if a byte of the buffer is in no named slot or past `FFFF`, else E$BMode
/// exactly if the path may not be read. If Y is 0, the read is done then. Else the number of the
/// fault, if the drive fails, or E$EOF exactly if the position is at or past the end; on a path
/// that may be written too E$Lock or E$DeadLk, as the request is answered. Nothing is stored then.
/// `NoMemory` is returned only if the history had no room for an entry.
pub fn read(
    machine: &mut Machine,
    devices: &mut Devices,
    by: Requester,
    opened: &OpenFile,
) -> CallEnd
    requires calls { InCall by machine.old.processes }
    requires again { TriesAgain Device.Read by.regs machine.old.files by.p.0 }
    requires sound { AreSoundFiles machine.old.files (drives_seen BlockDriver-box devices.old) }
    requires opened { IsOpenedPath machine.old.files by.p.0 by.regs.a opened.now }
    ensures call { (now : TimePacket) (terms : List TerminalState)
        → TriesWithin i_read_calls Call.Read now by.p.0 result terms terms
        (machine_seen BlockDriver-box machine.old devices.old)
        (machine_seen BlockDriver-box machine.new devices.new) }
    ensures kept { SameTerminals by machine.new.processes devices.old devices.new }
{
    read_opened(machine, devices, by, opened, ReadKind::Bytes)
}

/// I$ReadLn of a file or a directory on the path that the number in A names (System Programmer's
/// Manual, I$ReadLn): as [`read`], but only up to and including the first carriage return.
///
/// # Errors
///
/// As [`read`].
pub fn read_line(
    machine: &mut Machine,
    devices: &mut Devices,
    by: Requester,
    opened: &OpenFile,
) -> CallEnd
    requires calls { InCall by machine.old.processes }
    requires again { TriesAgain Device.ReadLn by.regs machine.old.files by.p.0 }
    requires sound { AreSoundFiles machine.old.files (drives_seen BlockDriver-box devices.old) }
    requires opened { IsOpenedPath machine.old.files by.p.0 by.regs.a opened.now }
    ensures call { (now : TimePacket) (terms : List TerminalState)
        → TriesWithin i_read_calls Call.ReadLn now by.p.0 result terms terms
        (machine_seen BlockDriver-box machine.old devices.old)
        (machine_seen BlockDriver-box machine.new devices.new) }
    ensures kept { SameTerminals by machine.new.processes devices.old devices.new }
{
    read_opened(machine, devices, by, opened, ReadKind::WholeLine)
}

/// An attempt of a read of this kind.
fn read_opened(
    machine: &mut Machine,
    devices: &mut Devices,
    by: Requester,
    opened: &OpenFile,
    kind: ReadKind,
) -> CallEnd
    requires calls { InFileCall by machine.old }
    requires may { MayReadFile machine.old.files.io machine.old.files.records.locks by.p.0
        opened.now by.regs }
    requires opened { IsOnFile opened.now (machine_seen BlockDriver-box machine.old devices.old) }
    ensures call { TriesAlways (model.read_opened kind) reading_attempt_calls opened.now by.p.0
        result
        (machine_seen BlockDriver-box machine.old devices.old)
        (machine_seen BlockDriver-box machine.new devices.new) }
    ensures kept { SameTerminals by machine.new.processes devices.old devices.new }
{
    let regs = by.regs;
    if !machine.processes.is_named(by.p, regs.x, regs.y) {
        return refuse(&mut machine.files.io, by.p, E_BPADDR);
    }
    if !can_read(opened.desc.mode) {
        return refuse(&mut machine.files.io, by.p, E_BMODE);
    }
    if regs.y == 0 {
        return answer(&mut machine.processes, &mut machine.files.io, by.p, regs);
    }
    if is_for_update(opened.desc.mode) {
        return read_for_update(machine, devices, by, opened, kind);
    }
    let part = FilePart {
        place: opened.place,
        at: opened.desc.at,
        most: regs.y,
    };
    match load(
        &mut machine.processes,
        &mut machine.files.disks,
        devices,
        part,
    ) {
        Ok(count) => give(machine, by, opened, kind, count),
        Err(fault) => refuse(&mut machine.files.io, by.p, fault.number()),
    }
}

/// An attempt of a read that has a byte to move, on a path that may be read and written. It
/// requests its bytes, and the path holds them once they are granted.
fn read_for_update(
    machine: &mut Machine,
    devices: &mut Devices,
    by: Requester,
    opened: &OpenFile,
    kind: ReadKind,
) -> CallEnd
    requires calls { InFileCall by machine.old }
    requires may { MayUpdate machine.old.files.io machine.old.files.records.locks by.p.0 opened.now
        by.regs }
    requires opened { IsOnFile opened.now (machine_seen BlockDriver-box machine.old devices.old) }
    requires buffer { IsBuffer (cells_of machine.old.processes.memory by.p.0) by.regs }
    ensures call { TriesAlways (model.read_file kind) reading_attempt_calls opened.now by.p.0 result
        (machine_seen BlockDriver-box machine.old devices.old)
        (machine_seen BlockDriver-box machine.new devices.new) }
    ensures kept { SameTerminals by machine.new.processes devices.old devices.new }
{
    let size = match machine.files.disks.size(devices, opened.place) {
        Ok(size) => size,
        Err(fault) => return refuse(&mut machine.files.io, by.p, fault.number()),
    };
    let at = machine.files.position(by.p, opened);
    if size <= at {
        return refuse(&mut machine.files.io, by.p, E_EOF);
    }
    let claim = Claim {
        code: code_of(kind),
        count: by.regs.y,
        range: range_of(size, at, u32::from(by.regs.y)),
    };
    let tick = machine.processes.tick;
    let request = machine.files.request_now(by.p, opened, claim, tick);
    if let Some(end) = machine.files.ask(by.p, request, tick) {
        return end;
    }
    let reading = LockedRead {
        kind,
        lock: request.lock,
    };
    read_granted(machine, devices, by, opened, reading)
}

/// The code of a read.
fn code_of(kind: ReadKind) -> u8
    ensures { result ≡ read_code kind }
{
    match kind {
        ReadKind::Bytes => I_READ,
        ReadKind::WholeLine => I_READLN,
    }
}

/// A read of this kind under the lock that it was granted.
#[derive(Clone, Copy, Debug, PartialEq, Eq)]
struct LockedRead {
    kind: ReadKind,
    lock: Held,
}

/// A read from the start of the lock that it was granted, which its path then holds. Of a whole
/// line it holds the line alone.
fn read_granted(
    machine: &mut Machine,
    devices: &mut Devices,
    by: Requester,
    opened: &OpenFile,
    reading: LockedRead,
) -> CallEnd
    requires calls { InFileCall by machine.old }
    requires opened { IsOnFile opened.now (machine_seen BlockDriver-box machine.old devices.old) }
    requires granted { MayBeGranted machine.old.files.records.locks reading.lock }
    requires room { HasBufferForLock (cells_of machine.old.processes.memory by.p.0) by.regs
        reading.lock }
    ensures call { (now : TimePacket) → TriesGranted (model.read_granted reading.kind reading.lock)
        (granted_read_calls reading.lock) opened.now now by.p.0 result
        (machine_seen BlockDriver-box machine.old devices.old)
        (machine_seen BlockDriver-box machine.new devices.new) }
    ensures kept { SameTerminals by machine.new.processes devices.old devices.new }
{
    let part = FilePart {
        place: opened.place,
        at: reading.lock.range.start,
        most: by.regs.y,
    };
    match load(
        &mut machine.processes,
        &mut machine.files.disks,
        devices,
        part,
    ) {
        Ok(count) => give_locked(machine, by, opened, reading, count),
        Err(fault) => refuse(&mut machine.files.io, by.p, fault.number()),
    }
}

/// Gives a process what a read takes of `count` bytes at the front of the buffer, under the lock
/// that it was granted.
fn give_locked(
    machine: &mut Machine,
    by: Requester,
    opened: &OpenFile,
    reading: LockedRead,
    count: u16,
) -> CallEnd
    requires calls { InFileCall by machine.old }
    requires path { IsPathOf machine.old.files.io opened.now }
    requires granted { MayBeGranted machine.old.files.records.locks reading.lock }
    requires room { HasBufferForLock (cells_of machine.old.processes.memory by.p.0) by.regs
        reading.lock }
    requires few { count ≤ by.regs.y }
    requires fits { reading.lock.range.start + count < 2 ^ 32 }
    ensures call { (m : Processes) → RepresentsProcesses machine.old.processes m
        → GivesLocked reading.kind reading.lock
        (part_of reading.kind (take count machine.old.processes.buffer.items)) by.regs opened.now m
        by.p.0 machine.old.files result machine.new.processes machine.new.files }
    ensures lives { IsLiving machine.new.processes.table by.p.0 }
{
    let regs = by.regs;
    let LockedRead { kind, lock } = reading;
    let processes = &machine.processes;
    let y = part_length(kind, &processes.buffer[..count as usize]);
    let bytes = &processes.buffer[..y];
    let held = lock_of_read(kind, lock, bytes);
    let records = &mut machine.files.records;
    if records.hold(opened.path.0, held, bytes).is_err() {
        return CallEnd::NoMemory;
    }
    let y = y as u16;
    store_front(&mut machine.processes, by.p, regs.x, y);
    let at = lock.range.start + u32::from(y);
    answer_at(machine, by, Regs { y, ..regs }, opened, at)
}

/// The lock of a read that took these bytes: of a whole line that ended, the line alone.
fn lock_of_read(kind: ReadKind, lock: Held, bytes: &[u8]) -> Held
    requires fits { lock.range.start + length bytes.now < 2 ^ 32 }
    ensures { result ≡ lock_by kind lock bytes.now }
{
    match kind {
        ReadKind::Bytes => lock,
        ReadKind::WholeLine => lock_of_line(lock, bytes),
    }
}

/// The lock of a line read, which is the line alone if it ended.
fn lock_of_line(lock: Held, bytes: &[u8]) -> Held
    requires fits { lock.range.start + length bytes.now < 2 ^ 32 }
    ensures { result ≡ record lock { range = line_range lock.range bytes.now } }
{
    if has_return(bytes) {
        let end = Some(lock.range.start + bytes.len() as u32);
        let range = Range { end, ..lock.range };
        return Held { range, ..lock };
    }
    lock
}

/// Gives a process the part that a read takes of `count` bytes at the front of the buffer.
///
/// # Errors
///
/// E$EOF exactly if `count` is 0.
fn give(
    machine: &mut Machine,
    by: Requester,
    opened: &OpenFile,
    kind: ReadKind,
    count: u16,
) -> CallEnd
    requires calls { InFileCall by machine.old }
    requires path { IsPathOf machine.old.files.io opened.now }
    requires named { FitsIn (cells_of machine.old.processes.memory by.p.0) by.regs.x by.regs.y }
    requires few { count ≤ by.regs.y }
    requires fits { opened.now.desc.at + count < 2 ^ 32 }
    ensures call { (m : Processes) → RepresentsProcesses machine.old.processes m → EndsFound
        (take count machine.old.processes.buffer.items)
        (part_of kind (take count machine.old.processes.buffer.items)) by.regs opened.now m by.p.0
        machine.old.files.io result machine.new.processes machine.new.files.io }
    ensures rest { machine.new.files ≡ record machine.old.files { io = machine.new.files.io } }
    ensures lives { IsLiving machine.new.processes.table by.p.0 }
{
    if count == 0 {
        return refuse(&mut machine.files.io, by.p, E_EOF);
    }
    let regs = by.regs;
    let processes = &machine.processes;
    let y = part_length(kind, &processes.buffer[..count as usize]) as u16;
    store_front(&mut machine.processes, by.p, regs.x, y);
    let at = opened.desc.at + u32::from(y);
    answer_at(machine, by, Regs { y, ..regs }, opened, at)
}
