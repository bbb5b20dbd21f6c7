//! I$SetStt of a file or a directory.

ghost use Rattle.std.specs.Prelude.{◌≡◌, false, true, List};
ghost use Rattle.io_state.specs.Context.{InCall, SameTerminals};
ghost use Rattle.file_state.specs.Context.{InFileCall, on_drives, machine_seen};
ghost use Rattle.proc_model.specs.Processes.{Processes, with_regs_of};
ghost use Rattle.os9_base.specs.declared.registers.TimePacket.{TimePacket as Time};
ghost use Rattle.os9_outer.specs.TerminalState.{TerminalState};
ghost use Rattle.proc_model.specs.Records.{IsLiving};
ghost use Rattle.proc_state.specs.Tie.{RepresentsProcesses};
ghost use Rattle.io_model.specs.Modes.{can_write as can_write_model};
ghost use Rattle.io_model.specs.declared.io_call.IoCall.TheVariants as Device;
ghost use Rattle.lock_model.specs.Conflict.{conflicts};
ghost use Rattle.file_rules.specs.declared.path_call.PathCall.TheVariants as Call;
ghost use Rattle.file_rules.specs.Locking.{is_for_update as is_for_update_model};
ghost use Rattle.file_rules.specs.Status.{range_locked as range_locked_model, sets_attributes_of as sets_attributes_model, sets_lock as sets_lock_model, sets_size as sets_size_model, sets_ticks as sets_ticks_model, status_claim as status_claim_model};
ghost use Rattle.file_drives.specs.Drives.{DriveView, drives_seen};
ghost use Rattle.file_drives.specs.Mounted.{HasDataFileAt, HasFileAt};
ghost use Rattle.file_state.specs.Asking.{MayBeGranted, MayAsk, TriesAgain};
ghost use Rattle.file_state.specs.Lacks.{TriesWithin};
ghost use Rattle.file_state.specs.Opened.{IsPathOf};
ghost use Rattle.file_state.specs.Tie.{AreSoundFiles};
ghost use Rattle.file_status.specs.Status.{EndsPathCall, EndsSized, IsNamedInA, SetsGranted, SetsOn, calls_by_code, granted_size_calls, i_setstt_calls, sets_by_code, setting_calls, sizes_granted, unlocked};

use device_table::devices::Devices;
use file_rules::claim::Claim;
use file_rules::status::{SS_ATTR, SS_LOCK, SS_SIZE, SS_TICKS, WHOLE_FILE};
use file_state::asking::range_of;
use file_state::long::long_of;
use file_state::machine::Machine;
use file_state::state::OpenFile;
use io_model::modes::{MODE_READ, can_write};
use io_state::ends::{answer, refuse};
use io_state::requester::Requester;
use lock_model::lock::{Held, Range};
use os9_base::call::CallEnd;
use os9_base::calls::I_SETSTT;
use os9_base::errors::{E_BMODE, E_UNKSVC};
use os9_outer::drive::BlockDriver;
use rbf_entries::NewAttributes;

/// I$SetStt of a file or a directory, at the time `by.time` (System Programmer's Manual,
/// I$SetStt; the argument of SS.Attr is this project's own): sets the status of the path in A, by
/// the code in B. SS.Size gives the file the size in bytes in X, the high half, and U, and leaves
/// the position unchanged. SS.Ticks sets how many ticks the requests of the path wait for a record,
/// to the number in X. SS.Lock locks the bytes from the position on, as many as X and U say.
/// SS.Attr gives the file the attributes in the low byte of X, whose bit 7 has no effect.
///
/// # Errors
///
/// In this order: E$UnkSvc exactly if the code is another one; of SS.Size and SS.Lock E$BMode
/// exactly if the path may not be written, and of SS.Lock read too; the number of the drive's fault
/// if it fails; E$Lock and E$DeadLk as the request is answered; of SS.Size E$Full exactly if fewer
/// clusters are free than it needs, then E$SLF if a cluster that was chosen finds no place in the
/// list of segments; of SS.Attr E$FNA exactly if the user is neither the owner nor user 0. Nothing
/// has changed then, but for the counts of the drive; if a fault has ended SS.Size, the volume is
/// what a fault may leave. The drive is not called if the call is refused before it is reached.
/// `NoMemory` is returned only if the history found no room for an entry.
pub fn set_status(
    machine: &mut Machine,
    devices: &mut Devices,
    by: Requester,
    opened: &OpenFile,
) -> CallEnd
    requires calls { InCall by machine.old.processes }
    requires again { TriesAgain Device.SetStt by.regs machine.old.files by.p.0 }
    requires sound { AreSoundFiles machine.old.files (drives_seen BlockDriver-box devices.old) }
    requires named { IsNamedInA by.p.0 opened.now
        (machine_seen BlockDriver-box machine.old devices.old) }
    ensures call { (terms : List TerminalState)
        → TriesWithin i_setstt_calls Call.SetStt by.time by.p.0 result terms terms
        (machine_seen BlockDriver-box machine.old devices.old)
        (machine_seen BlockDriver-box machine.new devices.new) }
    ensures kept { SameTerminals by machine.new.processes devices.old devices.new }
{
    set_status_of(machine, devices, by, opened)
}

/// Sets the status of a file or a directory, by the code in B.
fn set_status_of(
    machine: &mut Machine,
    devices: &mut Devices,
    by: Requester,
    opened: &OpenFile,
) -> CallEnd
    requires calls { InFileCall by machine.old }
    requires asks { MayAsk machine.old.files.io machine.old.files.records.locks by.p.0 opened.now }
    requires there { HasFileAt machine.old.files.disks (drives_seen BlockDriver-box devices.old)
        opened.now.place }
    requires written { can_write_model opened.now.desc.mode ≡ true → HasDataFileAt
        machine.old.files.disks
        (drives_seen BlockDriver-box devices.old) opened.now.place }
    ensures call { SetsOn opened.now sets_by_code calls_by_code by.time by.p.0 result
        (machine_seen BlockDriver-box machine.old devices.old)
        (machine_seen BlockDriver-box machine.new devices.new) }
    ensures kept { SameTerminals by machine.new.processes devices.old devices.new }
{
    match by.regs.b {
        SS_SIZE => set_size(machine, devices, by, opened),
        SS_TICKS => set_ticks(machine, by, opened),
        SS_LOCK => set_lock(machine, devices, by, opened),
        SS_ATTR => set_attributes(machine, devices, by, opened),
        _ => refuse(&mut machine.files.io, by.p, E_UNKSVC),
    }
}

/// May a path of this mode be read and written? Then it may hold a lock.
fn is_for_update(mode: u8) -> bool
    ensures { result ≡ is_for_update_model mode }
{
    mode & MODE_READ != 0 && can_write(mode)
}

/// SS.Size: gives the file the size in X and U. It requests all from the smaller of both sizes on.
fn set_size(
    machine: &mut Machine,
    devices: &mut Devices,
    by: Requester,
    opened: &OpenFile,
) -> CallEnd
    requires calls { InFileCall by machine.old }
    requires asks { MayAsk machine.old.files.io machine.old.files.records.locks by.p.0 opened.now }
    requires written { can_write_model opened.now.desc.mode ≡ true → HasDataFileAt
        machine.old.files.disks
        (drives_seen BlockDriver-box devices.old) opened.now.place }
    ensures call { SetsOn opened.now sets_size_model (setting_calls SS_SIZE) by.time by.p.0 result
        (machine_seen BlockDriver-box machine.old devices.old)
        (machine_seen BlockDriver-box machine.new devices.new) }
    ensures kept { SameTerminals by machine.new.processes devices.old devices.new }
{
    if !can_write(opened.desc.mode) {
        return refuse(&mut machine.files.io, by.p, E_BMODE);
    }
    let old = match machine.files.disks.fd(devices, opened.place) {
        Ok(fd) => fd.size,
        Err(fault) => return refuse(&mut machine.files.io, by.p, fault.number()),
    };
    let range = Range {
        start: old.min(long_of(by.regs)),
        end: None,
    };
    let tick = machine.processes.tick;
    let request = machine
        .files
        .request_now(by.p, opened, status_claim(range), tick);
    if let Some(end) = machine.files.ask(by.p, request, tick) {
        return end;
    }
    let sizing = LockedSizing {
        size_before: old,
        lock: request.lock,
    };
    size_granted(machine, devices, by, opened, sizing)
}

/// The claim of a call that sets a status, for this range.
fn status_claim(range: Range) -> Claim
    ensures { result ≡ status_claim_model range }
{
    Claim {
        code: I_SETSTT,
        count: 1,
        range,
    }
}

/// A change of a file's size under the lock that was granted for it: the size before, and the lock.
#[derive(Clone, Copy, Debug, PartialEq, Eq)]
struct LockedSizing {
    size_before: u32,
    lock: Held,
}

/// Gives the file the size in X and U, under the lock that was granted for it. The path then holds
/// none.
fn size_granted(
    machine: &mut Machine,
    devices: &mut Devices,
    by: Requester,
    opened: &OpenFile,
    sizing: LockedSizing,
) -> CallEnd
    requires calls { InFileCall by machine.old }
    requires path { IsPathOf machine.old.files.io opened.now }
    requires file { HasDataFileAt machine.old.files.disks
        (drives_seen BlockDriver-box devices.old) opened.now.place }
    requires granted { MayBeGranted machine.old.files.records.locks sizing.lock }
    ensures call { SetsGranted opened.now (sizes_granted sizing.size_before sizing.lock)
        granted_size_calls by.time by.p.0 result
        (machine_seen BlockDriver-box machine.old devices.old)
        (machine_seen BlockDriver-box machine.new devices.new) }
    ensures kept { SameTerminals by machine.new.processes devices.old devices.new }
{
    let size = long_of(by.regs);
    let disks = &mut machine.files.disks;
    match disks.set_size(devices, opened.place, size, by.time) {
        Ok(()) => enter_size(machine, by, opened, sizing),
        Err(fault) => refuse(&mut machine.files.io, by.p, fault.number()),
    }
}

/// Enters in the history that a file of this size was given the one in X and U, if that is another
/// one, and answers the call.
fn enter_size(
    machine: &mut Machine,
    by: Requester,
    opened: &OpenFile,
    sizing: LockedSizing,
) -> CallEnd
    requires calls { InFileCall by machine.old }
    requires path { IsPathOf machine.old.files.io opened.now }
    requires free { conflicts machine.old.files.records.locks sizing.lock ≡ false }
    ensures call { (m : Processes) → RepresentsProcesses machine.old.processes m → EndsSized
        sizing.size_before sizing.lock by.regs opened.now m by.p.0 machine.old.files result
        machine.new.processes
        machine.new.files }
    ensures lives { IsLiving machine.new.processes.table by.p.0 }
{
    let LockedSizing { size_before, lock } = sizing;
    if size_before == long_of(by.regs) {
        return end_lock(machine, by, opened);
    }
    let records = &mut machine.files.records;
    if records.write(opened.path.0, lock, &[]).is_err() {
        return CallEnd::NoMemory;
    }
    answer(&mut machine.processes, &mut machine.files.io, by.p, by.regs)
}

/// Ends the lock of a path, if it holds one, and answers the call with the registers as they are.
fn end_lock(machine: &mut Machine, by: Requester, opened: &OpenFile) -> CallEnd
    requires calls { InFileCall by machine.old }
    requires path { IsPathOf machine.old.files.io opened.now }
    ensures end { result ≡ CallEnd.Done }
    ensures tied { (m : Processes) → RepresentsProcesses machine.old.processes m
        → RepresentsProcesses machine.new.processes (with_regs_of m by.p.0 by.regs) }
    ensures files { machine.new.files ≡ unlocked machine.old.files by.p.0 opened.now.path.0 }
    ensures lives { IsLiving machine.new.processes.table by.p.0 }
{
    machine.files.records.drop_lock(opened.path.0);
    answer(&mut machine.processes, &mut machine.files.io, by.p, by.regs)
}

/// SS.Lock: the path holds the bytes from its position on, as many as X and U say; of none its lock
/// ends, and of `FFFFFFFF` it holds the whole file.
fn set_lock(
    machine: &mut Machine,
    devices: &mut Devices,
    by: Requester,
    opened: &OpenFile,
) -> CallEnd
    requires calls { InFileCall by machine.old }
    requires asks { MayAsk machine.old.files.io machine.old.files.records.locks by.p.0 opened.now }
    requires there { HasFileAt machine.old.files.disks (drives_seen BlockDriver-box devices.old)
        opened.now.place }
    ensures call { (now : Time) → SetsOn opened.now sets_lock_model (setting_calls SS_LOCK) now
        by.p.0
        result (machine_seen BlockDriver-box machine.old devices.old)
        (machine_seen BlockDriver-box machine.new devices.new) }
    ensures kept { SameTerminals by machine.new.processes devices.old devices.new }
{
    if !is_for_update(opened.desc.mode) {
        return refuse(&mut machine.files.io, by.p, E_BMODE);
    }
    let count = long_of(by.regs);
    if count == 0 {
        return end_lock(machine, by, opened);
    }
    let size = match machine.files.disks.fd(devices, opened.place) {
        Ok(fd) => fd.size,
        Err(fault) => return refuse(&mut machine.files.io, by.p, fault.number()),
    };
    let claim = status_claim(range_locked(size, opened.desc.at, count));
    let tick = machine.processes.tick;
    let request = machine.files.request_now(by.p, opened, claim, tick);
    if let Some(end) = machine.files.ask(by.p, request, tick) {
        return end;
    }
    let records = &mut machine.files.records;
    if records.hold(opened.path.0, request.lock, &[]).is_err() {
        return CallEnd::NoMemory;
    }
    answer(&mut machine.processes, &mut machine.files.io, by.p, by.regs)
}

/// The bytes that SS.Lock asks for, of a file of this size: `count` from a position on, or the
/// whole file.
fn range_locked(size: u32, at: u32, count: u32) -> Range
    ensures { result ≡ range_locked_model size at count }
{
    if count == WHOLE_FILE {
        return Range {
            start: 0,
            end: None,
        };
    }
    range_of(size, at, count)
}

/// SS.Ticks: the requests of the path wait the number of ticks in X.
fn set_ticks(machine: &mut Machine, by: Requester, opened: &OpenFile) -> CallEnd
    requires calls { InFileCall by machine.old }
    requires path { IsPathOf machine.old.files.io opened.now }
    ensures call { (now : Time) (views : List DriveView)
        → EndsPathCall opened.now sets_ticks_model (setting_calls SS_TICKS) now by.p.0 result
        (on_drives machine.old views) (on_drives machine.new views) }
    ensures lives { IsLiving machine.new.processes.table by.p.0 }
{
    let end = answer(&mut machine.processes, &mut machine.files.io, by.p, by.regs);
    machine.files.io.set_ticks(opened.path, by.regs.x);
    end
}

/// SS.Attr: gives the file the attributes in the low byte of X.
fn set_attributes(
    machine: &mut Machine,
    devices: &mut Devices,
    by: Requester,
    opened: &OpenFile,
) -> CallEnd
    requires calls { InFileCall by machine.old }
    requires there { HasFileAt machine.old.files.disks (drives_seen BlockDriver-box devices.old)
        opened.now.place }
    ensures call { EndsPathCall opened.now sets_attributes_model (setting_calls SS_ATTR) by.time
        by.p.0 result (machine_seen BlockDriver-box machine.old devices.old)
        (machine_seen BlockDriver-box machine.new devices.new) }
    ensures kept { SameTerminals by machine.new.processes devices.old devices.new }
{
    let user = machine.processes.table.user(by.p);
    let asked = NewAttributes {
        attr: (by.regs.x % 256) as u8,
        user,
        date: by.time,
    };
    let disks = &mut machine.files.disks;
    match disks.set_attr(devices, opened.place, asked) {
        Ok(()) => answer(&mut machine.processes, &mut machine.files.io, by.p, by.regs),
        Err(error) => refuse(&mut machine.files.io, by.p, error.number()),
    }
}
