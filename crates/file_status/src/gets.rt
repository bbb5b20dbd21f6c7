//! I$GetStt of a file or a directory.

ghost use Rattle.std.specs.Prelude.{◌≡◌, min, List};
ghost use Rattle.io_state.specs.Context.{SameTerminals};
ghost use Rattle.file_state.specs.Context.{InFileCall, InFirstAttempt, on_drives, machine_seen};
ghost use Rattle.os9_base.specs.declared.registers.TimePacket.{TimePacket};
ghost use Rattle.os9_outer.specs.TerminalState.{TerminalState};
ghost use Rattle.proc_model.specs.Records.{IsLiving};
ghost use Rattle.file_rules.specs.declared.path_call.PathCall.TheVariants as Call;
ghost use Rattle.file_rules.specs.Status.{gets_size as gets_size_model, gets_end as gets_end_model, gets_descriptor as gets_descriptor_model};
ghost use Rattle.file_drives.specs.Drives.{DriveView, drives_seen};
ghost use Rattle.file_drives.specs.Mounted.{HasFileAt};
ghost use Rattle.file_state.specs.Counted.{AttemptsWithin};
ghost use Rattle.file_state.specs.Tie.{AreSoundFiles};
ghost use Rattle.file_state.specs.declared.state.OpenFile.{OpenFile as KernelFile};
ghost use Rattle.file_status.specs.Status.{EndsPathCall, IsNamedInA, gets_by_code, gets_options as gets_options_model, getting_calls, i_getstt_calls};

use crate::front::{descriptor_front, file_options, long_regs};
use device_table::devices::Devices;
use file_rules::status::{DESCRIPTOR_BYTES, SS_FD, SS_POS, SS_SIZE};
use file_state::machine::Machine;
use file_state::state::OpenFile;
use io_model::status::{OPTION_BYTES, SS_EOF, SS_OPT, SS_READY};
use io_state::ends::{answer, refuse};
use io_state::requester::Requester;
use os9_base::call::CallEnd;
use os9_base::errors::{E_BPADDR, E_EOF, E_UNKSVC};
use os9_base::registers::Regs;
use os9_outer::drive::BlockDriver;

/// I$GetStt of a file or a directory (System Programmer's Manual, I$GetStt): gets the status of the
/// path in A, by the code in B. SS.Opt stores 32 bytes at X. SS.Ready returns 0 in B. SS.Size
/// returns the size and SS.Pos the position, in bytes, in X, the high half, and U. SS.EOF returns 0
/// in B. SS.FD stores the first Y bytes of the descriptor at X, at most 16.
///
/// # Errors
///
/// In this order: E$UnkSvc exactly if the code is another one; for SS.Opt and SS.FD E$BPAddr
/// exactly if one of the bytes is in no named slot or past `FFFF`; for SS.Size, SS.EOF and SS.FD
/// the number of the drive's fault if it fails; for SS.EOF E$EOF exactly if the position is not
/// before the end. Nothing has changed then, except the counts of the drive. The drive is called
/// once at most, and not at all if the call is refused before it is reached.
pub fn get_status(
    machine: &mut Machine,
    devices: &mut Devices,
    by: Requester,
    opened: &OpenFile,
) -> CallEnd
    requires calls { InFirstAttempt by machine.old }
    requires sound { AreSoundFiles machine.old.files (drives_seen BlockDriver-box devices.old) }
    requires named { IsNamedInA by.p.0 opened.now
        (machine_seen BlockDriver-box machine.old devices.old) }
    ensures call { (now : TimePacket) (terms : List TerminalState)
        → AttemptsWithin i_getstt_calls Call.GetStt now by.p.0 result terms terms
        (machine_seen BlockDriver-box machine.old devices.old)
        (machine_seen BlockDriver-box machine.new devices.new) }
    ensures kept { SameTerminals by machine.new.processes devices.old devices.new }
{
    get_status_of(machine, devices, by, opened)
}

/// Gets the status of a file or a directory, by the code in B.
fn get_status_of(
    machine: &mut Machine,
    devices: &mut Devices,
    by: Requester,
    opened: &OpenFile,
) -> CallEnd
    requires calls { InFileCall by machine.old }
    requires there { HasFileAt machine.old.files.disks (drives_seen BlockDriver-box devices.old)
        opened.now.place }
    ensures call { (now : TimePacket) → EndsPathCall opened.now gets_by_code getting_calls now
        by.p.0 result (machine_seen BlockDriver-box machine.old devices.old)
        (machine_seen BlockDriver-box machine.new devices.new) }
    ensures kept { SameTerminals by machine.new.processes devices.old devices.new }
{
    let regs = by.regs;
    match regs.b {
        SS_OPT => get_options(machine, by),
        SS_READY => {
            let regs = Regs { b: 0, ..regs };
            answer(&mut machine.processes, &mut machine.files.io, by.p, regs)
        }
        SS_SIZE => get_size(machine, devices, by, opened),
        SS_POS => {
            let regs = long_regs(regs, opened.desc.at);
            answer(&mut machine.processes, &mut machine.files.io, by.p, regs)
        }
        SS_EOF => get_end(machine, devices, by, opened),
        SS_FD => get_descriptor(machine, devices, by, opened),
        _ => refuse(&mut machine.files.io, by.p, E_UNKSVC),
    }
}

/// SS.Opt: stores the options of the path.
fn get_options(machine: &mut Machine, by: Requester) -> CallEnd
    requires calls { InFileCall by machine.old }
    ensures call { (now : TimePacket) (opened : KernelFile) (views : List DriveView)
        → EndsPathCall opened gets_options_model getting_calls now by.p.0 result
        (on_drives machine.old views) (on_drives machine.new views) }
    ensures lives { IsLiving machine.new.processes.table by.p.0 }
{
    let regs = by.regs;
    if !machine
        .processes
        .is_named(by.p, regs.x, OPTION_BYTES as u16)
    {
        return refuse(&mut machine.files.io, by.p, E_BPADDR);
    }
    machine.processes.store(by.p, regs.x, &file_options());
    answer(&mut machine.processes, &mut machine.files.io, by.p, regs)
}

/// SS.Size: returns the size in X and U.
fn get_size(
    machine: &mut Machine,
    devices: &mut Devices,
    by: Requester,
    opened: &OpenFile,
) -> CallEnd
    requires calls { InFileCall by machine.old }
    requires there { HasFileAt machine.old.files.disks (drives_seen BlockDriver-box devices.old)
        opened.now.place }
    ensures call { (now : TimePacket)
        → EndsPathCall opened.now gets_size_model getting_calls now by.p.0 result
        (machine_seen BlockDriver-box machine.old devices.old)
        (machine_seen BlockDriver-box machine.new devices.new) }
    ensures kept { SameTerminals by machine.new.processes devices.old devices.new }
{
    match machine.files.disks.fd(devices, opened.place) {
        Ok(fd) => {
            let regs = long_regs(by.regs, fd.size);
            answer(&mut machine.processes, &mut machine.files.io, by.p, regs)
        }
        Err(fault) => refuse(&mut machine.files.io, by.p, fault.number()),
    }
}

/// SS.EOF: returns 0 in B if the position is before the end of the file.
fn get_end(
    machine: &mut Machine,
    devices: &mut Devices,
    by: Requester,
    opened: &OpenFile,
) -> CallEnd
    requires calls { InFileCall by machine.old }
    requires there { HasFileAt machine.old.files.disks (drives_seen BlockDriver-box devices.old)
        opened.now.place }
    ensures call { (now : TimePacket)
        → EndsPathCall opened.now gets_end_model getting_calls now by.p.0 result
        (machine_seen BlockDriver-box machine.old devices.old)
        (machine_seen BlockDriver-box machine.new devices.new) }
    ensures kept { SameTerminals by machine.new.processes devices.old devices.new }
{
    match machine.files.disks.fd(devices, opened.place) {
        Ok(fd) => {
            if fd.size <= opened.desc.at {
                return refuse(&mut machine.files.io, by.p, E_EOF);
            }
            let regs = Regs { b: 0, ..by.regs };
            answer(&mut machine.processes, &mut machine.files.io, by.p, regs)
        }
        Err(fault) => refuse(&mut machine.files.io, by.p, fault.number()),
    }
}

/// SS.FD: stores the first Y bytes of the descriptor, at most 16.
fn get_descriptor(
    machine: &mut Machine,
    devices: &mut Devices,
    by: Requester,
    opened: &OpenFile,
) -> CallEnd
    requires calls { InFileCall by machine.old }
    requires there { HasFileAt machine.old.files.disks (drives_seen BlockDriver-box devices.old)
        opened.now.place }
    ensures call { (now : TimePacket)
        → EndsPathCall opened.now gets_descriptor_model getting_calls now by.p.0 result
        (machine_seen BlockDriver-box machine.old devices.old)
        (machine_seen BlockDriver-box machine.new devices.new) }
    ensures kept { SameTerminals by machine.new.processes devices.old devices.new }
{
    let regs = by.regs;
    let count = asked_count(regs.y);
    if !machine.processes.is_named(by.p, regs.x, count) {
        return refuse(&mut machine.files.io, by.p, E_BPADDR);
    }
    match machine.files.disks.fd(devices, opened.place) {
        Ok(fd) => {
            machine
                .processes
                .store(by.p, regs.x, &descriptor_front(&fd)[..count as usize]);
            answer(&mut machine.processes, &mut machine.files.io, by.p, regs)
        }
        Err(fault) => refuse(&mut machine.files.io, by.p, fault.number()),
    }
}

/// The number of bytes of a descriptor that this Y asks for.
fn asked_count(y: u16) -> u16
    ensures { result ≡ min y DESCRIPTOR_BYTES }
{
    y.min(u16::from(DESCRIPTOR_BYTES))
}
