//! I$Open (System Programmer's Manual, I$Open).

ghost use Rattle.std.specs.Prelude.{◌≡◌, List, length, vec_len};
ghost use Rattle.proc_model.specs.Processes.{Processes};
ghost use Rattle.io_state.specs.Context.{SameTerminals};
ghost use Rattle.file_state.specs.Context.{machine_seen};
ghost use Rattle.file_drives.specs.Drives.{DriveView, drives_seen};
ghost use Rattle.file_drives.specs.Mounted.{HasFileAt};
ghost use Rattle.file_state.specs.Context.{InFirstAttempt};
ghost use Rattle.name_calls.specs.Attempts.{OpensAlong};
ghost use Rattle.name_calls.specs.OpenCalls.{i_open_calls};
ghost use Rattle.name_calls.specs.Ends.{EndsQuietly};
ghost use Rattle.file_rules.specs.Attempts.{asker_of};
ghost use Rattle.file_rules.specs.Files.{Files};
ghost use Rattle.file_rules.specs.Open.{opens_found};
ghost use Rattle.file_rules.specs.Route.{Found};
ghost use Rattle.file_rules.specs.declared.path_call.PathCall.TheVariants as Call;
ghost use Rattle.file_state.specs.Counted.{AttemptsWithin};
ghost use Rattle.file_state.specs.Tie.{AreSoundFiles, RepresentsFiles};
ghost use Rattle.file_routes.specs.Walks.{SomeFrom};
ghost use Rattle.guest_memory.specs.Tie.{cells_of};
ghost use Rattle.io_model.specs.PathList.{PathList};
ghost use Rattle.os9_base.specs.declared.registers.TimePacket.{TimePacket};
ghost use Rattle.os9_outer.specs.TerminalState.{TerminalState};
ghost use Rattle.proc_model.specs.Records.{IsLiving};
ghost use Rattle.proc_state.specs.Tie.{RepresentsProcesses};
ghost use Rattle.rbf_access.specs.Reading.{IsFdOf};

use crate::begin::begin_on;
use crate::finding::{Lookup, Search, find_route, walker_of};
use crate::open_modes::{is_directory, is_for_execution, is_mode, may_open};
use device_paths::open::i_open as open_device;
use device_table::devices::Devices;
use file_routes::calls::call_walk;
use file_routes::route::{Course, Located, Purpose, mode_refusal};
use file_routes::walk::WalkStart;
use file_state::machine::Machine;
use file_state::state::target_on;
use io_state::ends::refuse;
use io_state::requester::Requester;
use os9_base::call::CallEnd;
use os9_base::errors::{E_FNA, E_SHARE};
use os9_outer::drive::BlockDriver;
use rbf_sector::Fd;

/// I$Open: opens a path on a file, a directory, a terminal or a pipe (System Programmer's Manual,
/// I$Open). Takes the mode in A and the address of the path list in X; returns the number of the
/// new path, the least free one, in A, and X past the list. A directory is opened with bit 7 in the
/// mode and without writing, a file without bit 7. Each opening of `/PIPE` makes a new pipe.
///
/// # Errors
///
/// E$BPAddr exactly if a byte of the path list that has to be read is in no named slot or past
/// `FFFF`; else E$BMode exactly if the mode has none of read, write and execute; else those of the
/// list, E$BPNam, E$MNF and E$PNNF, and on a drive those of the walk, E$FNA and E$PNNF, at the
/// first name that fails; then E$FNA exactly if the file may not be opened so, E$Share exactly if
/// it may not be shared, and E$PthFul exactly if no number or no path is free, or for a pipe no
/// pipe. The number of the fault, if the drive fails. Nothing has changed then.
///
/// The drive is called for the directories of the walk and for the file's descriptor, at most
/// `i_open_calls` times. It is only read, and the other drives are not called.
pub fn i_open(machine: &mut Machine, devices: &mut Devices, by: Requester) -> CallEnd
    requires calls { InFirstAttempt by machine.old }
    requires sound { AreSoundFiles machine.old.files (drives_seen BlockDriver-box devices.old) }
    ensures call { (now : TimePacket) (terms : List TerminalState)
        → length terms ≡ vec_len devices.old.terms
        → AttemptsWithin i_open_calls Call.Open now by.p.0 result terms terms
        (machine_seen BlockDriver-box machine.old devices.old)
        (machine_seen BlockDriver-box machine.new devices.new) }
    ensures kept { SameTerminals by machine.new.processes devices.old devices.new }
{
    let execute = is_for_execution(by.regs.a);
    let refusal = mode_refusal(is_mode(by.regs.a));
    let search = Search {
        purpose: Purpose::Existing,
        lookup: Lookup { execute, refusal },
    };
    match find_route(&mut machine.processes, &machine.files, devices, by, search) {
        Err(number) => refuse(&mut machine.files.io, by.p, number),
        Ok(route) => match route.course {
            Course::Device => {
                machine.files.records.cancel(by.p);
                open_device(&mut machine.processes, &mut machine.files.io, by.p, devices)
            }
            Course::Along(start) => open_along(machine, devices, by, start, route.next),
        },
    }
}

/// Opens a path on the file reached from a directory along the names of a path list that ends
/// before `next`.
fn open_along(
    machine: &mut Machine,
    devices: &mut Devices,
    by: Requester,
    start: WalkStart,
    next: u32,
) -> CallEnd
    requires calls { InFirstAttempt by machine.old }
    requires names { SomeFrom (cells_of machine.old.processes.memory by.p.0) start.first }
    requires file { HasFileAt machine.old.files.disks
        (drives_seen BlockDriver-box devices.old) start.directory }
    ensures opens { (now : TimePacket) → OpensAlong start.directory start.first next now by.p.0
        result (machine_seen BlockDriver-box machine.old devices.old)
        (machine_seen BlockDriver-box machine.new devices.new) }
    ensures kept { SameTerminals by machine.new.processes devices.old devices.new }
{
    let processes = &mut machine.processes;
    let walker = walker_of(processes, by);
    match call_walk(processes, &mut machine.files.disks, devices, walker, start) {
        Err(error) => refuse(&mut machine.files.io, by.p, error.number()),
        Ok(place) => match machine.files.disks.fd(devices, place) {
            Err(fault) => refuse(&mut machine.files.io, by.p, fault.number()),
            Ok(fd) => open_found(machine, by, Located { place, next }, &fd),
        },
    }
}

/// Opens a path on the file that a path list names, whose descriptor was read.
fn open_found(machine: &mut Machine, by: Requester, located: Located, fd: &Fd) -> CallEnd
    requires calls { InFirstAttempt by machine.old }
    ensures opens { (m : Processes) (was : Files) (now : TimePacket) (list : PathList)
        (found : Found)
        (views : List DriveView) → RepresentsProcesses machine.old.processes m
        → RepresentsFiles machine.old.files views was → found.place ≡ located.place
        → IsFdOf found.file fd.now → list.next ≡ located.next
        → EndsQuietly (opens_found (asker_of m by.p.0 now) was list found)
        m was by.p.0 result machine.new.processes machine.new.files views }
    ensures lives { IsLiving machine.new.processes.table by.p.0 }
{
    let mode = by.regs.a;
    if !may_open(fd, machine.processes.table.user(by.p), mode) {
        return refuse(&mut machine.files.io, by.p, E_FNA);
    }
    if machine.files.is_not_shared(located.place, fd.attr, mode) {
        return refuse(&mut machine.files.io, by.p, E_SHARE);
    }
    let target = target_on(located.place, is_directory(fd));
    begin_on(machine, by, target, located.next)
}
