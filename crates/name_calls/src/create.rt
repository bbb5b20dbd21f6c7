//! I$Create (System Programmer's Manual, I$Create).

ghost use Rattle.std.specs.Prelude.{◌≡◌, List, length, vec_len};
ghost use Rattle.io_state.specs.Context.{SameTerminals};
ghost use Rattle.file_state.specs.Context.{machine_seen};
ghost use Rattle.file_drives.specs.Drives.{drives_seen};
ghost use Rattle.file_drives.specs.Mounted.{HasFileAt};
ghost use Rattle.file_state.specs.Context.{InFirstAttempt};
ghost use Rattle.name_calls.specs.Attempts.{CreatesAlong, CreatesThere};
ghost use Rattle.name_calls.specs.OpenCalls.{i_create_calls};
ghost use Rattle.file_rules.specs.declared.path_call.PathCall.TheVariants as Call;
ghost use Rattle.file_state.specs.Counted.{AttemptsWithin};
ghost use Rattle.file_state.specs.Tie.{AreSoundFiles};
ghost use Rattle.file_routes.specs.Walks.{SomeFrom};
ghost use Rattle.guest_memory.specs.Tie.{cells_of};
ghost use Rattle.os9_outer.specs.TerminalState.{TerminalState};

use crate::begin::begin_on;
use crate::finding::{Lookup, Search, find_route, walker_of};
use crate::naming::LastLocated;
use crate::open_modes::{is_for_execution, says_directory};
use device_paths::open::i_create as create_on_device;
use device_table::devices::Devices;
use file_routes::calls::call_walk_to_last;
use file_routes::route::{Course, Purpose, mode_refusal};
use file_routes::walk::{NamePlace, WalkStart};
use file_state::machine::Machine;
use io_model::modes::can_write;
use io_model::path::Target;
use io_state::ends::refuse;
use io_state::requester::Requester;
use os9_base::call::CallEnd;
use os9_base::errors::{E_BPNAM, E_FNA, E_PTHFUL};
use os9_outer::drive::BlockDriver;
use rbf_entries::NewEntry;

/// I$Create: makes a file and opens a path on it, or opens a terminal or a pipe (System
/// Programmer's Manual, I$Create). Takes the mode in A, the attributes in B and the address of the
/// path list in X; returns the number of the new path, the least free one, in A, and X past the
/// list. The file is empty, and the user of the process owns it; it is made at the time of the
/// call.
///
/// # Errors
///
/// E$BPAddr exactly if a byte of the path list that has to be read is in no named slot or past
/// `FFFF`; else E$BMode exactly if the mode lacks write; else those of the list, E$BPNam, E$MNF and
/// E$PNNF, and on a drive those of the walk, E$FNA and E$PNNF; then E$FNA exactly if the directory
/// may not be changed so or B says a directory, E$CEF exactly if the name is there, E$PthFul
/// exactly if no number or no path is free, or for a pipe no pipe, E$Full and E$SLF exactly if
/// there is no room for the file and its entry. The number of the fault, if the drive fails: then
/// the tree is unchanged. Else nothing has changed.
///
/// The drive is called for the directories of the walk, the place of the entry and the new file, at
/// most `i_create_calls` times. The other drives are not called, and a refused call leaves all
/// media unchanged.
pub fn i_create(machine: &mut Machine, devices: &mut Devices, by: Requester) -> CallEnd
    requires calls { InFirstAttempt by machine.old }
    requires sound { AreSoundFiles machine.old.files (drives_seen BlockDriver-box devices.old) }
    ensures call { (terms : List TerminalState) → length terms ≡ vec_len devices.old.terms
        → AttemptsWithin i_create_calls Call.Create by.time by.p.0 result terms terms
        (machine_seen BlockDriver-box machine.old devices.old)
        (machine_seen BlockDriver-box machine.new devices.new) }
    ensures kept { SameTerminals by machine.new.processes devices.old devices.new }
{
    let execute = is_for_execution(by.regs.a);
    let refusal = mode_refusal(can_write(by.regs.a));
    let search = Search {
        purpose: Purpose::New,
        lookup: Lookup { execute, refusal },
    };
    match find_route(&mut machine.processes, &machine.files, devices, by, search) {
        Err(number) => refuse(&mut machine.files.io, by.p, number),
        Ok(route) => match route.course {
            Course::Device => {
                machine.files.records.cancel(by.p);
                create_on_device(&mut machine.processes, &mut machine.files.io, by.p, devices)
            }
            Course::Along(start) => create_along(machine, devices, by, start, route.next),
        },
    }
}

/// Creates a file with the last of the names of a path list that ends before `next`, along the
/// others from a directory.
fn create_along(
    machine: &mut Machine,
    devices: &mut Devices,
    by: Requester,
    start: WalkStart,
    next: u32,
) -> CallEnd
    requires calls { InFirstAttempt by machine.old }
    requires names { SomeFrom (cells_of machine.old.processes.memory by.p.0) start.first }
    requires file { HasFileAt machine.old.files.disks
        (drives_seen BlockDriver-box devices.old) start.directory }
    ensures creates { CreatesAlong start.directory start.first next by.time by.p.0 result
        (machine_seen BlockDriver-box machine.old devices.old)
        (machine_seen BlockDriver-box machine.new devices.new) }
    ensures kept { SameTerminals by machine.new.processes devices.old devices.new }
{
    let Some(at) = start.first else {
        return refuse(&mut machine.files.io, by.p, E_BPNAM);
    };
    let directory = start.directory;
    let first = NamePlace { directory, at };
    let processes = &mut machine.processes;
    let walker = walker_of(processes, by);
    match call_walk_to_last(processes, &mut machine.files.disks, devices, walker, first) {
        Err(error) => refuse(&mut machine.files.io, by.p, error.number()),
        Ok(last) => {
            let located = LastLocated { last, next };
            create_in(machine, devices, by, located)
        }
    }
}

/// Creates a file in a directory, with the last name of a path list.
fn create_in(
    machine: &mut Machine,
    devices: &mut Devices,
    by: Requester,
    located: LastLocated,
) -> CallEnd
    requires calls { InFirstAttempt by machine.old }
    requires file { HasFileAt machine.old.files.disks
        (drives_seen BlockDriver-box devices.old) located.last.directory }
    ensures creates { CreatesThere located by.time by.p.0 result
        (machine_seen BlockDriver-box machine.old devices.old)
        (machine_seen BlockDriver-box machine.new devices.new) }
    ensures kept { SameTerminals by machine.new.processes devices.old devices.new }
{
    if says_directory(by.regs.b) {
        return refuse(&mut machine.files.io, by.p, E_FNA);
    }
    let walker = walker_of(&machine.processes, by);
    let last = located.last;
    let disks = &mut machine.files.disks;
    let found = match disks.find_place(devices, last.directory, &last.name, walker.by) {
        Err(error) => return refuse(&mut machine.files.io, by.p, error.number()),
        Ok(found) => found,
    };
    let Some(_) = machine.files.next_number(by.p) else {
        return refuse(&mut machine.files.io, by.p, E_PTHFUL);
    };
    let file = NewEntry {
        name: last.name,
        attr: by.regs.b,
        date: by.time,
    };
    let disks = &mut machine.files.disks;
    match disks.create_at(devices, last.directory, &found, &file) {
        Err(fault) => refuse(&mut machine.files.io, by.p, fault.number()),
        Ok(n) => {
            let target = Target::File(last.directory.drive, n);
            begin_on(machine, by, target, located.next)
        }
    }
}
