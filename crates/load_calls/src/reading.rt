//! The file of modules that a call's path list names.

ghost use Rattle.std.specs.Prelude.{◌≡◌, ◌≤◌, IfOk, vec_len};
ghost use Rattle.io_state.specs.Context.{InCall, SameTerminals};
ghost use Rattle.file_state.specs.Context.{machine_seen};
ghost use Rattle.file_drives.specs.Drives.{drives_seen};
ghost use Rattle.file_drives.specs.Mounted.{HasFileAt};
ghost use Rattle.file_rules.specs.Files.{Files};
ghost use Rattle.file_rules.specs.ProgramFile.{program_file};
ghost use Rattle.file_rules.specs.Route.{Found};
ghost use Rattle.file_state.specs.Tie.{AreSoundFiles};
ghost use Rattle.file_routes.specs.Walks.{SomeFrom};
ghost use Rattle.file_routes.specs.Routes.{refuses_by};
ghost use Rattle.guest_memory.specs.Tie.{cells_of};
ghost use Rattle.os9_base.specs.declared.limits.TheConstants.{MOST_GROUP_BYTES as MOST};
ghost use Rattle.proc_state.specs.Tie.{AreProcessesSame};
ghost use Rattle.load_calls.specs.Calls.{found_calls, program_calls};
ghost use Rattle.load_calls.specs.Found.{program_there};
ghost use Rattle.load_calls.specs.Reading.{HasFoundFile, ReadsAlong, ReadsBetween, ReadsProgramFrom, read_by};

use crate::found::{load_whole, program_size};
use device_table::devices::Devices;
use file_routes::calls::{call_route, call_walk};
use file_routes::route::{Course, Located, Purpose, Query};
use file_routes::walk::{WalkStart, Walker};
use file_state::machine::Machine;
use io_state::requester::Requester;
use os9_base::errors::E_FNA;
use os9_outer::drive::BlockDriver;
use rbf_access::FileFault;
use rbf_walk::Searcher;

/// A file of modules that was read: it is at the front of the buffer of the processes.
#[derive(Clone, Copy, Debug, PartialEq, Eq)]
pub struct ProgramRead {
    /// Its number of bytes.
    pub size: u16,
    /// The address just past its path list.
    pub next: u32,
}

/// Reads the whole file of the path list at X into the front of the buffer (System Programmer's
/// Manual, F$Load). A list that names no device starts at the execution directory of the process.
/// The file is tested as I$Open tests it with the execution mode, but no path is opened. `refusal`
/// is the number with which the call is refused if no byte of its list is missing.
///
/// # Errors
///
/// E$BPAddr exactly if a byte of the list that has to be read is in no named slot or past `FFFF`;
/// else `refusal`, if there is one; else those of the list, E$BPNam, E$PNNF and E$MNF; E$FNA
/// exactly if the list names a terminal or a pipe; then those of the walk, E$FNA and E$PNNF; then
/// E$FNA, E$Share and E$MemFul as for `program_size`. The number of the fault, if the drive fails.
pub fn read_program(
    machine: &mut Machine,
    devices: &mut Devices,
    by: Requester,
    refusal: Option<u8>,
) -> Result<ProgramRead, u8>
    requires calls { InCall by machine.old.processes }
    requires sound { AreSoundFiles machine.old.files (drives_seen BlockDriver-box devices.old) }
    ensures call { ReadsProgramFrom by.p.0
        (λ asker was. program_file asker was (vec_len devices.old.terms) (refuses_by refusal))
        (λ asker was. program_calls asker was (vec_len devices.old.terms) refusal) result
        (machine_seen BlockDriver-box machine.old devices.old)
        (machine_seen BlockDriver-box machine.new devices.new) }
    ensures short { IfOk result (λ read. read.size ≤ MOST) }
    ensures same { AreProcessesSame machine.old.processes machine.new.processes }
    ensures kept { SameTerminals by machine.new.processes devices.old devices.new }
{
    let query = Query {
        process: by.p,
        at: by.regs.x,
        directory: machine.files.directory(by.p, true),
        purpose: Purpose::Existing,
        refusal,
    };
    let processes = &mut machine.processes;
    match call_route(processes, &machine.files.disks, devices, query) {
        Err(number) => Err(number),
        Ok(route) => match route.course {
            Course::Device => Err(E_FNA),
            Course::Along(start) => read_along(machine, devices, by, start, route.next),
        },
    }
}

/// Reads the file reached from a start along the names of a path list that ends before `next`.
///
/// # Errors
///
/// As `read_program` from the walk on.
fn read_along(
    machine: &mut Machine,
    devices: &mut Devices,
    by: Requester,
    start: WalkStart,
    next: u32,
) -> Result<ProgramRead, u8>
    requires calls { InCall by machine.old.processes }
    requires names { SomeFrom (cells_of machine.old.processes.memory by.p.0) start.first }
    requires file { HasFileAt machine.old.files.disks
        (drives_seen BlockDriver-box devices.old) start.directory }
    ensures along { ReadsAlong by.p.0 start.directory start.first next result
        (machine_seen BlockDriver-box machine.old devices.old)
        (machine_seen BlockDriver-box machine.new devices.new) }
    ensures short { IfOk result (λ read. read.size ≤ MOST) }
    ensures same { AreProcessesSame machine.old.processes machine.new.processes }
    ensures kept { SameTerminals by machine.new.processes devices.old devices.new }
{
    let user = machine.processes.table.user(by.p);
    let walker = Walker {
        process: by.p,
        by: Searcher {
            user,
            execute: true,
        },
    };
    let processes = &mut machine.processes;
    match call_walk(processes, &mut machine.files.disks, devices, walker, start) {
        Err(error) => Err(error.number()),
        Ok(place) => read_there(machine, devices, user, Located { place, next }),
    }
}

/// Reads the file that a path list names.
///
/// # Errors
///
/// As `read_program` after the walk.
fn read_there(
    machine: &mut Machine,
    devices: &mut Devices,
    user: u16,
    located: Located,
) -> Result<ProgramRead, u8>
    requires file { HasFileAt machine.old.files.disks
        (drives_seen BlockDriver-box devices.old) located.place }
    ensures there { (was : Files) (found : Found) → HasFoundFile located.place was found
        (machine_seen BlockDriver-box machine.old devices.old)
        → ReadsBetween (program_there user was located.next found) (found_calls user was found) was
        result (machine_seen BlockDriver-box machine.old devices.old)
        (machine_seen BlockDriver-box machine.new devices.new) }
    ensures short { IfOk result (λ read. read.size ≤ MOST) }
    ensures same { AreProcessesSame machine.old.processes machine.new.processes }
    ensures terms_kept { devices.new.terms ≡ devices.old.terms }
{
    let fd = match machine.files.disks.fd(devices, located.place) {
        Err(fault) => return Err(fault.number()),
        Ok(fd) => fd,
    };
    match program_size(&machine.files, located.place, &fd, user) {
        Err(number) => Err(number),
        Ok(size) => {
            let processes = &mut machine.processes;
            let disks = &mut machine.files.disks;
            let loaded = load_whole(processes, disks, devices, located.place, size);
            read_whole(loaded, size, located.next)
        }
    }
}

/// What was read, if the file of `size` bytes was loaded.
///
/// # Errors
///
/// The number of the drive's fault.
fn read_whole(loaded: Result<(), FileFault>, size: u16, next: u32) -> Result<ProgramRead, u8>
    requires { size ≤ MOST }
    ensures read { result ≡ read_by loaded size next }
    ensures short { IfOk result (λ read. read.size ≤ MOST) }
{
    match loaded {
        Err(fault) => Err(fault.number()),
        Ok(()) => Ok(ProgramRead { size, next }),
    }
}
