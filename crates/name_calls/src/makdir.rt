//! I$MakDir.

ghost use Rattle.std.specs.Prelude.{◌≡◌, List, length, vec_len};
ghost use Rattle.io_state.specs.Context.{InCall, SameTerminals};
ghost use Rattle.file_state.specs.Context.{machine_seen};
ghost use Rattle.file_drives.specs.Drives.{drives_seen};
ghost use Rattle.file_drives.specs.Mounted.{HasFileAt};
ghost use Rattle.file_rules.specs.MakDir as model;
ghost use Rattle.file_rules.specs.declared.path_call.PathCall.TheVariants as Call;
ghost use Rattle.file_state.specs.Counted.{AttemptsWithin};
ghost use Rattle.file_state.specs.Tie.{AreSoundFiles};
ghost use Rattle.file_state.specs.Context.{InFirstAttempt};
ghost use Rattle.name_calls.specs.ListCalls.{i_makdir_calls};
ghost use Rattle.name_calls.specs.Kept.{KeepsAllButDisks};
ghost use Rattle.name_calls.specs.MakDir.{MakesIn};
ghost use Rattle.name_calls.specs.Tries.{TriesNameCallFrom};
ghost use Rattle.os9_outer.specs.TerminalState.{TerminalState};
ghost use Rattle.proc_state.specs.Tie.{AreProcessesSame};

use crate::ends::end_call;
use crate::finding::{Lookup, Search};
use crate::naming::{LastLocated, locate_last};
use device_table::devices::Devices;
use file_routes::route::Purpose;
use file_state::machine::Machine;
use file_state::state::FileState;
use io_state::requester::Requester;
use os9_base::call::CallEnd;
use os9_outer::drive::BlockDriver;
use rbf_entries::NewEntry;
use rbf_walk::Searcher;

/// I$MakDir: makes a directory (System Programmer's Manual, I$MakDir). Takes its attributes in B
/// and the address of the path list in X; returns X past the list.
///
/// # Errors
///
/// E$BPAddr exactly if a byte of the path list that has to be read is in no named slot or past
/// `FFFF`; else those of the list; else E$FNA exactly if it names a terminal or a pipe; else those
/// of the walk to the directory above; else E$FNA exactly if the user may not change that
/// directory, E$CEF exactly if the name is there, E$Full exactly if too few clusters are free,
/// E$SLF exactly if the directory above needs one more segment and has no room for it. The number
/// of the fault, if the drive fails.
pub fn i_makdir(machine: &mut Machine, devices: &mut Devices, by: Requester) -> CallEnd
    requires calls { InFirstAttempt by machine.old }
    requires sound { AreSoundFiles machine.old.files (drives_seen BlockDriver-box devices.old) }
    ensures call { (terms : List TerminalState) → length terms ≡ vec_len devices.old.terms
        → AttemptsWithin i_makdir_calls Call.MakDir by.time by.p.0 result terms terms
        (machine_seen BlockDriver-box machine.old devices.old)
        (machine_seen BlockDriver-box machine.new devices.new) }
    ensures kept { SameTerminals by machine.new.processes devices.old devices.new }
{
    let came = make_directory(machine, devices, by);
    end_call(machine, by, came)
}

/// Makes the directory that the path list at X names, and returns the address just past the list.
///
/// # Errors
///
/// As `i_makdir`.
fn make_directory(machine: &mut Machine, devices: &mut Devices, by: Requester) -> Result<u32, u8>
    requires calls { InCall by machine.old.processes }
    requires sound { AreSoundFiles machine.old.files (drives_seen BlockDriver-box devices.old) }
    ensures tries { TriesNameCallFrom model.i_makdir i_makdir_calls by.time by.p.0
        (vec_len devices.old.terms) result (machine_seen BlockDriver-box machine.old devices.old)
        (machine_seen BlockDriver-box machine.new devices.new) }
    ensures io_kept { machine.new.files.io ≡ machine.old.files.io }
    ensures same { AreProcessesSame machine.old.processes machine.new.processes }
    ensures kept { SameTerminals by machine.new.processes devices.old devices.new }
{
    let user = machine.processes.table.user(by.p);
    let search = Search {
        purpose: Purpose::New,
        lookup: Lookup {
            execute: false,
            refusal: None,
        },
    };
    match locate_last(machine, devices, by, search) {
        Err(number) => Err(number),
        Ok(located) => make_in(&mut machine.files, devices, by, user, located),
    }
}

/// Makes a directory for a user with the last name of a path list in the directory that was found,
/// and returns the address just past the list.
///
/// # Errors
///
/// In this order: E$FNA exactly if the user may not change the directory above, E$CEF exactly if
/// the name is there, E$Full exactly if too few clusters are free, E$SLF exactly if the directory
/// above needs one more segment and has no room for it. The number of the fault, if the drive
/// fails.
fn make_in(
    files: &mut FileState,
    devices: &mut Devices,
    by: Requester,
    user: u16,
    located: LastLocated,
) -> Result<u32, u8>
    requires { HasFileAt files.old.disks (drives_seen BlockDriver-box devices.old)
        located.last.directory }
    ensures makes { MakesIn by user located files.old (drives_seen BlockDriver-box devices.old)
        result files.new (drives_seen BlockDriver-box devices.new) }
    ensures rest_kept { KeepsAllButDisks files.old files.new }
    ensures terms_kept { devices.new.terms ≡ devices.old.terms }
{
    let last = located.last;
    let disks = &mut files.disks;
    let searcher = Searcher {
        user,
        execute: false,
    };
    let file = NewEntry {
        name: last.name,
        attr: by.regs.b,
        date: by.time,
    };
    match disks.find_place(devices, last.directory, &file.name, searcher) {
        Err(error) => Err(error.number()),
        Ok(place) => match disks.make_dir_at(devices, last.directory, &place, &file) {
            Err(fault) => Err(fault.number()),
            Ok(_) => Ok(located.next),
        },
    }
}
