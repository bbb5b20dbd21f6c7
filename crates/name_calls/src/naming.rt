//! The last name of a call's path list, and the directory in which it has to be looked up.

ghost use Rattle.std.specs.Prelude.{◌≡◌, IfOk, vec_len};
ghost use Rattle.io_state.specs.Context.{InCall, SameTerminals};
ghost use Rattle.file_state.specs.Context.{machine_seen};
ghost use Rattle.file_drives.specs.Drives.{drives_seen};
ghost use Rattle.file_drives.specs.Mounted.{HasFileAt};
ghost use Rattle.file_state.specs.Tie.{AreSoundFiles};
ghost use Rattle.name_calls.specs.ListCalls.{named_calls};
ghost use Rattle.name_calls.specs.Kept.{KeepsAllButDisks};
ghost use Rattle.name_calls.specs.Looks.{LooksFrom};
ghost use Rattle.name_calls.specs.Naming.{IsNameLocated, last_by, names_last};
ghost use Rattle.name_calls.specs.Naming as model;
ghost use Rattle.proc_state.specs.Tie.{AreProcessesSame};

use crate::finding::{Search, find_route};
use device_table::devices::Devices;
use file_routes::calls::call_walk_to_last;
use file_routes::route::{Course, Purpose};
use file_routes::walk::{LastName, NamePlace, Walker};
use file_state::machine::Machine;
use io_state::requester::Requester;
use os9_base::errors::{E_BPNAM, E_FNA};
use os9_outer::drive::BlockDriver;
use rbf_walk::{DirError, Searcher};

/// The last name of a path list, and the directory that the names before it lead to.
#[derive(Clone, Copy, Debug)]
pub struct LastLocated {
    pub last: LastName,
    /// The address just past the path list.
    pub next: u32,
}

/// Finds the last name of the path list at X, and the directory that the names before it lead to,
/// from the execution directory of the process or from its data directory, if the list names no
/// device (System Programmer's Manual, I$Create and I$Delete).
///
/// # Errors
///
/// The number of the refusal: that of `find_route`, else E$FNA exactly if the list names a terminal
/// or a pipe. Else, if it has no names, E$FNA if its file has to exist and E$BPNam if it has to be
/// made; else that of the walk: E$FNA, E$PNNF, or the number of the drive's fault.
pub(crate) fn locate_last(
    machine: &mut Machine,
    devices: &mut Devices,
    by: Requester,
    search: Search,
) -> Result<LastLocated, u8>
    requires calls { InCall by machine.old.processes }
    requires sound { AreSoundFiles machine.old.files (drives_seen BlockDriver-box devices.old) }
    ensures locates { LooksFrom (IsNameLocated search.purpose)
        (names_last search.purpose search.lookup.execute search.lookup.refusal)
        (named_calls search.purpose search.lookup.execute (λ name v dir. 0)) by.p.0
        (vec_len devices.old.terms) result (machine_seen BlockDriver-box machine.old devices.old)
        (machine_seen BlockDriver-box machine.new devices.new) }
    ensures there { IfOk result (λ located. HasFileAt machine.new.files.disks
        (drives_seen BlockDriver-box devices.new) located.last.directory) }
    ensures rest_kept { KeepsAllButDisks machine.old.files machine.new.files }
    ensures same { AreProcessesSame machine.old.processes machine.new.processes }
    ensures kept { SameTerminals by machine.new.processes devices.old devices.new }
{
    let searcher = Searcher {
        user: machine.processes.table.user(by.p),
        execute: search.lookup.execute,
    };
    let walker = Walker {
        process: by.p,
        by: searcher,
    };
    let processes = &mut machine.processes;
    let route = match find_route(processes, &machine.files, devices, by, search) {
        Err(number) => return Err(number),
        Ok(route) => route,
    };
    let Course::Along(start) = route.course else {
        return Err(E_FNA);
    };
    let Some(at) = start.first else {
        return Err(unnamed_number(search.purpose));
    };
    let first = NamePlace {
        directory: start.directory,
        at,
    };
    behind_list(
        call_walk_to_last(processes, &mut machine.files.disks, devices, walker, first),
        route.next,
    )
}

/// The number with which a list without names is refused.
fn unnamed_number(purpose: Purpose) -> u8
    ensures { result ≡ model.unnamed_number purpose }
{
    match purpose {
        Purpose::New => E_BPNAM,
        Purpose::Existing => E_FNA,
    }
}

/// The last name and its directory, by a list that ends before an address.
///
/// # Errors
///
/// The number of the walk's error.
fn behind_list(reached: Result<LastName, DirError>, next: u32) -> Result<LastLocated, u8>
    ensures { result ≡ last_by reached next }
{
    match reached {
        Err(error) => Err(error.number()),
        Ok(last) => Ok(LastLocated { last, next }),
    }
}
