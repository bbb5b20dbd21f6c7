//! The file that a call's path list names.

ghost use Rattle.std.specs.Prelude.{◌≡◌, IfOk, vec_len};
ghost use Rattle.io_state.specs.Context.{InCall, SameTerminals};
ghost use Rattle.file_state.specs.Context.{machine_seen};
ghost use Rattle.file_drives.specs.Drives.{drives_seen};
ghost use Rattle.file_drives.specs.Mounted.{HasFileAt};
ghost use Rattle.file_state.specs.Tie.{AreSoundFiles};
ghost use Rattle.name_calls.specs.ListCalls.{located_calls};
ghost use Rattle.name_calls.specs.Kept.{KeepsAllButDisks};
ghost use Rattle.name_calls.specs.Locating.{IsLocated, located_by, locates};
ghost use Rattle.name_calls.specs.Looks.{LooksFrom};
ghost use Rattle.proc_state.specs.Tie.{AreProcessesSame};

use crate::finding::{Lookup, Search, find_route};
use device_table::devices::Devices;
use file_routes::calls::call_walk;
use file_routes::route::{Course, Located, Purpose};
use file_routes::walk::Walker;
use file_state::machine::Machine;
use io_state::requester::Requester;
use lock_model::place::FilePlace;
use os9_base::errors::E_FNA;
use os9_outer::drive::BlockDriver;
use rbf_walk::{DirError, Searcher};

/// Finds the file that the path list at X names, from the execution directory of the process or
/// from its data directory, if the list names no device (System Programmer's Manual, I$Open).
///
/// # Errors
///
/// The number of the refusal: that of `find_route`, else E$FNA exactly if the list names a terminal
/// or a pipe; else that of the walk: E$FNA, E$PNNF, or the number of the drive's fault.
pub(crate) fn locate(
    machine: &mut Machine,
    devices: &mut Devices,
    by: Requester,
    lookup: Lookup,
) -> Result<Located, u8>
    requires calls { InCall by machine.old.processes }
    requires sound { AreSoundFiles machine.old.files (drives_seen BlockDriver-box devices.old) }
    ensures locates { LooksFrom IsLocated (locates lookup.execute lookup.refusal)
        (located_calls lookup.execute (λ v file. 0)) by.p.0 (vec_len devices.old.terms) result
        (machine_seen BlockDriver-box machine.old devices.old)
        (machine_seen BlockDriver-box machine.new devices.new) }
    ensures there { IfOk result (λ located. HasFileAt machine.new.files.disks
        (drives_seen BlockDriver-box devices.new) located.place) }
    ensures rest_kept { KeepsAllButDisks machine.old.files machine.new.files }
    ensures same { AreProcessesSame machine.old.processes machine.new.processes }
    ensures kept { SameTerminals by machine.new.processes devices.old devices.new }
{
    let searcher = Searcher {
        user: machine.processes.table.user(by.p),
        execute: lookup.execute,
    };
    let walker = Walker {
        process: by.p,
        by: searcher,
    };
    let search = Search {
        purpose: Purpose::Existing,
        lookup,
    };
    let processes = &mut machine.processes;
    let route = match find_route(processes, &machine.files, devices, by, search) {
        Err(number) => return Err(number),
        Ok(route) => route,
    };
    let Course::Along(start) = route.course else {
        return Err(E_FNA);
    };
    behind_list(
        call_walk(processes, &mut machine.files.disks, devices, walker, start),
        route.next,
    )
}

/// The file at the end of a walk, by a list that ends before an address.
///
/// # Errors
///
/// The number of the walk's error.
fn behind_list(arrived: Result<FilePlace, DirError>, next: u32) -> Result<Located, u8>
    ensures { result ≡ located_by arrived next }
{
    match arrived {
        Err(error) => Err(error.number()),
        Ok(place) => Ok(Located { place, next }),
    }
}
