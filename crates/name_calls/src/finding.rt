//! The routes of calls' path lists.

ghost use Rattle.std.specs.Prelude.{◌≡◌, ◌<◌, vec_len};
ghost use Rattle.proc_model.specs.Processes.{Processes, cells_at};
ghost use Rattle.io_state.specs.Context.{InCall};
ghost use Rattle.file_drives.specs.Drives.{drives_seen};
ghost use Rattle.name_calls.specs.Steps.{walker_at};
ghost use Rattle.file_rules.specs.Attempts.{asker_of};
ghost use Rattle.file_rules.specs.Files.{Files};
ghost use Rattle.file_state.specs.Tie.{AreSoundFiles, RepresentsFiles};
ghost use Rattle.file_routes.specs.Routes.{IsRouteFor, RouteHasNames, RouteStarts};
ghost use Rattle.guest_memory.specs.Tie.{cells_of};
ghost use Rattle.os9_base.specs.declared.registers.TimePacket.{TimePacket};
ghost use Rattle.proc_state.specs.Tie.{AreProcessesSame, RepresentsProcesses};

use crate::open_modes::is_for_execution;
use device_table::devices::Devices;
use file_routes::calls::call_route;
use file_routes::route::{Purpose, Query, Route};
use file_routes::walk::Walker;
use file_state::state::FileState;
use io_state::requester::Requester;
use os9_outer::drive::BlockDriver;
use proc_state::state::ProcState;
use rbf_walk::Searcher;

/// How a call goes by its path list.
#[derive(Clone, Copy, Debug, PartialEq, Eq)]
pub struct Lookup {
    /// The list starts at the execution directory of the process, if it names no device, and the
    /// walk is in search of a file to execute.
    pub execute: bool,
    /// The number with which the call is refused if no byte of its list is missing; None if it goes
    /// on.
    pub refusal: Option<u8>,
}

/// What a call looks for by its path list, and how.
#[derive(Clone, Copy, Debug, PartialEq, Eq)]
pub struct Search {
    pub purpose: Purpose,
    pub lookup: Lookup,
}

/// Who walks along the path list of a process's call: for execution, if its mode in A is.
pub(crate) fn walker_of(s: &ProcState, by: Requester) -> Walker
    requires { InCall by s.now }
    ensures walker { result ≡ walker_at s.now by.p }
    ensures process { by.p.0 < 33 }
{
    let searcher = Searcher {
        user: s.table.user(by.p),
        execute: is_for_execution(by.regs.a),
    };
    Walker {
        process: by.p,
        by: searcher,
    }
}

/// The route of the path list at X of a process: from the execution directory of the process or
/// from its data directory, if the list names no device (System Programmer's Manual, I$Open).
///
/// # Errors
///
/// The number of the refusal, exactly as for `file_routes::route::find_route`.
pub(crate) fn find_route(
    s: &mut ProcState,
    files: &FileState,
    devices: &Devices,
    by: Requester,
    search: Search,
) -> Result<Route, u8>
    requires calls { InCall by s.old }
    requires sound { AreSoundFiles files.now (drives_seen BlockDriver-box devices.now) }
    ensures route { (m : Processes) (was : Files) (now : TimePacket) → RepresentsProcesses s.old m
        → RepresentsFiles files.now (drives_seen BlockDriver-box devices.now) was
        → IsRouteFor search.purpose search.lookup.refusal (cells_at m by.p.0)
        (asker_of m by.p.0 now) was (vec_len devices.now.terms) search.lookup.execute result }
    ensures names { RouteHasNames (cells_of s.new.memory by.p.0) result }
    ensures start { RouteStarts files.now.disks (drives_seen BlockDriver-box devices.now) result }
    ensures same { AreProcessesSame s.old s.new }
{
    let query = Query {
        process: by.p,
        at: by.regs.x,
        directory: files.directory(by.p, search.lookup.execute),
        purpose: search.purpose,
        refusal: search.lookup.refusal,
    };
    call_route(s, &files.disks, devices, query)
}
