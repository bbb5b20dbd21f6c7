//! The path lists of calls of processes.

ghost use Rattle.std.specs.Prelude.{◌≡◌, ◌<◌, ℕ, Bool, IfSome, Option, List, vec_len};
ghost use Rattle.proc_model.specs.Processes.{Processes, cells_at};
ghost use Rattle.guest_memory.specs.Tie.{cells_of};
ghost use Rattle.os9_base.specs.declared.registers.TimePacket.{TimePacket};
ghost use Rattle.proc_state.specs.Tie.{AreProcessesSame, RepresentsProcesses};
ghost use Rattle.rbf_model.specs.Volume.{DiskVolume};
ghost use Rattle.file_rules.specs.Attempts.{asker_of};
ghost use Rattle.file_rules.specs.Files.{Files};
ghost use Rattle.file_drives.specs.Drives.{DriveView, drives_seen};
ghost use Rattle.file_drives.specs.Mounted.{AreMounted, HasFileAt};
ghost use Rattle.device_paths.specs.Standing.{NamesFrom, NamesStand};
ghost use Rattle.file_routes.specs.Walks.{SomeFrom, SomeStand, WalksAlongNames, WalksToLast};
ghost use Rattle.file_routes.specs.Routes.{Asks, IsRouteFor, RouteHasNames, RouteStarts};

use crate::route::{Query, Route, find_route};
use crate::walk::{LastName, NamePlace, WalkStart, Walker, walk, walk_to_last};
use device_table::devices::Devices;
use file_drives::disks::Disks;
use lock_model::place::FilePlace;
use os9_outer::drive::BlockDriver;
use proc_state::state::ProcState;
use rbf_walk::DirError;

/// The route of the path list of a process's call.
///
/// # Errors
///
/// As `find_route`.
pub fn call_route(
    s: &mut ProcState,
    disks: &Disks,
    devices: &Devices,
    query: Query,
) -> Result<Route, u8>
    requires { query.process.0 < 33 }
    ensures route { (m : Processes) (now : TimePacket) (files : Files) (execute : Bool)
        (views : List DriveView) → RepresentsProcesses s.old m
        → Asks query (cells_at m query.process.0) disks.now views (vec_len devices.now.drives)
        (asker_of m query.process.0 now) files execute
        → IsRouteFor query.purpose query.refusal (cells_at m query.process.0)
        (asker_of m query.process.0 now) files (vec_len devices.now.terms) execute result }
    ensures names { RouteHasNames (cells_of s.old.memory query.process.0) result }
    ensures start { (views : List DriveView) (volumes : List (Option DiskVolume))
        → AreMounted disks.now views volumes → IfSome query.directory (HasFileAt disks.now views)
        → RouteStarts disks.now views result }
    ensures same { AreProcessesSame s.old s.new }
{
    find_route(&mut s.memory, disks, devices, query)
}

/// Goes from a start along the names of the path list of a process's call.
///
/// # Errors
///
/// As `walk`.
pub fn call_walk(
    s: &mut ProcState,
    disks: &mut Disks,
    devices: &mut Devices,
    walker: Walker,
    start: WalkStart,
) -> Result<FilePlace, DirError>
    requires process { walker.process.0 < 33 }
    requires names { SomeFrom (cells_of s.old.memory walker.process.0) start.first }
    requires file { HasFileAt disks.old (drives_seen BlockDriver-box devices.old) start.directory }
    ensures walks { (m : Processes) (names : List (List ℕ)) → RepresentsProcesses s.old m
        → NamesFrom (cells_at m walker.process.0) start.first names
        → WalksAlongNames walker start.directory names result
        disks.old (drives_seen BlockDriver-box devices.old)
        disks.new (drives_seen BlockDriver-box devices.new) }
    ensures same { AreProcessesSame s.old s.new }
    ensures terms_kept { devices.new.terms ≡ devices.old.terms }
{
    walk(&mut s.memory, disks, devices, walker, start)
}

/// Goes from the directory of the first name of the path list of a process's call along all names
/// but the last. Returns the last name and the directory that is reached.
///
/// # Errors
///
/// As `walk`.
pub fn call_walk_to_last(
    s: &mut ProcState,
    disks: &mut Disks,
    devices: &mut Devices,
    walker: Walker,
    first: NamePlace,
) -> Result<LastName, DirError>
    requires process { walker.process.0 < 33 }
    requires names { SomeStand (cells_of s.old.memory walker.process.0) first.at }
    requires file { HasFileAt disks.old (drives_seen BlockDriver-box devices.old) first.directory }
    ensures walks { (m : Processes) (names : List (List ℕ)) → RepresentsProcesses s.old m
        → NamesStand (cells_at m walker.process.0) first.at names
        → WalksToLast walker first.directory names result
        disks.old (drives_seen BlockDriver-box devices.old)
        disks.new (drives_seen BlockDriver-box devices.new) }
    ensures same { AreProcessesSame s.old s.new }
    ensures terms_kept { devices.new.terms ≡ devices.old.terms }
{
    walk_to_last(&mut s.memory, disks, devices, walker, first)
}
