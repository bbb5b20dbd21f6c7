//! The routes of path lists.

ghost use Rattle.std.specs.Prelude.{◌≡◌, ◌||◌, ◌<◌, ℕ, Bool, Option, Some, Ok, Err, IfOk, IfSome, List, vec_len, if◌then◌else◌};
ghost use Rattle.guest_memory.specs.Tie.{IsMemorySame, cells_of};
ghost use Rattle.os9_base.specs.Cells.{Cells};
ghost use Rattle.io_model.specs.PathList.{PathList, path_list};
ghost use Rattle.rbf_model.specs.Volume.{DiskVolume};
ghost use Rattle.file_rules.specs.Files.{Asker, Files};
ghost use Rattle.file_rules.specs.Route.{route_of_device};
ghost use Rattle.file_drives.specs.Drives.{DriveView};
ghost use Rattle.file_drives.specs.Mounted.{AreMounted, HasFileAt};
ghost use Rattle.device_paths.specs.Listed.{listed};
ghost use Rattle.device_paths.specs.Standing.{NamesFrom};
ghost use Rattle.file_routes.specs.Routes as model;
ghost use Rattle.file_routes.specs.Routes.{Asks, IsDriveInRange, IsRouteFor, IsRouteOf, NamesOn, RouteHasNames, RouteStarts, StartsAtFile, along_from, names_root, route_for, route_on};

use crate::walk::WalkStart;
use device_paths::list::{Listed, read_path_list};
use device_table::devices::{Dev, Devices};
use file_drives::disks::Disks;
use guest_memory::memory::Memory;
use lock_model::place::FilePlace;
use os9_base::errors::{E_BMODE, E_BPADDR, E_BPNAM, E_MNF, E_PNNF};
use os9_base::name_fault::NameFault;
use os9_base::registers::Pid;

/// The purpose of a call with a path list.
#[derive(Clone, Copy, Debug, PartialEq, Eq)]
pub enum Purpose {
    /// To find what exists.
    Existing,
    /// To find a place for what the call makes.
    New,
}

/// A call's query for the route of its path list.
#[derive(Clone, Copy, Debug, PartialEq, Eq)]
pub struct Query {
    /// The process that calls.
    pub process: Pid,
    /// The address of its path list.
    pub at: u16,
    /// The directory of the process at which a list without a device starts.
    pub directory: Option<FilePlace>,
    pub purpose: Purpose,
    /// The number with which the call is refused if no byte of its list is missing; None if it goes
    /// on.
    pub refusal: Option<u8>,
}

/// Where a route goes: along names, or to a device.
#[derive(Clone, Copy, Debug, PartialEq, Eq)]
pub enum Course {
    /// From a directory along the names of the path list.
    Along(WalkStart),
    /// To a terminal or a pipe.
    Device,
}

/// The route of a path list that was read: what it leads to.
#[derive(Clone, Copy, Debug, PartialEq, Eq)]
pub struct Route {
    pub course: Course,
    /// The address just past the path list.
    pub next: u32,
}

/// The file to which a route leads.
#[derive(Clone, Copy, Debug, PartialEq, Eq)]
pub struct Located {
    pub place: FilePlace,
    /// The address just past the path list.
    pub next: u32,
}

/// The route of the path list of a call (System Programmer's Manual, I$Open; Level Two manual,
/// device descriptors): from the root of the drive that the list names, else from the directory of
/// the process.
///
/// # Errors
///
/// The number of the refusal: E$BPAddr exactly if a byte of the list that has to be read is in no
/// named slot or past `FFFF`; else that of the query, if it has one; else E$BPNam exactly if a
/// required name is missing, if something is made at the root of a drive or with the name of a
/// directory itself or of the one above it, or if a slash follows a terminal or a pipe; else E$PNNF
/// exactly if the list names no device and the process has no directory, and E$MNF exactly if its
/// device does not exist or is a drive without a volume.
pub fn find_route(
    memory: &mut Memory,
    disks: &Disks,
    devices: &Devices,
    query: Query,
) -> Result<Route, u8>
    requires { query.process.0 < 33 }
    ensures route { (asker : Asker) (files : Files) (execute : Bool) (views : List DriveView)
        → Asks query (cells_of memory.old query.process.0) disks.now views
        (vec_len devices.now.drives) asker files execute
        → IsRouteFor query.purpose query.refusal (cells_of memory.old query.process.0)
        asker files (vec_len devices.now.terms) execute result }
    ensures names { RouteHasNames (cells_of memory.old query.process.0) result }
    ensures start { (views : List DriveView) (volumes : List (Option DiskVolume))
        → AreMounted disks.now views volumes → IfSome query.directory (HasFileAt disks.now views)
        → RouteStarts disks.now views result }
    ensures same { IsMemorySame memory.old memory.new }
{
    match read_path_list(memory, query.process, query.at) {
        Err(NameFault::Unreadable) => Err(E_BPADDR),
        Err(NameFault::NoName) => unless_refused(query.refusal, Err(E_BPNAM)),
        Ok(list) => unless_refused(query.refusal, route_of(disks, devices, query, &list)),
    }
}

/// The refusal of a call by its mode (System Programmer's Manual, E$BMode): E$BMode, if the mode is
/// not allowed.
pub fn mode_refusal(allowed: bool) -> Option<u8>
    ensures { result ≡ model.mode_refusal allowed }
{
    if allowed { None } else { Some(E_BMODE) }
}

/// The route, if the call has no refusal.
///
/// # Errors
///
/// The number of the call's refusal if it has one, else that of the list's.
fn unless_refused(refusal: Option<u8>, route: Result<Route, u8>) -> Result<Route, u8>
    ensures { result ≡ model.unless_refused refusal route }
{
    match refusal {
        None => route,
        Some(number) => Err(number),
    }
}

/// The route of a path list that was read.
///
/// # Errors
///
/// As `find_route`.
fn route_of(disks: &Disks, devices: &Devices, query: Query, list: &Listed) -> Result<Route, u8>
    ensures route { (asker : Asker) (files : Files) (execute : Bool) (cells : Cells)
        (views : List DriveView) (named : PathList)
        → Asks query cells disks.now views (vec_len devices.now.drives) asker files execute
        → path_list cells query.at ≡ Ok named → list.now ≡ listed named
        → IsRouteOf cells named
        (route_for query.purpose asker files (vec_len devices.now.terms) execute named) result }
    ensures names { (cells : Cells) (named : PathList) → path_list cells query.at ≡ Ok named
        → list.now ≡ listed named → RouteHasNames cells result }
    ensures start { (views : List DriveView) (volumes : List (Option DiskVolume))
        → AreMounted disks.now views volumes → IfSome query.directory (HasFileAt disks.now views)
        → RouteStarts disks.now views result }
{
    match course_by(disks, devices, query, list) {
        Err(number) => Err(number),
        Ok(course) => Ok(Route {
            course,
            next: list.next,
        }),
    }
}

/// The course of a path list that was read.
///
/// # Errors
///
/// As `find_route`.
fn course_by(disks: &Disks, devices: &Devices, query: Query, list: &Listed) -> Result<Course, u8>
    ensures course { (asker : Asker) (files : Files) (execute : Bool) (cells : Cells)
        (views : List DriveView) (named : PathList)
        → Asks query cells disks.now views (vec_len devices.now.drives) asker files execute
        → list.now ≡ listed named → route_on result named.names
        ≡ route_for query.purpose asker files (vec_len devices.now.terms) execute named }
    ensures names { (cells : Cells) (named : PathList) → path_list cells query.at ≡ Ok named
        → list.now ≡ listed named → IfOk result (λ course. NamesOn cells course named.names) }
    ensures start { (views : List DriveView) (volumes : List (Option DiskVolume))
        → AreMounted disks.now views volumes → IfSome query.directory (HasFileAt disks.now views)
        → IfOk result (StartsAtFile disks.now views) }
{
    if makes_nothing(query.purpose, devices, list) {
        return Err(E_BPNAM);
    }
    let first = list.first_name(query.at);
    match &list.device {
        None => along(query.directory, first, E_PNNF),
        Some(name) => match devices.find(name) {
            None => Err(E_MNF),
            Some(device) => course_on(disks, device, list, first),
        },
    }
}

/// The course of a path list that starts at this device, with the first of its names at an address.
///
/// # Errors
///
/// E$MNF exactly if it is a drive without a volume, E$BPNam exactly if it is a terminal or a pipe
/// followed by a slash.
fn course_on(disks: &Disks, device: Dev, list: &Listed, first: Option<u16>) -> Result<Course, u8>
    requires { IsDriveInRange device }
    ensures course { (files : Files) (views : List DriveView) (named : PathList)
        → AreMounted disks.now views files.volumes → list.now ≡ listed named
        → route_on result named.names ≡ route_of_device files named (Some device) }
    ensures names { (cells : Cells) (names : List (List ℕ)) → NamesFrom cells first names
        → IfOk result (λ course. NamesOn cells course names) }
    ensures start { (views : List DriveView) (volumes : List (Option DiskVolume))
        → AreMounted disks.now views volumes → IfOk result (StartsAtFile disks.now views) }
{
    match device {
        Dev::Drive(n) => along(disks.root(n), first, E_MNF),
        Dev::Term(_) | Dev::Pipe => unless_slash(list),
    }
}

/// The course from a directory along names, with the first name at an address.
///
/// # Errors
///
/// This number exactly if there is no directory.
fn along(directory: Option<FilePlace>, first: Option<u16>, number: u8) -> Result<Course, u8>
    ensures { result ≡ along_from directory first number }
{
    match directory {
        None => Err(number),
        Some(directory) => Ok(Course::Along(WalkStart { directory, first })),
    }
}

/// The course to a terminal or a pipe.
///
/// # Errors
///
/// E$BPNam exactly if a slash follows it.
fn unless_slash(list: &Listed) -> Result<Course, u8>
    ensures { result
        ≡ (if list.now.slash || list.now.has_names then Err E_BPNAM else Ok Course.Device) }
{
    if list.slash || list.has_names {
        Err(E_BPNAM)
    } else {
        Ok(Course::Device)
    }
}

/// Does this call make something where nothing may be made: at the root of a drive, or with the
/// name of a directory itself or of the one above it?
fn makes_nothing(purpose: Purpose, devices: &Devices, list: &Listed) -> bool
    ensures { result ≡ model.makes_nothing purpose (vec_len devices.now.drives)
        (vec_len devices.now.terms) list.now }
{
    match purpose {
        Purpose::Existing => false,
        Purpose::New => list.dots || is_root(devices, list),
    }
}

/// Is the list the root of a drive?
fn is_root(devices: &Devices, list: &Listed) -> bool
    ensures { result ≡ names_root (vec_len devices.now.drives) (vec_len devices.now.terms)
        list.now }
{
    if list.has_names {
        return false;
    }
    match &list.device {
        None => false,
        Some(name) => matches!(devices.find(name), Some(Dev::Drive(_))),
    }
}
