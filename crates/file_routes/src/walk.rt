//! The walk along the names of a path list.

ghost use Rattle.std.specs.Prelude.{◌≡◌, ◌<◌, ℕ, Ok, IfOk, List};
ghost use Rattle.guest_memory.specs.Tie.{IsMemorySame, cells_of};
ghost use Rattle.file_drives.specs.Drives.{drives_seen};
ghost use Rattle.file_drives.specs.Mounted.{HasFileAt};
ghost use Rattle.device_paths.specs.Standing.{NamesFrom, NamesStand};
ghost use Rattle.file_routes.specs.Walks.{StepsToLaterName, ReachesLast, SomeFrom, SomeStand, StepsAlongNames, WalksAlongNames, WalksBy, WalksToLast, stepped_to};

use device_paths::named::read_name;
use device_table::devices::Devices;
use file_drives::disks::Disks;
use guest_memory::memory::Memory;
use lock_model::place::FilePlace;
use os9_base::name::Name;
use os9_base::registers::Pid;
use os9_outer::drive::BlockDriver;
use rbf_walk::{DirError, Searcher};

/// Who walks along a path list, and for what.
#[derive(Clone, Copy, Debug)]
pub struct Walker {
    /// The process in whose memory the path list is.
    pub process: Pid,
    /// Who searches the directories.
    pub by: Searcher,
}

/// The last name of a path list, and the directory in which it has to be looked up.
#[derive(Clone, Copy, Debug)]
pub struct LastName {
    pub directory: FilePlace,
    pub name: Name,
}

/// The address of a name of a path list, and the directory in which it has to be looked up.
#[derive(Clone, Copy, Debug)]
pub struct NamePlace {
    pub directory: FilePlace,
    pub at: u16,
}

/// The directory in which a walk begins, and the address of the first name of its path list; None
/// if there are no names.
#[derive(Clone, Copy, Debug, PartialEq, Eq)]
pub struct WalkStart {
    pub directory: FilePlace,
    pub first: Option<u16>,
}

/// The result of one name of a path list.
#[derive(Clone, Copy, Debug)]
pub enum Stepped {
    /// It is the last name, and has not been looked up.
    Last,
    /// It names the directory of the next name, which is here.
    Onward(NamePlace),
}

/// Goes from a start along the names of its path list. Returns the file that is reached, or the
/// directory itself if there are no names. Each searched directory must let the user read it, or
/// execute it in search of a file to execute (OS-9 Technical Reference, I$Open).
///
/// # Errors
///
/// `NotAllowed` at the first name that is looked up in a file that is not a directory or may not be
/// searched, `NotFound` at the first that is not there, `Device` if a read of the drive fails.
pub fn walk(
    memory: &mut Memory,
    disks: &mut Disks,
    devices: &mut Devices,
    walker: Walker,
    start: WalkStart,
) -> Result<FilePlace, DirError>
    requires process { walker.process.0 < 33 }
    requires names { SomeFrom (cells_of memory.old walker.process.0) start.first }
    requires file { HasFileAt disks.old (drives_seen BlockDriver-box devices.old) start.directory }
    ensures walks { (names : List (List ℕ))
        → NamesFrom (cells_of memory.old walker.process.0) start.first names
        → WalksAlongNames walker start.directory names result
        disks.old (drives_seen BlockDriver-box devices.old)
        disks.new (drives_seen BlockDriver-box devices.new) }
    ensures same { IsMemorySame memory.old memory.new }
    ensures terms_kept { devices.new.terms ≡ devices.old.terms }
{
    let Some(at) = start.first else {
        return Ok(start.directory);
    };
    let first = NamePlace {
        directory: start.directory,
        at,
    };
    match walk_to_last(memory, disks, devices, walker, first) {
        Err(error) => Err(error),
        Ok(last) => walk_by(disks, devices, walker, last.directory, &last.name),
    }
}

/// Goes from the directory of the first name of a path list along all names but the last. Returns
/// the directory that is reached and the last name.
///
/// # Errors
///
/// As `walk`.
pub fn walk_to_last(
    memory: &mut Memory,
    disks: &mut Disks,
    devices: &mut Devices,
    walker: Walker,
    first: NamePlace,
) -> Result<LastName, DirError>
    requires process { walker.process.0 < 33 }
    requires names { SomeStand (cells_of memory.old walker.process.0) first.at }
    requires file { HasFileAt disks.old (drives_seen BlockDriver-box devices.old) first.directory }
    ensures walks { (names : List (List ℕ))
        → NamesStand (cells_of memory.old walker.process.0) first.at names
        → WalksToLast walker first.directory names result
        disks.old (drives_seen BlockDriver-box devices.old)
        disks.new (drives_seen BlockDriver-box devices.new) }
    ensures same { IsMemorySame memory.old memory.new }
    ensures terms_kept { devices.new.terms ≡ devices.old.terms }
{
    match reach_last(memory, disks, devices, walker, first) {
        Err(error) => Err(error),
        Ok(last) => match read_name(memory, walker.process, last.at) {
            Err(_) => unreachable!(),
            Ok(named) => Ok(LastName {
                directory: last.directory,
                name: named.name,
            }),
        },
    }
}

/// Goes from the directory of the first name of a path list along all names but the last. Returns
/// the place of the last name.
///
/// # Errors
///
/// As `walk`.
fn reach_last(
    memory: &mut Memory,
    disks: &mut Disks,
    devices: &mut Devices,
    walker: Walker,
    first: NamePlace,
) -> Result<NamePlace, DirError>
    requires process { walker.process.0 < 33 }
    requires names { SomeStand (cells_of memory.old walker.process.0) first.at }
    requires file { HasFileAt disks.old (drives_seen BlockDriver-box devices.old) first.directory }
    ensures reaches { (names : List (List ℕ))
        → NamesStand (cells_of memory.old walker.process.0) first.at names
        → ReachesLast (cells_of memory.old walker.process.0) walker first.directory names result
        disks.old (drives_seen BlockDriver-box devices.old)
        disks.new (drives_seen BlockDriver-box devices.new) }
    ensures same { IsMemorySame memory.old memory.new }
    ensures terms_kept { devices.new.terms ≡ devices.old.terms }
{
    let mut place = first;
    'names: loop {
        match step(memory, disks, devices, walker, place) {
            Err(error) => return Err(error),
            Ok(Stepped::Last) => return Ok(place),
            Ok(Stepped::Onward(next)) => place = next,
        }
    }
}

/// Reads the name at a place, and goes from its directory by it if it is not the last.
///
/// # Errors
///
/// As `walk`.
fn step(
    memory: &mut Memory,
    disks: &mut Disks,
    devices: &mut Devices,
    walker: Walker,
    place: NamePlace,
) -> Result<Stepped, DirError>
    requires process { walker.process.0 < 33 }
    requires names { SomeStand (cells_of memory.old walker.process.0) place.at }
    requires file { HasFileAt disks.old (drives_seen BlockDriver-box devices.old) place.directory }
    ensures steps { (names : List (List ℕ))
        → NamesStand (cells_of memory.old walker.process.0) place.at names
        → StepsAlongNames (cells_of memory.old walker.process.0) walker place.directory names result
        disks.old (drives_seen BlockDriver-box devices.old)
        disks.new (drives_seen BlockDriver-box devices.new) }
    ensures up { IfOk result (StepsToLaterName place.at) }
    ensures same { IsMemorySame memory.old memory.new }
    ensures terms_kept { devices.new.terms ≡ devices.old.terms }
{
    match read_name(memory, walker.process, place.at) {
        Err(_) => unreachable!(),
        Ok(named) => match named.next {
            None => Ok(Stepped::Last),
            Some(next) => onward(
                walk_by(disks, devices, walker, place.directory, &named.name),
                next,
            ),
        },
    }
}

/// Goes by one name from a directory.
///
/// # Errors
///
/// As `walk`.
fn walk_by(
    disks: &mut Disks,
    devices: &mut Devices,
    walker: Walker,
    directory: FilePlace,
    name: &Name,
) -> Result<FilePlace, DirError>
    requires file { HasFileAt disks.old (drives_seen BlockDriver-box devices.old) directory }
    ensures walks { WalksBy walker directory name.now result
        disks.old (drives_seen BlockDriver-box devices.old)
        disks.new (drives_seen BlockDriver-box devices.new) }
    ensures terms_kept { devices.new.terms ≡ devices.old.terms }
{
    disks.walk_to(devices, directory, name, walker.by)
}

/// The result of a name: the file that it names, if there is one, with the address of the next
/// name.
fn onward(arrived: Result<FilePlace, DirError>, next: u16) -> Result<Stepped, DirError>
    ensures { result ≡ stepped_to next arrived }
{
    match arrived {
        Err(error) => Err(error),
        Ok(directory) => Ok(Stepped::Onward(NamePlace {
            directory,
            at: next,
        })),
    }
}
