//! A file of modules that was found.

ghost use Rattle.std.specs.Prelude.{◌≡◌, ◌≤◌, IfOk, IsSome, List, OnErr, length};
ghost use Rattle.file_drives.specs.Drives.{DriveView, drives_seen};
ghost use Rattle.file_drives.specs.Mounted.{HasFileAt, OnDisks, ReadsFile};
ghost use Rattle.file_rules.specs.Files.{Files};
ghost use Rattle.file_rules.specs.Open.{may_open};
ghost use Rattle.file_rules.specs.Route.{Found};
ghost use Rattle.file_state.specs.Tie.{RepresentsFiles};
ghost use Rattle.io_model.specs.declared.modes.TheConstants.{MODE_EXECUTE as EXECUTE};
ghost use Rattle.os9_base.specs.declared.limits.TheConstants.{MOST_GROUP_BYTES as MOST};
ghost use Rattle.proc_state.specs.Tie.{AreProcessesSame};
ghost use Rattle.load_calls.specs.Found as model;
ghost use Rattle.load_calls.specs.Found.{IsWhole};
ghost use Rattle.rbf_access.specs.Faults.{file_fault};
ghost use Rattle.rbf_access.specs.Reading.{IsFdOf, read_calls};
ghost use Rattle.rbf_model.specs.File.{DiskFile};

use device_table::devices::Devices;
use file_drives::disks::Disks;
use file_rules::status::DIRECTORY;
use file_state::state::FileState;
use io_model::modes::MODE_EXECUTE;
use lock_model::place::FilePlace;
use os9_base::errors::{E_FNA, E_MEMFUL, E_SHARE};
use os9_base::limits::MOST_GROUP_BYTES;
use os9_outer::drive::BlockDriver;
use proc_state::state::ProcState;
use rbf_access::FileFault;
use rbf_sector::Fd;
use rbf_walk::may;

/// The number of bytes of a file of modules that was found at a place and has this descriptor, if a
/// user may execute it (System Programmer's Manual, I$Open and F$Load).
///
/// # Errors
///
/// E$FNA exactly if it is a directory or the user may not execute it, else E$Share exactly if it
/// may not be shared, else E$MemFul exactly if it has more bytes than a group of modules.
pub(crate) fn program_size(
    files: &FileState,
    place: FilePlace,
    fd: &Fd,
    user: u16,
) -> Result<u16, u8>
    ensures size { (views : List DriveView) (was : Files) (found : Found)
        → RepresentsFiles files.now views was → found.place ≡ place → IsFdOf found.file fd.now
        → result ≡ model.program_size user was found }
    ensures short { IfOk result (λ size. size ≤ MOST) }
{
    if !may_execute(fd, user) {
        return Err(E_FNA);
    }
    if files.is_not_shared(place, fd.attr, MODE_EXECUTE) {
        return Err(E_SHARE);
    }
    short_size(fd.size)
}

/// A size that is at most that of a group of modules.
///
/// # Errors
///
/// E$MemFul exactly if it is more.
fn short_size(size: u32) -> Result<u16, u8>
    ensures size { result ≡ model.short_size size }
    ensures short { IfOk result (λ size. size ≤ MOST) }
{
    if size > u32::from(MOST_GROUP_BYTES) {
        Err(E_MEMFUL)
    } else {
        Ok(size as u16)
    }
}

/// May a user open the file of a descriptor for execution: is it not a directory, and may the user
/// execute it?
fn may_execute(fd: &Fd, user: u16) -> bool
    ensures { (file : DiskFile) → IsFdOf file fd.now → result ≡ may_open file user EXECUTE }
{
    may(fd, user, MODE_EXECUTE) && fd.attr & DIRECTORY == 0
}

/// Reads a whole file of `size` bytes into the front of the buffer.
///
/// # Errors
///
/// `Device` if a read of the drive fails; then the buffer may have changed.
pub(crate) fn load_whole(
    s: &mut ProcState,
    disks: &mut Disks,
    devices: &mut Devices,
    place: FilePlace,
    size: u16,
) -> Result<(), FileFault>
    requires file { HasFileAt disks.old (drives_seen BlockDriver-box devices.old) place }
    ensures ok { OnDisks disks.old (drives_seen BlockDriver-box devices.old) place
        (λ v file. IfOk result (λ done. IsWhole file size s.new.buffer.items)) }
    ensures device { OnErr result (IsSome (file_fault result)) }
    ensures drive { ReadsFile place (file_fault result) (λ v file. read_calls file 0 size)
        disks.old (drives_seen BlockDriver-box devices.old)
        disks.new (drives_seen BlockDriver-box devices.new) }
    ensures same { AreProcessesSame s.old s.new }
    ensures terms_kept { devices.new.terms ≡ devices.old.terms }
{
    load_front(disks, devices, place, size, &mut s.buffer)
}

/// The same into the front of the given buffer.
fn load_front(
    disks: &mut Disks,
    devices: &mut Devices,
    place: FilePlace,
    size: u16,
    into: &mut [u8],
) -> Result<(), FileFault>
    requires file { HasFileAt disks.old (drives_seen BlockDriver-box devices.old) place }
    requires room { size ≤ length into.old }
    ensures ok { OnDisks disks.old (drives_seen BlockDriver-box devices.old) place
        (λ v file. IfOk result (λ done. IsWhole file size into.new)) }
    ensures device { OnErr result (IsSome (file_fault result)) }
    ensures drive { ReadsFile place (file_fault result) (λ v file. read_calls file 0 size)
        disks.old (drives_seen BlockDriver-box devices.old)
        disks.new (drives_seen BlockDriver-box devices.new) }
    ensures room { length into.new ≡ length into.old }
    ensures terms_kept { devices.new.terms ≡ devices.old.terms }
{
    match disks.read_at(devices, place, 0, &mut into[..size as usize]) {
        Ok(_) => Ok(()),
        Err(fault) => Err(fault),
    }
}
