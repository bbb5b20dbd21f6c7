//! The directory of commands in the root of a volume.

ghost use Rattle.std.specs.Prelude.{◌≡◌, ◌+◌, ◌*◌, ◌/◌, ◌<◌, IfOk, None, OnOk, codes, length};
ghost use Rattle.rbf_change.specs.Contents.{sector_count};
ghost use Rattle.rbf_access.specs.Reading.{IsFdOf};
ghost use Rattle.rbf_model.specs.Fields.{directory_entry};
ghost use Rattle.rbf_model.specs.File.{DiskFile, is_directory as is_directory_model};
ghost use Rattle.rbf_model.specs.Walk.{entry_has_name};
ghost use Rattle.file_rules.specs.Processes.{directory_in_root};
ghost use Rattle.file_drives.specs.Drives.{drives_seen};
ghost use Rattle.file_drives.specs.Mounted.{HasFileAt, OnDisks, ReadsFile};
ghost use Rattle.cold_start.specs.Start.{IsFaultOfDrive, IsNamedDescriptor, IsRootAt, OnVolumeOf, directory_at as directory_at_model, search_calls, start_fault};

use crate::fault::StartFault;
use device_table::devices::Devices;
use file_drives::disks::Disks;
use lock_model::place::FilePlace;
use os9_base::name::{Name, header_name, parse_name, same_name};
use os9_outer::drive::BlockDriver;
use rbf_sector::{Fd, read_entry};
use std::alloc::Global;

/// The directory CMDS in the root of a volume, with the case of letters ignored; None if the root
/// has no such name, or if the name is a file's.
///
/// # Errors
///
/// `Drive` if a read of the drive fails, or out of memory.
pub fn find_commands(
    alloc: Global,
    disks: &mut Disks,
    devices: &mut Devices,
    root: FilePlace,
) -> Result<Option<FilePlace>, StartFault>
    requires root { IsRootAt disks.old (drives_seen BlockDriver-box devices.old) root }
    ensures found { OnVolumeOf disks.old (drives_seen BlockDriver-box devices.old) root
        (λ v. IfOk result (λ place. place ≡ directory_in_root v root (codes "CMDS"))) }
    ensures drive { ReadsFile root (start_fault result) (λ v file. search_calls file)
        disks.old (drives_seen BlockDriver-box devices.old)
        disks.new (drives_seen BlockDriver-box devices.new) }
    ensures failed { IsFaultOfDrive root.drive result }
    ensures terms_kept { devices.new.terms ≡ devices.old.terms }
{
    let bytes = contents(alloc, disks, devices, root)?;
    match entry_named(&bytes, &commands()) {
        Some(number) => {
            let place = FilePlace {
                drive: root.drive,
                number,
            };
            directory_at(disks, devices, place)
        }
        None => Ok(None),
    }
}

/// The name of the directory of commands.
fn commands() -> Name
    ensures { result ≡ codes "CMDS" }
{
    match parse_name(b"CMDS") {
        Ok(name) => name,
        Err(_) => unreachable!(),
    }
}

/// The place of a file, if it is a directory.
fn directory_at(
    disks: &mut Disks,
    devices: &mut Devices,
    place: FilePlace,
) -> Result<Option<FilePlace>, StartFault>
    requires file { HasFileAt disks.old (drives_seen BlockDriver-box devices.old) place }
    ensures ok { OnDisks disks.old (drives_seen BlockDriver-box devices.old) place
        (λ v file. IfOk result (λ found. found ≡ directory_at_model place file)) }
    ensures drive { ReadsFile place (start_fault result) (λ v file. 1)
        disks.old (drives_seen BlockDriver-box devices.old)
        disks.new (drives_seen BlockDriver-box devices.new) }
    ensures failed { IsFaultOfDrive place.drive result }
    ensures terms_kept { devices.new.terms ≡ devices.old.terms }
{
    let fd = fd_of(disks, devices, place)?;
    Ok(if_directory(&fd, place))
}

/// The place of the file that has a descriptor, if it is a directory.
fn if_directory(fd: &Fd, place: FilePlace) -> Option<FilePlace>
    ensures { (file : DiskFile) → IsFdOf file fd.now → result ≡ directory_at_model place file }
{
    if is_directory(fd) { Some(place) } else { None }
}

/// Does a descriptor say that its file is a directory (OS-9 Technical Reference, File Descriptors,
/// FD.ATT)?
fn is_directory(fd: &Fd) -> bool
    ensures { (file : DiskFile) → IsFdOf file fd.now → result ≡ is_directory_model file }
{
    fd.attr >> 7 == 1
}

/// The bytes of a file.
fn contents(
    alloc: Global,
    disks: &mut Disks,
    devices: &mut Devices,
    place: FilePlace,
) -> Result<Vec<u8>, StartFault>
    requires file { HasFileAt disks.old (drives_seen BlockDriver-box devices.old) place }
    ensures ok { OnDisks disks.old (drives_seen BlockDriver-box devices.old) place
        (λ v file. IfOk result (λ bytes. bytes.items ≡ file.contents)) }
    ensures drive { ReadsFile place (start_fault result)
        (λ v file. 2 + sector_count (length file.contents))
        disks.old (drives_seen BlockDriver-box devices.old)
        disks.new (drives_seen BlockDriver-box devices.new) }
    ensures failed { IsFaultOfDrive place.drive result }
    ensures terms_kept { devices.new.terms ≡ devices.old.terms }
{
    let fd = fd_of(disks, devices, place)?;
    let mut bytes = zeros(alloc, fd.size)?;
    match read_whole(disks, devices, place, &mut bytes) {
        Ok(()) => Ok(bytes),
        Err(fault) => Err(fault),
    }
}

/// `count` zeros.
fn zeros(alloc: Global, count: u32) -> Result<Vec<u8>, StartFault>
    ensures count { IfOk result (λ bytes. length bytes.items ≡ count) }
    ensures fault { start_fault result ≡ None }
{
    match vec![in alloc; 0u8; count as usize] {
        Ok(bytes) => Ok(bytes),
        Err(_) => Err(StartFault::OutOfMemory),
    }
}

/// The descriptor of a file.
fn fd_of(disks: &mut Disks, devices: &mut Devices, place: FilePlace) -> Result<Fd, StartFault>
    requires file { HasFileAt disks.old (drives_seen BlockDriver-box devices.old) place }
    ensures ok { OnDisks disks.old (drives_seen BlockDriver-box devices.old) place
        (λ v file. IfOk result (IsFdOf file)) }
    ensures drive { ReadsFile place (start_fault result) (λ v file. 1)
        disks.old (drives_seen BlockDriver-box devices.old)
        disks.new (drives_seen BlockDriver-box devices.new) }
    ensures failed { IsFaultOfDrive place.drive result }
    ensures terms_kept { devices.new.terms ≡ devices.old.terms }
{
    match disks.fd(devices, place) {
        Ok(fd) => Ok(fd),
        Err(fault) => Err(StartFault::Drive(place.drive, fault.number())),
    }
}

/// Reads the bytes of a file into a buffer of their length.
fn read_whole(
    disks: &mut Disks,
    devices: &mut Devices,
    place: FilePlace,
    into: &mut [u8],
) -> Result<(), StartFault>
    requires file { HasFileAt disks.old (drives_seen BlockDriver-box devices.old) place }
    ensures ok { OnDisks disks.old (drives_seen BlockDriver-box devices.old) place
        (λ v file. length into.old ≡ length file.contents
        → OnOk result (into.new ≡ file.contents)) }
    ensures drive { ReadsFile place (start_fault result)
        (λ v file. 1 + sector_count (length file.contents))
        disks.old (drives_seen BlockDriver-box devices.old)
        disks.new (drives_seen BlockDriver-box devices.new) }
    ensures failed { IsFaultOfDrive place.drive result }
    ensures terms_kept { devices.new.terms ≡ devices.old.terms }
{
    match disks.read_at(devices, place, 0, into) {
        Ok(_) => Ok(()),
        Err(fault) => Err(StartFault::Drive(place.drive, fault.number())),
    }
}

/// The number of the descriptor of the entry with this name in a directory's bytes, with the case
/// of letters ignored; None if no used entry has the name (OS-9 Technical Reference, Random Block
/// File Manager, "Directories").
fn entry_named(directory: &[u8], name: &Name) -> Option<u32>
    ensures { IsNamedDescriptor directory.now name.now result }
{
    for i in 0..directory.len() / 32 {
        let entry = entry_at(directory, i);
        if has_name(&entry, name) {
            return Some(read_entry(&entry).lsn);
        }
    }
    None
}

/// The entry at place `i` of a directory.
fn entry_at(directory: &[u8], i: usize) -> [u8; 32]
    requires { i < length directory.now / 32 }
    ensures { result ≡ directory_entry directory.now i }
{
    let at = 32 * i;
    let mut entry = [0; 32];
    entry.copy_from_slice(&directory[at..at + 32]);
    entry
}

/// Is the entry used, and does it have this name, with the case of letters ignored?
fn has_name(entry: &[u8; 32], name: &Name) -> bool
    ensures { result ≡ entry_has_name name.now entry.now }
{
    if entry[0] == 0 {
        return false;
    }
    match header_name(&entry[..29]) {
        Err(_) => false,
        Ok(other) => same_name(name, &other),
    }
}
