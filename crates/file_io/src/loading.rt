//! Bytes of files in the buffer, on their way to the memory of a process.

ghost use Rattle.std.specs.Prelude.{◌≡◌, ◌+◌, ◌<◌, ◌≤◌, ◌^◌, IfOk, IfSome, IsSome, OnErr, length, take};
ghost use Rattle.proc_model.specs.Processes.{Processes, with_memory};
ghost use Rattle.file_io.specs.Reading.{IsFilledFrom, part_of};
ghost use Rattle.file_drives.specs.Drives.{drives_seen};
ghost use Rattle.file_drives.specs.Mounted.{HasFileAt, OnDisks, ReadsFile};
ghost use Rattle.guest_memory.specs.Tie.{cells_of};
ghost use Rattle.io_model.specs.Line as model;
ghost use Rattle.io_model.specs.Line.{return_place};
ghost use Rattle.os9_base.specs.Cells.{FitsIn};
ghost use Rattle.proc_model.specs.MemoryChanges.{stored};
ghost use Rattle.proc_state.specs.Tie.{AreProcessesSame, RepresentsProcesses};
ghost use Rattle.rbf_access.specs.Faults.{file_fault};
ghost use Rattle.rbf_access.specs.Reading.{read_calls};

use device_table::devices::Devices;
use file_drives::disks::Disks;
use io_model::keys::RETURN;
use io_model::terminal::ReadKind;
use lock_model::place::FilePlace;
use os9_base::registers::Pid;
use os9_outer::drive::BlockDriver;
use proc_state::state::ProcState;
use rbf_access::FileFault;

/// A part of a file: at most `most` bytes, from `at` on.
#[derive(Clone, Copy, Debug, PartialEq, Eq)]
pub(crate) struct FilePart {
    pub place: FilePlace,
    pub at: u32,
    pub most: u16,
}

/// Reads a part of a file into the front of the buffer, and returns the number of its bytes: 0 at
/// or past the end of the file.
///
/// # Errors
///
/// `Device` if a read of the drive fails; then the buffer may have changed.
pub(crate) fn load(
    s: &mut ProcState,
    disks: &mut Disks,
    devices: &mut Devices,
    part: FilePart,
) -> Result<u16, FileFault>
    requires file { HasFileAt disks.old (drives_seen BlockDriver-box devices.old) part.place }
    ensures ok { OnDisks disks.old (drives_seen BlockDriver-box devices.old) part.place
        (λ v file. IfOk result (IsFilledFrom file part.at part.most s.new.buffer.items)) }
    ensures few { IfOk result (λ count. count ≤ part.most) }
    ensures fits { IfOk result (λ count. part.at + count < 2 ^ 32) }
    ensures device { OnErr result (IsSome (file_fault result)) }
    ensures drive { ReadsFile part.place (file_fault result)
        (λ v file. read_calls file part.at part.most)
        disks.old (drives_seen BlockDriver-box devices.old)
        disks.new (drives_seen BlockDriver-box devices.new) }
    ensures same { AreProcessesSame s.old s.new }
    ensures terms_kept { devices.new.terms ≡ devices.old.terms }
{
    load_front(disks, devices, part, &mut s.buffer)
}

/// The same into the front of the given buffer.
fn load_front(
    disks: &mut Disks,
    devices: &mut Devices,
    part: FilePart,
    into: &mut [u8],
) -> Result<u16, FileFault>
    requires file { HasFileAt disks.old (drives_seen BlockDriver-box devices.old) part.place }
    requires room { part.most ≤ length into.old }
    ensures ok { OnDisks disks.old (drives_seen BlockDriver-box devices.old) part.place (λ v file.
        IfOk result (IsFilledFrom file part.at part.most into.new)) }
    ensures few { IfOk result (λ count. count ≤ part.most) }
    ensures fits { IfOk result (λ count. part.at + count < 2 ^ 32) }
    ensures device { OnErr result (IsSome (file_fault result)) }
    ensures drive { ReadsFile part.place (file_fault result) (λ v file. read_calls file part.at
        part.most) disks.old (drives_seen BlockDriver-box devices.old) disks.new (drives_seen
        BlockDriver-box devices.new) }
    ensures room { length into.new ≡ length into.old }
    ensures terms_kept { devices.new.terms ≡ devices.old.terms }
{
    match disks.read_at(
        devices,
        part.place,
        part.at,
        &mut into[..part.most as usize],
    ) {
        Ok(count) => Ok(count as u16),
        Err(fault) => Err(fault),
    }
}

/// The number of these bytes that a read takes: all, or the first line with its carriage return.
pub(crate) fn part_length(kind: ReadKind, bytes: &[u8]) -> usize
    ensures part { take result bytes.now ≡ part_of kind bytes.now }
    ensures within { result ≤ length bytes.now }
{
    match kind {
        ReadKind::Bytes => bytes.len(),
        ReadKind::WholeLine => line_length(bytes),
    }
}

/// The number of bytes in the first line with its carriage return; all if there is none.
fn line_length(bytes: &[u8]) -> usize
    ensures length { result ≡ model.line_length bytes.now }
    ensures within { result ≤ length bytes.now }
{
    match place_of_return(bytes) {
        Some(place) => place + 1,
        None => bytes.len(),
    }
}

/// Is a carriage return among the bytes?
pub(crate) fn has_return(bytes: &[u8]) -> bool
    ensures { result ≡ model.has_return bytes.now }
{
    place_of_return(bytes).is_some()
}

/// The place of the first carriage return.
fn place_of_return(bytes: &[u8]) -> Option<usize>
    ensures place { result ≡ return_place bytes.now }
    ensures within { IfSome result (λ place. place < length bytes.now) }
{
    bytes.iter().position(|byte| *byte == RETURN)
}

/// Stores `count` bytes from the front of the buffer in the memory of a process, from an address
/// on, if they fit there.
pub(crate) fn store_front(s: &mut ProcState, p: Pid, at: u16, count: u16)
    requires process { p.0 < 33 }
    requires fits { FitsIn (cells_of s.old.memory p.0) at count }
    ensures tied { (m : Processes) → RepresentsProcesses s.old m → RepresentsProcesses s.new
        (with_memory m (stored m.memory p.0 at (take count s.old.buffer.items))) }
    ensures records { s.new.table ≡ s.old.table }
{
    s.memory.store(p, at, &s.buffer[..count as usize]);
}
