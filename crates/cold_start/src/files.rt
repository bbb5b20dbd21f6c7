//! The start.

ghost use Rattle.std.specs.Prelude.{◌≡◌, ℕ, ◌≤◌, IfOk, List, [], None, length, vec_len};
ghost use Rattle.file_drives.specs.Drives.{DriveView, drives_seen};
ghost use Rattle.cold_start.specs.Start.{AreFirst, GivesDirectories, GivesRoot, HasMounted, HaveImages, HaveVolumes, IsRootAt, StartedOn, StartsDrives, start_fault};

use crate::commands::find_commands;
use crate::fault::StartFault;
use crate::mounting::mount_first;
use device_table::devices::Devices;
use file_rules::places::Directories;
use file_state::state::FileState;
use lock_model::place::FilePlace;
use os9_outer::drive::BlockDriver;
use std::alloc::Global;

/// The number of the first process.
const FIRST_PROCESS: usize = 2;

/// The state of input and output at the start of a machine. The volumes of the first `drives`
/// drives are mounted. The first process, process 2, has the root of D0 as its data directory. Its
/// execution directory is CMDS in that root, or the root if there is no CMDS. Without drives it has
/// no directory (Level Two manual, "Booting"; the directories are this project's own).
///
/// # Errors
///
/// `Drive` exactly if a read of a drive fails, or out of memory.
pub fn start_files(
    alloc: Global,
    drives: u8,
    devices: &mut Devices,
) -> Result<FileState, StartFault>
    requires there { drives ≤ vec_len devices.old.drives }
    requires few { vec_len devices.old.drives ≤ 4 }
    requires volumes { HaveVolumes drives (drives_seen BlockDriver-box devices.old) }
    ensures started { (images : List (List ℕ)) → HaveImages drives images
        (drives_seen BlockDriver-box devices.old) → IfOk result (λ state. StartedOn images state
        (drives_seen BlockDriver-box devices.new)) }
    ensures drives { StartsDrives drives result (drives_seen BlockDriver-box devices.old)
        (drives_seen BlockDriver-box devices.new) }
    ensures terms_kept { devices.new.terms ≡ devices.old.terms }
{
    let mut state = new_state(alloc)?;
    mount_first(alloc, drives, &mut state, devices)?;
    match give_directories(alloc, &mut state, devices) {
        Ok(()) => Ok(state),
        Err(fault) => Err(fault),
    }
}

/// The state without volumes and without directories.
fn new_state(alloc: Global) -> Result<FileState, StartFault>
    ensures state { IfOk result (λ state. (views : List DriveView) → length views ≤ 4
        → HasMounted [] state views) }
    ensures fault { start_fault result ≡ None }
{
    match FileState::new(alloc) {
        Ok(state) => Ok(state),
        Err(_) => Err(StartFault::OutOfMemory),
    }
}

/// Gives the first process its directories on the volume of D0, if one is mounted there.
///
/// # Errors
///
/// `Drive` if a read of D0 fails, or out of memory.
fn give_directories(
    alloc: Global,
    state: &mut FileState,
    devices: &mut Devices,
) -> Result<(), StartFault>
    requires first { AreFirst state.old (drives_seen BlockDriver-box devices.old) }
    ensures gives { GivesDirectories result state.old state.new
        (drives_seen BlockDriver-box devices.old) (drives_seen BlockDriver-box devices.new) }
    ensures terms_kept { devices.new.terms ≡ devices.old.terms }
{
    match state.disks.root(0) {
        Some(root) => give_root(alloc, state, devices, root),
        None => Ok(()),
    }
}

/// Gives the first process this root of D0 and the directory of commands in it.
///
/// # Errors
///
/// As [`give_directories`].
fn give_root(
    alloc: Global,
    state: &mut FileState,
    devices: &mut Devices,
    root: FilePlace,
) -> Result<(), StartFault>
    requires root { IsRootAt state.old.disks (drives_seen BlockDriver-box devices.old) root }
    requires first { root.drive ≡ 0 }
    ensures gives { GivesRoot result state.old state.new (drives_seen BlockDriver-box devices.old)
        (drives_seen BlockDriver-box devices.new) }
    ensures terms_kept { devices.new.terms ≡ devices.old.terms }
{
    match find_commands(alloc, &mut state.disks, devices, root) {
        Ok(commands) => {
            state.directories[FIRST_PROCESS] = Directories {
                data_directory: Some(root),
                execution_directory: Some(commands.unwrap_or(root)),
            };
            Ok(())
        }
        Err(fault) => Err(fault),
    }
}
