//! The volumes of the first drives.

ghost use Rattle.std.specs.Prelude.{◌≡◌, ◌<◌, ◌≤◌, vec_len};
ghost use Rattle.rbf_model.specs.Volume.{DiskVolume};
ghost use Rattle.file_drives.specs.Drives.{drives_seen};
ghost use Rattle.file_drives.specs.Mounted.{DriveHolds};
ghost use Rattle.cold_start.specs.Start.{HaveVolumes, MountsFirst, MountsOne};

use crate::fault::StartFault;
use device_table::devices::Devices;
use file_state::state::FileState;
use os9_outer::drive::BlockDriver;
use rbf_access::VolFault;
use std::alloc::Global;

/// Mounts the volumes of the first `drives` drives.
///
/// # Errors
///
/// `Drive` if a read of a drive fails, or out of memory.
pub fn mount_first(
    alloc: Global,
    drives: u8,
    state: &mut FileState,
    devices: &mut Devices,
) -> Result<(), StartFault>
    requires there { drives ≤ vec_len devices.old.drives }
    requires few { drives ≤ 4 }
    requires volumes { HaveVolumes drives (drives_seen BlockDriver-box devices.old) }
    ensures mounts { MountsFirst drives result state.old state.new
        (drives_seen BlockDriver-box devices.old) (drives_seen BlockDriver-box devices.new) }
    ensures terms_kept { devices.new.terms ≡ devices.old.terms }
{
    for n in 0..drives {
        match mount_one(alloc, n, state, devices) {
            Ok(()) => {}
            Err(fault) => return Err(fault),
        }
    }
    Ok(())
}

/// Mounts the volume of a drive.
///
/// # Errors
///
/// As [`mount_first`].
fn mount_one(
    alloc: Global,
    n: u8,
    state: &mut FileState,
    devices: &mut Devices,
) -> Result<(), StartFault>
    requires drive { n < vec_len devices.old.drives }
    requires few { n < 4 }
    requires volume { (v : DiskVolume) × DriveHolds (drives_seen BlockDriver-box devices.old) n v }
    ensures mounts { MountsOne n result state.old state.new
        (drives_seen BlockDriver-box devices.old) (drives_seen BlockDriver-box devices.new) }
    ensures terms_kept { devices.new.terms ≡ devices.old.terms }
{
    match state.mount(alloc, n, devices) {
        Ok(()) => Ok(()),
        Err(VolFault::Device(number)) => Err(StartFault::Drive(n, number)),
        Err(VolFault::OutOfMemory) => Err(StartFault::OutOfMemory),
        Err(VolFault::NotRbf) => unreachable!(),
    }
}
