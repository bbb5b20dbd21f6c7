//! The start of a kernel.

ghost use Rattle.std.specs.Prelude.{◌≡◌, ◌<◌, ◌≤◌, true, IfErr, vec_len};
ghost use Rattle.file_drives.specs.Drives.{drives_seen};
ghost use Rattle.time_rules.specs.CivilTime.{is_time_packet};
ghost use Rattle.cold_start.specs.Start.{HaveVolumes};
ghost use Rattle.os9_kernel.specs.Outside.{OnDevices};
ghost use Rattle.os9_kernel.specs.Starting.{KernelStarts, WhereRefused};

use crate::kernel::Kernel;
use crate::marks::{Known, Marks};
use cold_start::fault::StartFault;
use cold_start::files::start_files;
use cold_start::start;
use device_table::devices::Devices;
use file_state::machine::Machine;
use machine_model::ends::BootFault;
use os9_base::registers::TimePacket;
use os9_outer::drive::BlockDriver;
use os9_outer::terminal::CharDriver;
use proc_model::io_ready::IoReady;
use std::alloc::Global;
use time_rules::clock::Clock;

/// What a kernel is made with.
#[derive(Clone, Copy, Debug, PartialEq, Eq)]
pub struct Config {
    /// The number of blocks of 8,192 bytes of its memory, from 8 to 256.
    pub blocks: u16,
    /// The number of first drives whose images are mounted.
    pub images: u8,
    /// The date and time at its start.
    pub time: TimePacket,
}

/// Why a kernel does not start.
#[derive(Clone, Copy, Debug, PartialEq, Eq)]
pub enum StartError {
    /// The boot file does not start, or out of memory.
    Boot(BootFault),
    /// A drive failed: its number, and the number of its fault.
    Drive(u8, u8),
}

impl Kernel {
    /// A kernel that starts the first program of a boot file, `SysGo` (Level Two manual,
    /// "Booting"), with the volumes of the images in its first drives mounted, each read by 1 call
    /// and one more for each sector of its map, and D0's root searched for CMDS. Only this call
    /// takes memory for the kernel; a terminal may take some for the bytes that are put on it.
    ///
    /// # Errors
    ///
    /// `TooLarge` if the file has more than 57,344 bytes; else `BadModule` for the first refused
    /// module of the file, with its place and its error; else `NoFirst` if none is the first
    /// program; else `TooLarge` if there are too few blocks or slots for the file and the program's
    /// data area; else `Drive` exactly if a drive failed in this call.
    pub fn new(
        alloc: Global,
        config: Config,
        boot: &[u8],
        devices: &mut Devices,
    ) -> Result<Kernel, StartError>
        requires blocks { (8 ≤ config.blocks) × (config.blocks ≤ 256) }
        requires time { is_time_packet config.time ≡ true }
        requires drives { (config.images ≤ vec_len devices.old.drives)
            × (vec_len devices.old.drives ≤ 4) }
        requires volumes { HaveVolumes config.images (drives_seen BlockDriver-box devices.old) }
        requires terminals { (0 < vec_len devices.old.terms) × (vec_len devices.old.terms ≤ 4) }
        ensures starts { OnDevices (KernelStarts config boot.now result)
            BlockDriver-box CharDriver-box devices.old devices.new }
        ensures untouched { IfErr result (λ error. WhereRefused error (devices.new ≡ devices.old)) }
        ensures terms_kept { devices.new.terms ≡ devices.old.terms }
    {
        match start(alloc, config.blocks, boot) {
            Err(fault) => Err(StartError::Boot(fault)),
            Ok(processes) => match start_files(alloc, config.images, devices) {
                Err(StartFault::OutOfMemory) => Err(StartError::Boot(BootFault::OutOfMemory)),
                Err(StartFault::Drive(drive, number)) => Err(StartError::Drive(drive, number)),
                Ok(files) => {
                    let clock = Clock {
                        from: config.time,
                        since: 0,
                    };
                    Ok(Kernel {
                        machine: Machine { processes, files },
                        clock,
                        chosen: None,
                        executed: 0,
                        looked_until: 0,
                        known: Known {
                            ready: IoReady::none(),
                            until: 0,
                            marks: Marks::Everyone,
                        },
                    })
                }
            },
        }
    }
}
