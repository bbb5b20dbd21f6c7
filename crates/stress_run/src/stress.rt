//! `stress N`.

ghost use Rattle.std.specs.Prelude.{◌≡◌, ◌<◌, IfOk};
ghost use Rattle.file_drives.specs.Drives.{drives_seen};
ghost use Rattle.boot_run.specs.Machine.{setup_of};
ghost use Rattle.boot_run.specs.Ready.{AreEmptyAgain, DevicesAreFree, IsValidStart};
ghost use Rattle.boot_run.specs.World.{world_of};
ghost use Rattle.os9_kernel.specs.Outside.{outside};
ghost use Rattle.os9_words.specs.Notes.{notes_of};
ghost use Rattle.stress_run.specs.Disk.{IsDiskOf};
ghost use Rattle.stress_run.specs.Stress.{StressCall, stress_setup};
ghost use Rattle.stress_run.specs.Told as model;
ghost use Rattle.stress_run.specs.Told.{ReportsRunEnd, WritesCounts};

use crate::counts::count_volume;
use boot_run::RunEnd;
use boot_run::boot_file::{BootFileFault, boot_file};
use boot_run::imaged::{Start, run_images};
use boot_run::images::Images;
use device_table::devices::Devices;
use guest_mods::{Load, stress_image, stress_slices};
use os9_base::call::OutOfMemory;
use os9_base::registers::TimePacket;
use os9_outer::drive::BlockDriver;
use os9_outer::host::{Host, HostFault};
use os9_outer::terminal::CharDriver;
use os9_words::stress_counts::put_stress_counts;
use std::alloc::Global;

/// The number of Workers, which write files.
const WORKERS: u8 = 4;

/// The number of times that each writes its file.
const PASSES: u8 = 40;

/// The number of records of each file.
pub const RECORDS: u8 = 200;

/// The number of slices.
const SLICES: u32 = 20_000;

/// The number of blocks of the machine.
const BLOCKS: u16 = 64;

/// The date and time at its start: the beginning of 1990.
const START: TimePacket = TimePacket {
    year: 90,
    month: 1,
    day: 1,
    hour: 0,
    minute: 0,
    second: 0,
};

/// How a stress ended.
#[derive(Clone, Copy, Debug, PartialEq, Eq)]
pub enum StressEnd {
    /// No process lives.
    Ended,
    /// The slices are used up, and a process lives.
    Living,
    /// A drive failed when its image was mounted: its number, and the number of its fault.
    DriveFailed(u8, u8),
    /// The output stream could not be written.
    OutputFailed,
    /// Out of memory.
    NoMemory,
}

/// `stress N`: makes the disk of a seed, boots it over the slices of that seed, and passes its
/// output and the counts of its last state to the output stream (this project's own).
pub fn run_stress<H: Host>(
    alloc: Global,
    seed: u32,
    host: &mut H,
    devices: &mut Devices,
) -> StressEnd
    requires devices { DevicesAreFree 1 (outside BlockDriver-box CharDriver-box devices.old) }
    requires seed { seed < 2147483648 }
    ensures call { StressCall seed
        (world_of H.Host host.old (outside BlockDriver-box CharDriver-box devices.old))
        (world_of H.Host host.new (outside BlockDriver-box CharDriver-box devices.new)) result }
    ensures notes_kept { notes_of H.Host host.new ≡ notes_of H.Host host.old }
    ensures drives { AreEmptyAgain (drives_seen BlockDriver-box devices.old)
        (drives_seen BlockDriver-box devices.new) }
{
    let mut images = match stress_disk(alloc, seed) {
        Ok(images) => images,
        Err(OutOfMemory) => return StressEnd::NoMemory,
    };
    let start = match stress_start(alloc, seed, &images) {
        Ok(start) => start,
        Err(OutOfMemory) => return StressEnd::NoMemory,
    };
    let outcome = run_images(alloc, &start, &mut images, host, devices);
    tell_end(alloc, outcome.end, images.image(0), host)
}

/// The disk of a seed, as the only image.
fn stress_disk(alloc: Global, seed: u32) -> Result<Images, OutOfMemory>
    requires { seed < 2147483648 }
    ensures { IfOk result (IsDiskOf seed) }
{
    let load = Load {
        seed,
        workers: WORKERS,
        passes: PASSES,
        records: RECORDS,
    };
    let image = stress_image(alloc, &load)?;
    let mut images = Images::none(alloc);
    images.push(image)?;
    Ok(images)
}

/// What the machine of a seed is started with, in addition to its disk.
fn stress_start(alloc: Global, seed: u32, images: &Images) -> Result<Start, OutOfMemory>
    requires seed { seed < 2147483648 }
    requires disk { IsDiskOf seed images.now }
    ensures setup { IfOk result (λ start. setup_of start images.now ≡ stress_setup seed) }
    ensures can_start { IfOk result IsValidStart }
{
    let file = match boot_file(alloc, images) {
        Ok(file) => file,
        Err(BootFileFault::OutOfMemory) => return Err(OutOfMemory),
        Err(BootFileFault::Bounds) => unreachable!(),
    };
    let slices = stress_slices(alloc, seed, SLICES)?;
    Ok(Start {
        blocks: BLOCKS,
        time: START,
        file,
        keys: Vec::new(alloc),
        slices,
    })
}

/// The end of a stress, by the end of its run, which left this image of D0. The counts are passed
/// to the output stream if the run went to its end.
fn tell_end<H: Host>(alloc: Global, end: RunEnd, image: &[u8], host: &mut H) -> StressEnd
    ensures told { ReportsRunEnd H.Host end image.now result host.old host.new }
    ensures notes_kept { notes_of H.Host host.new ≡ notes_of H.Host host.old }
{
    match end {
        RunEnd::Ended(begun) => {
            end_told(StressEnd::Ended, tell_counts(alloc, begun, image, host))
        }
        RunEnd::Living(begun) => {
            end_told(StressEnd::Living, tell_counts(alloc, begun, image, host))
        }
        RunEnd::DriveFailed(drive, number) => StressEnd::DriveFailed(drive, number),
        RunEnd::OutputFailed => StressEnd::OutputFailed,
        // The boot file of a load is never refused.
        RunEnd::Refused(_) | RunEnd::NoMemory => StressEnd::NoMemory,
    }
}

/// The end of a stress, by the end of its run and the outcome of its counts.
fn end_told(end: StressEnd, answer: Result<(), HostFault>) -> StressEnd
    ensures { result ≡ model.end_told end answer }
{
    match answer {
        Ok(()) => end,
        Err(HostFault::Failed) => StressEnd::OutputFailed,
        Err(HostFault::OutOfMemory) => StressEnd::NoMemory,
    }
}

/// Passes the line of a number of slices and of the counts of an image to the output stream.
///
/// `Failed` is returned only with a count. After an error a part of the line may be out.
fn tell_counts<H: Host>(
    alloc: Global,
    slices: u32,
    image: &[u8],
    host: &mut H,
) -> Result<(), HostFault>
    ensures counts { WritesCounts H.Host slices image.now result host.old host.new }
    ensures notes_kept { notes_of H.Host host.new ≡ notes_of H.Host host.old }
{
    match count_volume(alloc, slices, image) {
        Ok(counts) => put_stress_counts(host, &counts),
        // A machine leaves its images well formed.
        Err(_) => Err(HostFault::OutOfMemory),
    }
}
