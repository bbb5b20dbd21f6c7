//! What a machine is started with, from files that were read.

ghost use Rattle.std.specs.Prelude.{◌≡◌, ◌≤◌, All, IfErr, IfOk, OnOk, length};
ghost use Rattle.boot_run.specs.BootFile.{IsBootFile, IsVolume};
ghost use Rattle.os9_boot.specs.Images.{RefusesImages};
ghost use Rattle.os9_boot.specs.Written.{ends_run};

use boot_run::RunEnd;
use boot_run::boot_file::{BootFileFault, ImagesFault, boot_file, check_images};
use boot_run::images::Images;
use boot_run::status::End;
use std::alloc::Global;

/// Checks the images, and reads the boot file of the first.
///
/// # Errors
///
/// The end of the command: an image is not well formed, the first has no boot file within its
/// volume, or memory is out.
pub fn accept_images(alloc: Global, images: &Images) -> Result<Vec<u8>, End>
    requires { 1 ≤ length images.now }
    ensures well_formed { OnOk result (All IsVolume images.now) }
    ensures bytes { IfOk result (λ file. IsBootFile images.now file.items) }
    ensures refused { IfErr result (RefusesImages images.now) }
{
    match check_images(alloc, images) {
        Ok(()) => {}
        Err(ImagesFault::Image(number, fault)) => return Err(End::BadImage(number, fault)),
        Err(ImagesFault::OutOfMemory) => return Err(End::NoMemory),
    }
    match boot_file(alloc, images) {
        Ok(file) => Ok(file),
        Err(BootFileFault::Bounds) => Err(End::BadBounds),
        Err(BootFileFault::OutOfMemory) => Err(End::NoMemory),
    }
}

/// The end of a command, by the end of its machine's run, if its images are written then.
pub fn end_of_run(end: RunEnd) -> End
    ensures { result ≡ ends_run end }
{
    match end {
        RunEnd::Ended(_) => End::Ended,
        RunEnd::Living(_) => End::Living,
        RunEnd::Refused(fault) => End::of_boot_fault(fault),
        RunEnd::DriveFailed(drive, number) => End::DriveFailed(drive, number),
        RunEnd::OutputFailed => End::CannotWrite,
        RunEnd::NoMemory => End::NoMemory,
    }
}
