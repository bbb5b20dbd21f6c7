//! What a boot tests of its images, and the boot file of the first.

ghost use Rattle.std.specs.Prelude.{◌≡◌, ◌≤◌, All, IfErr, IfOk, OnOk, length};
ghost use Rattle.boot_run.specs.BootFile.{boot_file_of, HasBootFile, IsBootFile, IsVolume, LacksBootFile};
ghost use Rattle.boot_run.specs.Faults.{BreaksImage, BreaksImages};
ghost use Rattle.rbf_model.specs.Geometry.{sector};

use crate::images::Images;
use rbf_check::{CheckError, CheckFault, check};
use rbf_sector::read_ident;
use std::alloc::Global;
use thiserror::Error;

/// Why images are refused.
#[derive(Clone, Copy, Debug, PartialEq, Eq, Error)]
pub enum ImagesFault {
    /// The image of this place, from 0, is not well formed: the least rule that it breaks, and the
    /// sector.
    #[error("image {0}: {1}")]
    Image(u8, CheckFault),
    /// Out of memory.
    #[error("no memory")]
    OutOfMemory,
}

/// Why an image has no boot file that could be run.
#[derive(Clone, Copy, Debug, PartialEq, Eq, Error)]
pub enum BootFileFault {
    /// Sector 0 does not name one, or names one that does not lie within the volume.
    #[error("bounds")]
    Bounds,
    /// Out of memory.
    #[error("no memory")]
    OutOfMemory,
}

/// Checks the images, in order.
///
/// # Errors
///
/// `Image` for the first that is not well formed, with what `check` says of it.
pub fn check_images(alloc: Global, images: &Images) -> Result<(), ImagesFault>
    ensures well_formed { OnOk result (All IsVolume images.now) }
    ensures refused { IfErr result (BreaksImages images.now) }
{
    for number in 0..images.len() {
        check_image(alloc, number, images.image(number))?;
    }
    Ok(())
}

/// Checks the image of this place.
fn check_image(alloc: Global, number: u8, image: &[u8]) -> Result<(), ImagesFault>
    ensures well_formed { OnOk result (IsVolume image.now) }
    ensures refused { IfErr result (BreaksImage number image.now) }
{
    match check(alloc, image) {
        Ok(_) => Ok(()),
        Err(CheckError::Fault(fault)) => Err(ImagesFault::Image(number, fault)),
        Err(CheckError::OutOfMemory) => Err(ImagesFault::OutOfMemory),
    }
}

/// The bytes of the boot file of the first image, which is well formed (OS-9 Technical Reference,
/// Random Block File Manager, "Identification Sector": DD.BT, its first sector, and DD.BSZ, its
/// size in bytes).
///
/// # Errors
///
/// `Bounds` exactly if DD.BT or DD.BSZ is 0, or its last byte lies after the volume.
pub fn boot_file(alloc: Global, images: &Images) -> Result<Vec<u8>, BootFileFault>
    requires some { 1 ≤ length images.now }
    requires volumes { All IsVolume images.now }
    ensures bytes { IfOk result (λ file. IsBootFile images.now file.items) }
    ensures refused { IfErr result (LacksBootFile images.now) }
{
    read_boot_file(alloc, images.image(0))
}

/// The bytes of the boot file of a well formed image.
fn read_boot_file(alloc: Global, image: &[u8]) -> Result<Vec<u8>, BootFileFault>
    requires { IsVolume image.now }
    ensures volume { OnOk result (HasBootFile image.now) }
    ensures bytes { IfOk result (λ file. file.items ≡ boot_file_of image.now) }
    ensures refused { IfErr result
        (λ fault. fault ≡ BootFileFault.Bounds → ¬ HasBootFile image.now) }
{
    let ident = read_ident(&first_sector(image));
    let start = 256 * ident.boot as usize;
    let end = start + usize::from(ident.boot_size);
    if ident.boot == 0 || ident.boot_size == 0 || 256 * (ident.total as usize) < end {
        return Err(BootFileFault::Bounds);
    }
    match Vec::from_slice(alloc, &image[start..end]) {
        Ok(file) => Ok(file),
        Err(_) => Err(BootFileFault::OutOfMemory),
    }
}

/// The bytes of sector 0.
fn first_sector(image: &[u8]) -> [u8; 256]
    requires { 256 ≤ length image.now }
    ensures { result ≡ sector image.now 0 }
{
    let mut bytes = [0; 256];
    bytes.copy_from_slice(&image[..256]);
    bytes
}
