//! Images that are moved into drives and out of them.

ghost use Rattle.std.specs.Prelude.{◌≡◌, ◌<◌, ◌≤◌, None, Some, IfSome, length, slice_get, slice_set, vec_len};
ghost use Rattle.file_drives.specs.Drives.{ChangesOneDrive, DriveView, drives_seen};
ghost use Rattle.boot_run.specs.Drives.{holding, HaveRoom, IsEmptyDrive, TakesImages};
ghost use Rattle.boot_run.specs.DriveChanges.{IsInserted, IsEjected};

use crate::images::Images;
use device_table::devices::Devices;
use os9_outer::drive::BlockDriver;
use std::alloc::Global;

/// `BlockDriver::insert` of a drive without an image, which takes it.
fn insert_image(drive: &mut dyn BlockDriver, image: Vec<u8>)
    requires { media drive.old ≡ None }
    ensures media { media drive.new ≡ Some image.items }
    ensures faults_kept { drive_faults drive.new ≡ drive_faults drive.old }
    ensures last_kept { last_fault drive.new ≡ last_fault drive.old }
    ensures calls_kept { drive_calls drive.new ≡ drive_calls drive.old }
{
    let _ = drive.insert(image);
}

/// [`insert_image`] for the drive in a box.
fn insert_in_box(drive: &mut Box<dyn BlockDriver>, image: Vec<u8>)
    requires { media drive.old ≡ None }
    ensures media { media drive.new ≡ Some image.items }
    ensures faults_kept { drive_faults drive.new ≡ drive_faults drive.old }
    ensures last_kept { last_fault drive.new ≡ last_fault drive.old }
    ensures calls_kept { drive_calls drive.new ≡ drive_calls drive.old }
{
    insert_image(&mut **drive, image);
}

/// Puts an image in the drive of this number, which has none.
fn insert_on(devices: &mut Devices, number: u8, image: Vec<u8>)
    requires within { number < vec_len devices.old.drives }
    requires empty { (drive : DriveView) → slice_get (drives_seen BlockDriver-box devices.old)
        number ≡ Some drive → IsEmptyDrive drive }
    ensures drive { ChangesOneDrive (IsInserted image.items) number
        (drives_seen BlockDriver-box devices.old) (drives_seen BlockDriver-box devices.new) }
    ensures drives { vec_len devices.new.drives ≡ vec_len devices.old.drives }
    ensures terms_kept { devices.new.terms ≡ devices.old.terms }
{
    insert_in_box(&mut devices.drives[usize::from(number)], image);
}

/// `BlockDriver::eject` of a drive with an image. A drive without one returns no bytes.
fn eject_image(alloc: Global, drive: &mut dyn BlockDriver) -> Vec<u8>
    ensures handed_over { IfSome (media drive.old) (λ image. result.items ≡ image) }
    ensures none_left { media drive.new ≡ None }
    ensures faults_kept { drive_faults drive.new ≡ drive_faults drive.old }
    ensures last_kept { last_fault drive.new ≡ last_fault drive.old }
    ensures calls_kept { drive_calls drive.new ≡ drive_calls drive.old }
{
    match drive.eject() {
        Some(image) => image,
        None => Vec::new(alloc),
    }
}

/// [`eject_image`] for the drive in a box.
fn eject_from_box(alloc: Global, drive: &mut Box<dyn BlockDriver>) -> Vec<u8>
    ensures handed_over { IfSome (media drive.old) (λ image. result.items ≡ image) }
    ensures none_left { media drive.new ≡ None }
    ensures faults_kept { drive_faults drive.new ≡ drive_faults drive.old }
    ensures last_kept { last_fault drive.new ≡ last_fault drive.old }
    ensures calls_kept { drive_calls drive.new ≡ drive_calls drive.old }
{
    eject_image(alloc, &mut **drive)
}

/// Takes the image out of the drive of this number.
fn eject_from(alloc: Global, devices: &mut Devices, number: usize) -> Vec<u8>
    requires { number < vec_len devices.old.drives }
    ensures drive { ChangesOneDrive (IsEjected result.items) number
        (drives_seen BlockDriver-box devices.old) (drives_seen BlockDriver-box devices.new) }
    ensures drives { vec_len devices.new.drives ≡ vec_len devices.old.drives }
    ensures terms_kept { devices.new.terms ≡ devices.old.terms }
{
    eject_from_box(alloc, &mut devices.drives[number])
}

/// Moves the images into the drives, the first into D0. No image is copied.
pub fn insert_images(alloc: Global, images: &mut Images, devices: &mut Devices)
    requires { HaveRoom (length images.old) (drives_seen BlockDriver-box devices.old) }
    ensures held { drives_seen BlockDriver-box devices.new ≡ holding images.old
        (drives_seen BlockDriver-box devices.old) }
    ensures count { length images.new ≡ length images.old }
    ensures drives { vec_len devices.new.drives ≡ vec_len devices.old.drives }
    ensures terms_kept { devices.new.terms ≡ devices.old.terms }
{
    for number in 0..images.len() {
        let image = images.replace(number, Vec::new(alloc));
        insert_on(devices, number, image);
    }
}

/// Puts an image in the place of this number, if there is one.
fn put_back(images: &mut Images, number: usize, image: Vec<u8>)
    ensures { images.new ≡ slice_set images.old number image.items }
{
    if number < usize::from(images.len()) {
        let _ = images.replace(number as u8, image);
    }
}

/// Takes the images out of all drives. Those of the first drives get the places of the images,
/// starting with D0.
pub fn eject_images(alloc: Global, images: &mut Images, devices: &mut Devices)
    requires { length images.old ≤ vec_len devices.old.drives }
    ensures taken { TakesImages images.new (drives_seen BlockDriver-box devices.old)
        (drives_seen BlockDriver-box devices.new) }
    ensures count { length images.new ≡ length images.old }
    ensures drives { vec_len devices.new.drives ≡ vec_len devices.old.drives }
    ensures terms_kept { devices.new.terms ≡ devices.old.terms }
{
    for number in 0..devices.drives.len() {
        let image = eject_from(alloc, devices, number);
        put_back(images, number, image);
    }
}
