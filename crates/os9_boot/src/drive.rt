//! A tool used on an image in D0.

ghost use Rattle.std.specs.Prelude.{◌≡◌, ◌<◌, Some, slice_get, vec_len};
ghost use Rattle.rbf_access.specs.Mounted.{IsSoundMedia};
ghost use Rattle.file_drives.specs.Drives.{boxed_seen, ChangesOneDrive, DriveView, lent_seen, drives_seen};
ghost use Rattle.boot_run.specs.BootFile.{IsVolume};
ghost use Rattle.boot_run.specs.Drives.{HaveRoom};
ghost use Rattle.vol_tools.specs.Uses.{at_time, tool_of};
ghost use Rattle.os9_boot.specs.VolSteps.{fault_end, DrivesAfter, UsesDrive, UsesImage};

use crate::made::Made;
use boot_run::drives::{eject_images, insert_images};
use boot_run::images::Images;
use boot_run::status::End;
use device_table::devices::Devices;
use os9_base::registers::TimePacket;
use os9_outer::drive::BlockDriver;
use os9_words::vol_words::VolWords;
use std::alloc::Global;
use vol_tools::{ToolFault, ToolUse, use_tool};

/// Puts a well formed image into D0, uses a tool on its volume, and takes it out.
///
/// # Errors
///
/// The end of the command: the tool is refused, the drive fails, or out of memory.
pub fn use_on_image(
    alloc: Global,
    vol: &VolWords,
    image: Vec<u8>,
    tool: &ToolUse,
    devices: &mut Devices,
) -> Result<Made, End>
    requires volume { IsVolume image.items }
    requires room { HaveRoom 1 (drives_seen BlockDriver-box devices.old) }
    ensures used { UsesImage (tool_of tool.now) vol.now image.items result }
    ensures drives { DrivesAfter result (drives_seen BlockDriver-box devices.old)
        (drives_seen BlockDriver-box devices.new) }
    ensures terms_kept { devices.new.terms ≡ devices.old.terms }
{
    let mut images = Images::none(alloc);
    match images.push(image) {
        Ok(()) => {}
        Err(_) => return Err(End::NoMemory),
    }
    insert_images(alloc, &mut images, devices);
    let answer = use_on_drive(alloc, devices, tool, vol.start);
    eject_images(alloc, &mut images, devices);
    match answer {
        Ok(answer) => Ok(Made {
            answer,
            image: images.replace(0, Vec::new(alloc)),
        }),
        Err(fault) => Err(end_of_fault(fault)),
    }
}

/// The end of a command whose tool ended with this fault.
fn end_of_fault(fault: ToolFault) -> End
    ensures { result ≡ fault_end fault }
{
    match fault {
        ToolFault::Number(number) => End::Refused(number),
        ToolFault::Device(number) => End::DriveFailed(0, number),
        ToolFault::OutOfMemory => End::NoMemory,
    }
}

/// Uses a tool on the image in D0.
fn use_on_drive(
    alloc: Global,
    devices: &mut Devices,
    tool: &ToolUse,
    now: TimePacket,
) -> Result<Vec<u8>, ToolFault>
    requires some { 0 < vec_len devices.old.drives }
    requires sound { (drive : DriveView) → slice_get (drives_seen BlockDriver-box devices.old)
        0 ≡ Some drive → IsSoundMedia drive.media }
    ensures drive { ChangesOneDrive
        (UsesDrive (at_time now tool.now) (λ bytes. bytes.items) result) 0
        (drives_seen BlockDriver-box devices.old) (drives_seen BlockDriver-box devices.new) }
    ensures drives { vec_len devices.new.drives ≡ vec_len devices.old.drives }
    ensures terms_kept { devices.new.terms ≡ devices.old.terms }
{
    use_in_box(alloc, &mut devices.drives[0], tool, now)
}

/// [`use_lent`] on the image in the drive in a box.
fn use_in_box(
    alloc: Global,
    drive: &mut Box<dyn BlockDriver>,
    tool: &ToolUse,
    now: TimePacket,
) -> Result<Vec<u8>, ToolFault>
    requires { IsSoundMedia (media drive.old) }
    ensures { UsesDrive (at_time now tool.now) (λ bytes. bytes.items) result
        (boxed_seen BlockDriver-box drive.old) (boxed_seen BlockDriver-box drive.new) }
{
    use_lent(alloc, &mut **drive, tool, now)
}

/// [`use_tool`] on the image in a drive.
fn use_lent(
    alloc: Global,
    drive: &mut dyn BlockDriver,
    tool: &ToolUse,
    now: TimePacket,
) -> Result<Vec<u8>, ToolFault>
    requires { IsSoundMedia (media drive.old) }
    ensures { UsesDrive (at_time now tool.now) (λ bytes. bytes.items) result
        (lent_seen BlockDriver-dyn drive.old) (lent_seen BlockDriver-dyn drive.new) }
{
    use_tool(alloc, drive, tool, now)
}
