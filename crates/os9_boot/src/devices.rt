//! Drives for a call of the program.

ghost use Rattle.std.specs.Prelude.{◌≡◌, ◌+◌, All, None, OnOk, length};
ghost use Rattle.boot_run.specs.Drives.{IsEmptyDrive};
ghost use Rattle.file_drives.specs.Drives.{drive_views};

use os9_outer::drive::BlockDriver;
use std::alloc::AllocError;

/// Appends a drive without an image.
///
/// # Errors
///
/// Out of memory.
pub fn add_drive(
    drives: &mut Vec<Box<dyn BlockDriver>>,
    drive: Box<dyn BlockDriver>,
) -> Result<(), AllocError>
    requires { media drive ≡ None }
    ensures count { OnOk result
        (length drives.new.items ≡ length drives.old.items + 1) }
    ensures empty { OnOk result (All IsEmptyDrive (drive_views BlockDriver-box drives.old.items)
        → All IsEmptyDrive (drive_views BlockDriver-box drives.new.items)) }
{
    drives.push(drive)?;
    Ok(())
}
