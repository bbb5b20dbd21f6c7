ghost use Rattle.std.specs.Prelude.{◌≡◌, Some, None, IfOk};
ghost use Rattle.rbf_access.specs.Mounted.{IsMounted};

use crate::answer::Undone;
use crate::listing::write_state;
use crate::making::make_call;
use crate::row::{NumberedCall, Row, Swept};
use os9_outer::drive::BlockDriver;
use os9_outer::ram_drive::RamDrive;
use rbf_access::{VolFault, Volume};
use rbf_check::{CheckError, check};
use std::alloc::{AllocError, Global};
use std::fmt::Write;
use thiserror::Error;

/// What a run of a row prints, and whether the swept call made the driver call that was to fail.
#[derive(Debug, Drop)]
pub(crate) struct Outcome {
    pub(crate) text: String,
    pub(crate) failed: bool,
}

/// Runs the calls of a row on a copy of its image. The driver call of this number fails in the
/// swept call.
pub(crate) fn run_row(alloc: Global, row: &Row, failing: u64) -> Result<Outcome, AllocError> {
    let mut mounting = RamDrive::new(row.swept.mount_plan(alloc, failing)?);
    let mut swept = RamDrive::new(row.swept.call_plan(alloc, failing)?);
    let mut others = RamDrive::new(Vec::new(alloc));
    let _ = mounting.insert(row.image.to_vec(alloc)?);
    let mut text = call_row(alloc, row, &mut mounting, &mut swept, &mut others)?;
    let calls = match row.swept {
        Swept::Nothing => 0,
        Swept::Mount(_) => mounting.calls(),
        Swept::Call(..) => swept.calls(),
    };
    if let Some(image) = others.eject() {
        write_state(alloc, &image, &mut text)?;
    }
    Ok(Outcome {
        text,
        failed: failing <= calls,
    })
}

// Why no calls are made on an image.
#[derive(Clone, Copy, Debug, PartialEq, Eq, Error)]
enum NotMounted {
    // It was mounted, but its volume breaks a rule.
    #[error("ok")]
    Broken,
    #[error("not rbf")]
    NotRbf,
    #[error("device {0}")]
    Device(u8),
    #[error("no memory")]
    OutOfMemory,
}

impl From<VolFault> for NotMounted {
    fn from(fault: VolFault) -> NotMounted {
        match fault {
            VolFault::Device(number) => NotMounted::Device(number),
            VolFault::NotRbf => NotMounted::NotRbf,
            VolFault::OutOfMemory => NotMounted::OutOfMemory,
        }
    }
}

// Mounts the volume of an image, which must be well formed.
fn mount(alloc: Global, image: &[u8], d: &mut dyn BlockDriver) -> Result<Volume, NotMounted>
    requires { media d.old ≡ Some image.now }
    ensures { IfOk result (λ volume. IsMounted volume (media d.new)) }
{
    let checked = check(alloc, image);
    let volume = Volume::mount(alloc, d)?;
    match checked {
        Ok(_) => Ok(volume),
        Err(CheckError::Fault(_)) => Err(NotMounted::Broken),
        Err(CheckError::OutOfMemory) => Err(NotMounted::OutOfMemory),
    }
}

// Moves the image of a drive to another one.
fn move_image(from: &mut dyn BlockDriver, to: &mut dyn BlockDriver)
    requires { media to.old ≡ None }
    ensures there { media to.new ≡ media from.old }
    ensures gone { media from.new ≡ None }
{
    if let Some(image) = from.eject() {
        let _ = to.insert(image);
    }
}

// Mounts the image of a row, makes its calls, and returns the lines that say how each ended. The
// mount and the swept call have drives of their own; the image is left in that of the others.
fn call_row(
    alloc: Global,
    row: &Row,
    mounting: &mut dyn BlockDriver,
    swept: &mut dyn BlockDriver,
    others: &mut dyn BlockDriver,
) -> Result<String, AllocError>
    requires image { media mounting.old ≡ Some row.now.image.items }
    requires swept { media swept.old ≡ None }
    requires others { media others.old ≡ None }
{
    let mut text = String::from_str(alloc, "outcome\n")?;
    let mut volume = match mount(alloc, &row.image, mounting) {
        Ok(volume) => volume,
        Err(NotMounted::OutOfMemory) => return Err(AllocError),
        Err(cause) => {
            move_image(mounting, others);
            writeln!(text, "1 {cause}")?;
            return Ok(text);
        }
    };
    writeln!(text, "1 ok")?;
    let parts = row.parts();
    move_image(mounting, others);
    make_calls(alloc, &mut volume, others, parts.before, &mut text)?;
    move_image(others, swept);
    make_calls(alloc, &mut volume, swept, parts.swept, &mut text)?;
    move_image(swept, others);
    make_calls(alloc, &mut volume, others, parts.after, &mut text)?;
    Ok(text)
}

// Makes calls in their order, and writes a line for each.
fn make_calls(
    alloc: Global,
    volume: &mut Volume,
    d: &mut dyn BlockDriver,
    calls: &[NumberedCall],
    text: &mut String,
) -> Result<(), AllocError>
    requires mounted { IsMounted volume.old (media d.old) }
    ensures mounted { IsMounted volume.new (media d.new) }
{
    for call in calls {
        match make_call(alloc, volume, d, call) {
            Ok(done) => writeln!(text, "{} {done}", call.number)?,
            Err(Undone::OutOfMemory) => return Err(AllocError),
            Err(undone) => writeln!(text, "{} {undone}", call.number)?,
        }
    }
    Ok(())
}
