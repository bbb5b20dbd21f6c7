//! What a command passes to the output stream, and the file that it makes.

ghost use Rattle.std.specs.Prelude.{◌≡◌};
ghost use Rattle.os9_kernel.specs.Outside.{Outside};
ghost use Rattle.os9_words.specs.Notes.{notes_of};
ghost use Rattle.boot_run.specs.World.{world_of};
ghost use Rattle.boot_run.specs.Output.{NotesOutput, Prints, WritesOutput};

use crate::status::End;
use os9_outer::host::{Host, HostFault};
use os9_words::word::Word;

/// Passes these bytes to the output stream, if there are any.
///
/// # Errors
///
/// The end of the command: the output stream failed, or memory is out. A part of the bytes may be
/// out.
pub fn print<H: Host>(host: &mut H, bytes: &[u8]) -> Result<(), End>
    ensures printed { (devices : Outside) → Prints bytes.now result
        (world_of H.Host host.old devices) (world_of H.Host host.new devices) }
    ensures notes_kept { notes_of H.Host host.new ≡ notes_of H.Host host.old }
{
    if bytes.is_empty() {
        return Ok(());
    }
    match host.out(bytes) {
        Ok(()) => Ok(()),
        Err(HostFault::Failed) => Err(End::CannotWrite),
        Err(HostFault::OutOfMemory) => Err(End::NoMemory),
    }
}

/// Makes these the bytes of the file of this name.
///
/// # Errors
///
/// Those of [`Host::write_file`]. The file may then hold a part of the bytes.
pub fn write_output<H: Host>(host: &mut H, name: &Word, bytes: &[u8]) -> Result<(), HostFault>
    ensures wrote { (devices : Outside) → WritesOutput name.now bytes.now result
        (world_of H.Host host.old devices) (world_of H.Host host.new devices) }
    ensures noted { NotesOutput name.now result
        (notes_of H.Host host.old) (notes_of H.Host host.new) }
{
    host.write_file(name.text(), bytes)
}
