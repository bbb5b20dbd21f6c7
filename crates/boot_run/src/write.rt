//! Images that are written under their names.

ghost use Rattle.std.specs.Prelude.{◌≡◌, length};
ghost use Rattle.os9_kernel.specs.Outside.{Outside};
ghost use Rattle.os9_words.specs.Notes.{notes_of};
ghost use Rattle.boot_run.specs.ImageWrites.{NotesWrites, WritesImages};
ghost use Rattle.boot_run.specs.World.{world_of};

use crate::images::Images;
use os9_outer::host::{Host, HostFault};
use os9_words::word::Words;
use thiserror::Error;

/// Why images were not written.
#[derive(Clone, Copy, Debug, PartialEq, Eq, Error)]
pub enum WriteFault {
    /// The image of this place, from 0, could not be written. Its file may hold a first part of its
    /// bytes.
    #[error("image {0}")]
    Image(u8),
    /// Out of memory.
    #[error("no memory")]
    OutOfMemory,
}

/// Writes the images under these names, in order, each file once.
///
/// # Errors
///
/// `Image` for the first that could not be written; those before it are written.
pub fn write_images<H: Host>(names: &Words, images: &Images, host: &mut H) -> Result<(), WriteFault>
    requires { length images.now ≡ length names.now }
    ensures wrote { (devices : Outside) → WritesImages names.now images.now result
        (world_of H.Host host.old devices) (world_of H.Host host.new devices) }
    ensures noted { NotesWrites names.now result
        (notes_of H.Host host.old) (notes_of H.Host host.new) }
{
    for number in 0..images.len() {
        let name = names.word(u32::from(number));
        match host.write_file(name.text(), images.image(number)) {
            Ok(()) => {}
            Err(HostFault::Failed) => return Err(WriteFault::Image(number)),
            Err(HostFault::OutOfMemory) => return Err(WriteFault::OutOfMemory),
        }
    }
    Ok(())
}
