//! A file that the words of a command name.

ghost use Rattle.std.specs.Prelude.{◌≡◌, ◌∷◌, [], ℕ, IfErr, IfOk, IfSome, List, OnOk, Option, Some};
ghost use Rattle.os9_outer.specs.Host.{file_contents};
ghost use Rattle.os9_kernel.specs.Outside.{Outside};
ghost use Rattle.os9_words.specs.Notes.{HasReadFiles, notes_of};
ghost use Rattle.boot_run.specs.World.{world_of};
ghost use Rattle.boot_run.specs.Stops.{NotesStop, StopsAtRead};
ghost use Rattle.boot_run.specs.declared.status.Input.{Input};

use crate::status::{End, Input};
use os9_outer::host::{Host, HostFault};
use os9_words::word::Word;

/// Reads the file of this name, which is this input of a command.
///
/// # Errors
///
/// The end of the command: the file could not be read, or memory is out.
pub fn read_input<H: Host>(host: &mut H, name: &Word, input: Input) -> Result<Vec<u8>, End>
    ensures contents { IfOk result (λ bytes. IfSome (H.file_map host.old) (λ files.
        bytes.items ≡ file_contents files name.now)) }
    ensures kept { OnOk result ((devices : Outside)
        → world_of H.Host host.new devices ≡ world_of H.Host host.old devices) }
    ensures ended { IfErr result (λ end. (devices : Outside) (name_of : Input → Option (List ℕ))
        → name_of input ≡ Some name.now → StopsAtRead name_of
        (world_of H.Host host.old devices) (world_of H.Host host.new devices) end) }
    ensures noted { OnOk result (HasReadFiles (name.now ∷ [])
        (notes_of H.Host host.old) (notes_of H.Host host.new)) }
    ensures stopped { IfErr result (λ end. (name_of : Input → Option (List ℕ))
        → name_of input ≡ Some name.now → NotesStop name_of (name.now ∷ []) end
        (notes_of H.Host host.old) (notes_of H.Host host.new)) }
{
    match host.read_file(name.text()) {
        Ok(bytes) => Ok(bytes),
        Err(HostFault::Failed) => Err(End::CannotRead(input)),
        Err(HostFault::OutOfMemory) => Err(End::NoMemory),
    }
}
