//! The printing and writing of the result of a verb of `vol`.

ghost use Rattle.std.specs.Prelude.{◌≡◌, ℕ, List};
ghost use Rattle.os9_kernel.specs.Outside.{Outside};
ghost use Rattle.os9_words.specs.Notes.{notes_of};
ghost use Rattle.os9_words.specs.Vol.{IsVol};
ghost use Rattle.boot_run.specs.World.{world_of};
ghost use Rattle.os9_boot.specs.VolLeft.{NotesOutputs, WritesImage};
ghost use Rattle.os9_boot.specs.VolSteps.{Finishes, WritesMade};
ghost use Rattle.os9_boot.specs.Vol.{printed_of};

use crate::made::Made;
use boot_run::output::{print, write_output};
use boot_run::status::End;
use os9_outer::host::{Host, HostFault};
use os9_words::vol_words::{Verb, VolWords};

/// Prints the lines of the verb, and writes its file: FILE of `get`, none for `dir`, otherwise the
/// image.
pub fn finish<H: Host>(vol: &VolWords, made: &Made, host: &mut H) -> End
    requires { IsVol vol.now }
    ensures done { (devices : Outside) → Finishes vol.now made.now.answer.items made.now.image.items
        result (world_of H.Host host.old devices) (world_of H.Host host.new devices) }
    ensures noted { NotesOutputs vol.now result
        (notes_of H.Host host.old) (notes_of H.Host host.new) }
{
    match print(host, printed(vol, made)) {
        Ok(()) => write_made(vol, made, host),
        Err(end) => end,
    }
}

/// What is printed: the lines of `dir` and `repair`.
fn printed<'a>(vol: &VolWords, made: &'a Made) -> &'a [u8]
    ensures { result.now ≡ printed_of vol.now.verb made.now.answer.items }
{
    match vol.verb {
        Verb::Dir | Verb::Repair => made.answer.as_slice(),
        _ => &[],
    }
}

/// Writes the file of the verb.
fn write_made<H: Host>(vol: &VolWords, made: &Made, host: &mut H) -> End
    requires { IsVol vol.now }
    ensures wrote { (devices : Outside) → WritesMade vol.now made.now.answer.items
        made.now.image.items result
        (world_of H.Host host.old devices) (world_of H.Host host.new devices) }
    ensures noted { NotesOutputs vol.now result
        (notes_of H.Host host.old) (notes_of H.Host host.new) }
{
    match vol.verb {
        Verb::Dir => End::Ended,
        Verb::Get => write_answer(vol, &made.answer, host),
        _ => write_image(vol, &made.image, host),
    }
}

/// Writes FILE of `get`.
fn write_answer<H: Host>(vol: &VolWords, answer: &[u8], host: &mut H) -> End
    requires words { IsVol vol.now }
    requires verb { vol.now.verb ≡ Verb.Get }
    ensures wrote { (devices : Outside) (image : List ℕ)
        → WritesMade vol.now answer.now image result
        (world_of H.Host host.old devices) (world_of H.Host host.new devices) }
    ensures noted { NotesOutputs vol.now result
        (notes_of H.Host host.old) (notes_of H.Host host.new) }
{
    match write_output(host, vol.rest.word(1), answer) {
        Ok(()) => End::Ended,
        Err(HostFault::Failed) => End::CannotWriteFile,
        Err(HostFault::OutOfMemory) => End::NoMemory,
    }
}

/// Writes the image.
fn write_image<H: Host>(vol: &VolWords, image: &[u8], host: &mut H) -> End
    requires { WritesImage vol.now.verb }
    ensures wrote { (devices : Outside) (answer : List ℕ)
        → WritesMade vol.now answer image.now result
        (world_of H.Host host.old devices) (world_of H.Host host.new devices) }
    ensures noted { NotesOutputs vol.now result
        (notes_of H.Host host.old) (notes_of H.Host host.new) }
{
    match write_output(host, &vol.image, image) {
        Ok(()) => End::Ended,
        Err(HostFault::Failed) => End::CannotWriteImage(0),
        Err(HostFault::OutOfMemory) => End::NoMemory,
    }
}
