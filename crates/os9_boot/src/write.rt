//! The images and the history of a boot are written after its run.

ghost use Rattle.std.specs.Prelude.{◌≡◌, length};
ghost use Rattle.boot_run.specs.Machine.{history_left};
ghost use Rattle.boot_run.specs.World.{world_of};
ghost use Rattle.os9_kernel.specs.Outside.{Outside};
ghost use Rattle.os9_boot.specs.FilesNoted.{NotesBack, NotesHistory};
ghost use Rattle.os9_boot.specs.History.{output_bytes, outputs_of};
ghost use Rattle.os9_boot.specs.Written.{EndsBoot, WritesHistory};
ghost use Rattle.os9_words.specs.Notes.{notes_of};

use crate::start::end_of_run;
use boot_run::images::Images;
use boot_run::output::write_output;
use boot_run::status::End;
use boot_run::write::{WriteFault, write_images};
use boot_run::{RunEnd, RunOutcome};
use lock_model::history::Entry;
use os9_outer::host::{Host, HostFault};
use os9_words::command::RunWords;
use os9_words::word::Word;
use record_locks::history_text;
use std::alloc::Global;

/// Writes the images of a boot under their names, and then its history if a file is named for it,
/// if the machine has run to its end. Returns how the boot ends.
pub fn write_back<H: Host>(
    alloc: Global,
    boot: &RunWords,
    images: &Images,
    outcome: &RunOutcome,
    host: &mut H,
) -> End
    requires { length images.now ≡ length boot.now.files }
    ensures ended { (devices : Outside) → EndsBoot (outputs_of boot.now)
        (output_bytes (outputs_of boot.now) images.now (history_left outcome.now.records))
        outcome.now.end result
        (world_of H.Host host.old devices) (world_of H.Host host.new devices) }
    ensures noted { NotesBack (outputs_of boot.now) result
        (notes_of H.Host host.old) (notes_of H.Host host.new) }
{
    match outcome.end {
        RunEnd::Ended(_) | RunEnd::Living(_) => {}
        _ => return end_of_run(outcome.end),
    }
    match write_images(&boot.files, images, host) {
        Ok(()) => {}
        Err(WriteFault::Image(number)) => return End::CannotWriteImage(number),
        Err(WriteFault::OutOfMemory) => return End::NoMemory,
    }
    match &boot.history {
        Some(name) => match write_history(alloc, name, outcome.history(), host) {
            Ok(()) => end_of_run(outcome.end),
            Err(end) => end,
        },
        None => end_of_run(outcome.end),
    }
}

/// Writes the text of a history as the file of this name.
///
/// # Errors
///
/// The end of the boot: the file could not be written, and may hold a part of the text, or memory
/// is out.
fn write_history<H: Host>(
    alloc: Global,
    name: &Word,
    history: &[Entry],
    host: &mut H,
) -> Result<(), End>
    ensures wrote { (devices : Outside) → WritesHistory name.now history.now result
        (world_of H.Host host.old devices) (world_of H.Host host.new devices) }
    ensures noted { NotesHistory name.now result
        (notes_of H.Host host.old) (notes_of H.Host host.new) }
{
    let text = match history_text(alloc, history) {
        Ok(text) => text,
        Err(_) => return Err(End::NoMemory),
    };
    match write_output(host, name, &text) {
        Ok(()) => Ok(()),
        Err(HostFault::Failed) => Err(End::CannotWriteFile),
        Err(HostFault::OutOfMemory) => Err(End::NoMemory),
    }
}
