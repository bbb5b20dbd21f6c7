ghost use Rattle.std.specs.Prelude.{◌≡◌, ℕ, List};
ghost use Rattle.os9_kernel.specs.Outside.{Outside};
ghost use Rattle.os9_boot.specs.Check.{PrintsLine, tree_line};
ghost use Rattle.os9_boot.specs.Commands.{CommandCall};
ghost use Rattle.os9_boot.specs.FilesNoted.{NotesFiles};
ghost use Rattle.os9_words.specs.Notes.{notes_of};
ghost use Rattle.boot_run.specs.World.{world_of};

use boot_run::input::read_input;
use boot_run::status::{End, Input};
use os9_outer::host::{Host, HostFault};
use os9_words::command::Command;
use os9_words::counts::{Counts, put_counts};
use os9_words::word::Word;
use rbf_check::{CheckError, Tree, check};
use std::alloc::Global;

/// `check IMAGE`: reads the image of a disk, and passes the counts of its volume to the output
/// stream.
pub fn check_image<H: Host>(alloc: Global, image: &Word, host: &mut H) -> End
    ensures call { (devices : Outside) → CommandCall (Command.Check image.now)
        (world_of H.Host host.old devices) (world_of H.Host host.new devices) result }
    ensures noted { NotesFiles (Command.Check image.now) result
        (notes_of H.Host host.old) (notes_of H.Host host.new) }
{
    let bytes = match read_input(host, image, Input::Image(0)) {
        Ok(bytes) => bytes,
        Err(end) => return end,
    };
    match check(alloc, bytes.as_slice()) {
        Ok(tree) => print_counts(&tree, host),
        Err(CheckError::Fault(fault)) => End::BadImage(0, fault),
        Err(CheckError::OutOfMemory) => End::NoMemory,
    }
}

/// Passes the counts of a volume to the output stream.
fn print_counts<H: Host>(tree: &Tree, host: &mut H) -> End
    ensures call { (devices : Outside) → PrintsLine (tree_line tree.now)
        (world_of H.Host host.old devices) (world_of H.Host host.new devices) result }
    ensures notes_kept { notes_of H.Host host.new ≡ notes_of H.Host host.old }
{
    let counts = Counts {
        files: tree.files(),
        directories: tree.directories(),
        free: tree.free,
        lost: tree.lost,
    };
    match put_counts(host, &counts) {
        Ok(()) => End::Ended,
        Err(HostFault::Failed) => End::CannotWrite,
        Err(HostFault::OutOfMemory) => End::NoMemory,
    }
}
