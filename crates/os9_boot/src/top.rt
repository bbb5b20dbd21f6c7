//! The top call.

ghost use Rattle.std.specs.Prelude.{◌≡◌, map, string_bytes};
ghost use Rattle.boot_run.specs.Ready.{AreEmptyAgain, DevicesAreFree};
ghost use Rattle.boot_run.specs.World.{world_of};
ghost use Rattle.os9_kernel.specs.Outside.{outside};
ghost use Rattle.file_drives.specs.Drives.{drives_seen};
ghost use Rattle.os9_boot.specs.Commands.{CommandCall};
ghost use Rattle.os9_boot.specs.Devices.{drives_for, drives_of};
ghost use Rattle.os9_boot.specs.FilesNoted.{NotesFiles};
ghost use Rattle.os9_boot.specs.TopCall.{CommandReport, TopCall};
ghost use Rattle.os9_words.specs.Command.{IsCommand};
ghost use Rattle.os9_words.specs.Notes.{notes_of};

use crate::boot::{boot_images, run_modules};
use crate::check::check_image;
use crate::status::{end_of_stress, report_end};
use crate::{do_asm, do_vol};
use boot_run::status::End;
use device_table::devices::Devices;
use os9_debug::do_debug;
use os9_outer::drive::BlockDriver;
use os9_outer::host::Host;
use os9_outer::terminal::CharDriver;
use os9_words::command::{Command, WordsFault, read_words};
use os9_words::message::{Message, report};
use std::alloc::Global;
use stress_run::run_stress;

/// The status if the words are not a command line.
const NO_COMMAND: u8 = 1;

/// Does what a command line says, and returns the status (this project's own).
///
/// The words are those after the program's name. `boot IMAGE.. --script SCRIPT --slices SLICES`
/// reads the script, the slice text and one to four images, checks these, puts them into the
/// drives, loads each terminal with its keys of the script, runs the program `SysGo` of the boot
/// file of the first with their volumes mounted, passes what it puts on the terminals to the output
/// stream, and writes the images back, and with `--history FILE` the history of its record locks.
/// `run MODULES --slices SLICES`, with or without `--script SCRIPT`, does so with a file of
/// modules, without images and without a history. Both take `--blocks N` and `--time T`. `check
/// IMAGE` reads the image of a disk and passes the counts of its volume to the output stream.
/// `stress N` boots a disk that it makes from the seed N, and passes the counts of its end to the
/// output stream. `vol VERB IMAGE ..` makes the image of a disk, looks into it, changes it or
/// repairs it, by the tools of `vol_tools`. `asm SOURCE OUT` assembles a source to the module in a
/// file. `debug`, with the words of a run and a file of commands, goes to any event of that run,
/// and passes what the commands show to the output stream.
///
/// There are one to four terminals, and none has keys; at most four drives, none with an image, and
/// at least one for each booted image, and one for `vol`.
///
/// Statuses: 0 the command is done, and no process lives; 5 the slices are used up and a process
/// lives; 1 the words are not a command line; 2 a file could not be read; 3 the output stream or a
/// file could not be written; 4 out of memory; 6 an image is not well formed; 7 the script, the
/// slice text or the commands of `debug` are refused; 8 the file of modules, or the boot file, is
/// refused; 9 a drive with an image failed, in a boot of which nothing can be seen or when a tool
/// used it; 10 a source is refused; 11 a tool is refused; 12 the count of faults of a terminal
/// rose, and `debug` stopped.
///
/// A run begins with the devices as they are at the call, each terminal loaded with its keys, and
/// ends with them as they are at the return: a terminal or a drive fails in it only if its count of
/// faults rose in this call. At 1, 2, 6, 7, 8 and 10 the devices, the output and the files are
/// unchanged. At 9 and 11 the output, the terminals and the files are unchanged, and no other drive
/// has failed. After the call no image is in a drive.
///
/// The line that says why the call ended goes to the error stream: the whole of it, or that stream
/// counts a fault.
pub fn os9_main<H: Host>(alloc: Global, words: &[String], host: &mut H, devices: &mut Devices) -> u8
    requires devices { DevicesAreFree (drives_for (map string_bytes words.now))
        (outside BlockDriver-box CharDriver-box devices.old) }
    ensures call { TopCall (map string_bytes words.now)
        (world_of H.Host host.old (outside BlockDriver-box CharDriver-box devices.old))
        (world_of H.Host host.new (outside BlockDriver-box CharDriver-box devices.new))
        (notes_of H.Host host.old) (notes_of H.Host host.new) result }
    ensures drives { AreEmptyAgain (drives_seen BlockDriver-box devices.old)
        (drives_seen BlockDriver-box devices.new) }
{
    match read_words(alloc, words) {
        Ok(command) => do_command(alloc, &command, host, devices),
        Err(WordsFault::Refused) => {
            let _ = report(host, &Message::Words);
            NO_COMMAND
        }
        Err(WordsFault::OutOfMemory) => {
            let _ = report(host, &Message::NoMemory);
            End::NoMemory.number()
        }
    }
}

/// Does a command, and reports why it ended.
fn do_command<H: Host>(alloc: Global, command: &Command, host: &mut H, devices: &mut Devices) -> u8
    requires devices { DevicesAreFree (drives_of command.now)
        (outside BlockDriver-box CharDriver-box devices.old) }
    requires words { IsCommand command.now }
    ensures call { CommandReport command.now
        (world_of H.Host host.old (outside BlockDriver-box CharDriver-box devices.old))
        (world_of H.Host host.new (outside BlockDriver-box CharDriver-box devices.new))
        (notes_of H.Host host.old) (notes_of H.Host host.new) result }
    ensures drives { AreEmptyAgain (drives_seen BlockDriver-box devices.old)
        (drives_seen BlockDriver-box devices.new) }
{
    let end = perform(alloc, command, host, devices);
    let _ = report_end(host, end, command);
    end.number()
}

/// Does a command.
fn perform<H: Host>(alloc: Global, command: &Command, host: &mut H, devices: &mut Devices) -> End
    requires devices { DevicesAreFree (drives_of command.now)
        (outside BlockDriver-box CharDriver-box devices.old) }
    requires words { IsCommand command.now }
    ensures call { CommandCall command.now
        (world_of H.Host host.old (outside BlockDriver-box CharDriver-box devices.old))
        (world_of H.Host host.new (outside BlockDriver-box CharDriver-box devices.new)) result }
    ensures noted { NotesFiles command.now result
        (notes_of H.Host host.old) (notes_of H.Host host.new) }
    ensures drives { AreEmptyAgain (drives_seen BlockDriver-box devices.old)
        (drives_seen BlockDriver-box devices.new) }
{
    match command {
        Command::Run(run) => run_modules(alloc, run, host, devices),
        Command::Boot(boot) => boot_images(alloc, boot, host, devices),
        Command::Check(image) => check_image(alloc, image, host),
        Command::Stress(seed) => end_of_stress(run_stress(alloc, *seed, host, devices)),
        Command::Vol(vol) => do_vol(alloc, vol, host, devices),
        Command::Asm(asm) => do_asm(alloc, asm, host),
        Command::Debug(debug) => do_debug(alloc, debug, host, devices),
    }
}
