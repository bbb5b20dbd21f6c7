//! `boot` and `run`: a machine is started on what files hold.

ghost use Rattle.std.specs.Prelude.{◌≡◌, length};
ghost use Rattle.boot_run.specs.Ready.{AreEmptyAgain, DevicesAreFree};
ghost use Rattle.boot_run.specs.World.{world_of};
ghost use Rattle.os9_kernel.specs.Outside.{outside};
ghost use Rattle.file_drives.specs.Drives.{drives_seen};
ghost use Rattle.os9_boot.specs.Commands.{CommandCall};
ghost use Rattle.os9_boot.specs.FilesNoted.{NotesFiles};
ghost use Rattle.os9_words.specs.Notes.{notes_of};
ghost use Rattle.os9_words.specs.Command.{IsCommand};

use crate::start::{accept_images, end_of_run};
use crate::write::write_back;
use boot_run::files::{read_boot_files, read_files};
use boot_run::imaged::{Start, run_images};
use boot_run::images::Images;
use boot_run::status::End;
use boot_run::texts::read_texts;
use device_table::devices::Devices;
use os9_outer::drive::BlockDriver;
use os9_outer::host::Host;
use os9_outer::terminal::CharDriver;
use os9_words::command::{Command, RunWords};
use std::alloc::Global;

/// `boot IMAGE.. --script SCRIPT --slices SLICES`: reads the files and their texts, runs the
/// program of the first image's boot file with the images in the drives, and writes the images
/// back, and the history of its record locks if a file is named for it.
pub fn boot_images<H: Host>(
    alloc: Global,
    boot: &RunWords,
    host: &mut H,
    devices: &mut Devices,
) -> End
    requires devices { DevicesAreFree (length boot.now.files)
        (outside BlockDriver-box CharDriver-box devices.old) }
    requires words { IsCommand (Command.Boot boot.now) }
    ensures call { CommandCall (Command.Boot boot.now)
        (world_of H.Host host.old (outside BlockDriver-box CharDriver-box devices.old))
        (world_of H.Host host.new (outside BlockDriver-box CharDriver-box devices.new)) result }
    ensures noted { NotesFiles (Command.Boot boot.now) result
        (notes_of H.Host host.old) (notes_of H.Host host.new) }
    ensures drives { AreEmptyAgain (drives_seen BlockDriver-box devices.old)
        (drives_seen BlockDriver-box devices.new) }
{
    let files = match read_boot_files(alloc, boot, host) {
        Ok(files) => files,
        Err(end) => return end,
    };
    let terminals = devices.terms.len() as u8;
    let texts = match read_texts(
        alloc,
        files.script.as_slice(),
        files.slices.as_slice(),
        terminals,
    ) {
        Ok(texts) => texts,
        Err(end) => return end,
    };
    let file = match accept_images(alloc, &files.images) {
        Ok(file) => file,
        Err(end) => return end,
    };
    let mut images = files.images;
    let start = Start {
        blocks: boot.blocks,
        time: boot.start,
        file,
        keys: texts.keys,
        slices: texts.slices,
    };
    let outcome = run_images(alloc, &start, &mut images, host, devices);
    write_back(alloc, boot, &images, &outcome, host)
}

/// `run MODULES --slices SLICES`, with or without a script: reads the files and their texts, and
/// runs the program of the file of modules.
pub fn run_modules<H: Host>(
    alloc: Global,
    run: &RunWords,
    host: &mut H,
    devices: &mut Devices,
) -> End
    requires devices { DevicesAreFree 0 (outside BlockDriver-box CharDriver-box devices.old) }
    requires words { IsCommand (Command.Run run.now) }
    ensures call { CommandCall (Command.Run run.now)
        (world_of H.Host host.old (outside BlockDriver-box CharDriver-box devices.old))
        (world_of H.Host host.new (outside BlockDriver-box CharDriver-box devices.new)) result }
    ensures noted { NotesFiles (Command.Run run.now) result
        (notes_of H.Host host.old) (notes_of H.Host host.new) }
    ensures drives { AreEmptyAgain (drives_seen BlockDriver-box devices.old)
        (drives_seen BlockDriver-box devices.new) }
{
    let files = match read_files(alloc, run, host) {
        Ok(files) => files,
        Err(end) => return end,
    };
    let terminals = devices.terms.len() as u8;
    let texts = match read_texts(
        alloc,
        files.script.as_slice(),
        files.slices.as_slice(),
        terminals,
    ) {
        Ok(texts) => texts,
        Err(end) => return end,
    };
    let mut images = Images::none(alloc);
    let start = Start {
        blocks: run.blocks,
        time: run.start,
        file: files.modules,
        keys: texts.keys,
        slices: texts.slices,
    };
    let outcome = run_images(alloc, &start, &mut images, host, devices);
    end_of_run(outcome.end)
}
