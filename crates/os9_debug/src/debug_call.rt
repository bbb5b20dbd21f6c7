//! `debug` from its words to its end.

ghost use Rattle.os9_words.specs.Notes.{notes_of};
ghost use Rattle.file_drives.specs.Drives.{drives_seen};
ghost use Rattle.os9_words.specs.Command.{IsRun};
ghost use Rattle.os9_kernel.specs.Outside.{outside};
ghost use Rattle.boot_run.specs.Ready.{AreEmptyAgain, DevicesAreFree};
ghost use Rattle.boot_run.specs.World.{OnWorld};
ghost use Rattle.os9_debug.specs.Call.{DebugCall, NotesDebug};

use crate::files::{commands_in, read_files};
use crate::machine::Machine;
use crate::session::show;
use boot_run::status::End;
use boot_run::texts::read_texts;
use device_table::devices::Devices;
use os9_outer::drive::BlockDriver;
use os9_outer::host::Host;
use os9_outer::terminal::CharDriver;
use os9_words::debug_words::DebugWords;
use std::alloc::Global;

/// `debug MODULES --slices SLICES --commands COMMANDS`, with or without a script (this project's
/// own): reads the script, the slices, the commands and the modules, and then the texts in this
/// order; starts the machine of a run, and does the commands, one after another, at the events of
/// its run. What they show goes to the output stream.
///
/// If no bytes are on a terminal before the call, and no count of faults rises in it, each command
/// shows the state at the position to which the commands have led, in the one run of the machine,
/// whatever the way there.
pub fn do_debug<H: Host>(
    alloc: Global,
    debug: &DebugWords,
    host: &mut H,
    devices: &mut Devices,
) -> End
    requires devices { DevicesAreFree 0 (outside BlockDriver-box CharDriver-box devices.old) }
    requires words { IsRun debug.now.run }
    ensures call { OnWorld (λ before after. DebugCall debug.now before after result)
        H.Host host.old host.new BlockDriver-box CharDriver-box devices.old devices.new }
    ensures noted { NotesDebug debug.now result
        (notes_of H.Host host.old) (notes_of H.Host host.new) }
    ensures drives { AreEmptyAgain (drives_seen BlockDriver-box devices.old)
        (drives_seen BlockDriver-box devices.new) }
{
    let files = match read_files(alloc, debug, host) {
        Ok(files) => files,
        Err(end) => return end,
    };
    let terminals = devices.terms.len() as u8;
    let texts = match read_texts(
        alloc,
        files.script.as_slice(),
        files.slices.as_slice(),
        terminals,
    ) {
        Ok(texts) => texts,
        Err(end) => return end,
    };
    let commands = match commands_in(alloc, files.commands.as_slice()) {
        Ok(commands) => commands,
        Err(end) => return end,
    };
    let machine = Machine {
        blocks: debug.run.blocks,
        time: debug.run.start,
        file: files.modules.as_slice(),
        keys: texts.keys.as_slice(),
        slices: texts.slices.as_slice(),
    };
    show(alloc, &machine, commands.as_slice(), host, devices)
}
