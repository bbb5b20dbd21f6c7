//! The files that the words of `debug` name, and the commands in theirs.

ghost use Rattle.std.specs.Prelude.{◌≡◌, IfErr, IfOk, IfSome, Ok, OnOk, length};
ghost use Rattle.os9_kernel.specs.Outside.{Outside};
ghost use Rattle.os9_words.specs.Notes.{HasReadFiles, notes_of};
ghost use Rattle.boot_run.specs.World.{world_of};
ghost use Rattle.os9_debug.specs.Commands.{commands_of};
ghost use Rattle.boot_run.specs.Stops.{NotesStop, StopsAtRead};
ghost use Rattle.os9_debug.specs.Debug.{debug_file_name, debug_inputs};
ghost use Rattle.os9_debug.specs.Steps.{HasDebugFiles, RefusesCommands};

use crate::command::Command;
use crate::reader::read_commands;
use boot_run::files::read_script;
use boot_run::input::read_input;
use boot_run::status::{End, Input};
use os9_outer::host::Host;
use os9_words::debug_words::DebugWords;
use script_text::fault::LineFault;
use std::alloc::Global;

/// The bytes of the files of a session.
#[derive(Drop)]
pub(crate) struct DebugFiles {
    /// The script of keys. It is empty if the words name none.
    pub(crate) script: Vec<u8>,
    /// The list of slices.
    pub(crate) slices: Vec<u8>,
    /// The commands.
    pub(crate) commands: Vec<u8>,
    /// The modules.
    pub(crate) modules: Vec<u8>,
}

/// Reads the files that the words name: the script, the slices, the commands and the modules, in
/// this order.
///
/// # Errors
///
/// The end of the call, which names the file that could not be read.
pub(crate) fn read_files<H: Host>(
    alloc: Global,
    debug: &DebugWords,
    host: &mut H,
) -> Result<DebugFiles, End>
    requires { length debug.now.run.files ≡ 1 }
    ensures contents { IfOk result (λ read. IfSome (H.file_map host.old) (λ files.
        HasDebugFiles files debug.now read)) }
    ensures kept { OnOk result ((devices : Outside)
        → world_of H.Host host.new devices ≡ world_of H.Host host.old devices) }
    ensures ended { IfErr result (λ end. (devices : Outside) → StopsAtRead
        (debug_file_name debug.now)
        (world_of H.Host host.old devices) (world_of H.Host host.new devices) end) }
    ensures noted { OnOk result (HasReadFiles (debug_inputs debug.now)
        (notes_of H.Host host.old) (notes_of H.Host host.new)) }
    ensures stopped { IfErr result (λ end. NotesStop (debug_file_name debug.now)
        (debug_inputs debug.now) end (notes_of H.Host host.old) (notes_of H.Host host.new)) }
{
    let script = read_script(alloc, &debug.run, host)?;
    let slices = read_input(host, &debug.run.slices, Input::Slices)?;
    let commands = read_input(host, &debug.commands, Input::Commands)?;
    let modules = read_input(host, debug.run.files.word(0), Input::Modules)?;
    Ok(DebugFiles {
        script,
        slices,
        commands,
        modules,
    })
}

/// The commands in a text.
///
/// # Errors
///
/// The end of the call: the first line that is not a command, or memory is out.
pub(crate) fn commands_in(alloc: Global, text: &[u8]) -> Result<Vec<Command>, End>
    ensures commands { IfOk result (λ commands. commands_of text.now ≡ Ok commands.items) }
    ensures refused { IfErr result (RefusesCommands text.now) }
{
    match read_commands(alloc, text) {
        Ok(commands) => Ok(commands),
        Err(LineFault::Line(line)) => Err(End::BadText(Input::Commands, line)),
        Err(LineFault::OutOfMemory) => Err(End::NoMemory),
    }
}
