//! A session, from the start of its machine to its last command.

ghost use Rattle.std.specs.Prelude.{◌≡◌, ◌≢◌, OnErr, [], vec_len};
ghost use Rattle.os9_kernel.specs.Outside.{outside};
ghost use Rattle.os9_words.specs.Notes.{notes_of};
ghost use Rattle.os9_words.specs.Streams.{WritesOut};
ghost use Rattle.boot_run.specs.World.{OnWorld};
ghost use Rattle.os9_debug.specs.Machine.{CanStart};
ghost use Rattle.os9_debug.specs.Session.{DebugSessionCall};

use crate::command::Command;
use crate::commands::obey;
use crate::machine::{Machine, SessionFault, start};
use device_table::devices::Devices;
use os9_outer::drive::BlockDriver;
use os9_outer::host::{Host, HostFault};
use os9_outer::terminal::CharDriver;
use std::alloc::Global;

// Writes the bytes to the output stream, if there are any.
fn write_out<H: Host>(host: &mut H, bytes: &[u8]) -> Result<(), HostFault>
    ensures written { WritesOut H.Host bytes.now result host.old host.new }
    ensures some { OnErr result (bytes.now ≢ []) }
{
    if bytes.is_empty() {
        return Ok(());
    }
    host.out(bytes)
}

/// Starts a machine, and does the commands, one after another. What each shows goes to the output
/// stream. A position before the current one is reached by a new start: the terminals are emptied,
/// and loaded with their keys again.
///
/// # Errors
///
/// `TerminalFailed` only if the count of faults of the terminal of that number rose in a command,
/// which leads back if no terminal had bytes before and nothing else failed; `OutputFailed` only if
/// the commands show something.
pub fn debug<H: Host>(
    alloc: Global,
    machine: &Machine,
    commands: &[Command],
    host: &mut H,
    devices: &mut Devices,
) -> Result<(), SessionFault>
    requires { CanStart machine.now (outside BlockDriver-box CharDriver-box devices.old) }
    ensures call { OnWorld (DebugSessionCall machine.now commands.now result) H.Host host.old
        host.new BlockDriver-box CharDriver-box devices.old devices.new }
    ensures notes_kept { notes_of H.Host host.new ≡ notes_of H.Host host.old }
    ensures terminals { vec_len devices.new.terms ≡ vec_len devices.old.terms }
    ensures drives { vec_len devices.new.drives ≡ vec_len devices.old.drives }
{
    let mut position = match start(alloc, machine, devices) {
        Ok(position) => position,
        Err(fault) => return Err(fault),
    };
    for command in commands {
        let line = match obey(alloc, machine, &mut position, *command, devices) {
            Ok(line) => line,
            Err(fault) => return Err(fault),
        };
        match write_out(host, line.as_slice()) {
            Ok(()) => {}
            Err(HostFault::Failed) => return Err(SessionFault::OutputFailed),
            Err(HostFault::OutOfMemory) => return Err(SessionFault::NoMemory),
        }
    }
    Ok(())
}
