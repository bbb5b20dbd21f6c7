//! The session of a call.

ghost use Rattle.std.specs.Prelude.{◌≡◌};
ghost use Rattle.file_drives.specs.Drives.{drives_seen};
ghost use Rattle.boot_run.specs.Drives.{HaveRoom};
ghost use Rattle.boot_run.specs.Ready.{AreEmptyAgain};
ghost use Rattle.boot_run.specs.World.{OnWorld};
ghost use Rattle.os9_debug.specs.Machine.{CanStart};
ghost use Rattle.os9_debug.specs.Steps.{HadSession, session_end};
ghost use Rattle.os9_kernel.specs.Outside.{outside};
ghost use Rattle.os9_words.specs.Notes.{notes_of};

use crate::command::Command;
use crate::debugger::debug;
use crate::machine::{Machine, SessionFault};
use boot_run::drives::eject_images;
use boot_run::images::Images;
use boot_run::status::End;
use device_table::devices::Devices;
use os9_outer::drive::BlockDriver;
use os9_outer::host::Host;
use os9_outer::terminal::CharDriver;
use std::alloc::Global;

/// The end of the call, by the end of its session.
fn end_of_session(answer: Result<(), SessionFault>) -> End
    ensures { result ≡ session_end answer }
{
    match answer {
        Ok(()) => End::Ended,
        Err(SessionFault::Refused(fault)) => End::of_boot_fault(fault),
        Err(SessionFault::TerminalFailed(number)) => End::TerminalFailed(number),
        Err(SessionFault::OutputFailed) => End::CannotWrite,
        Err(SessionFault::NoMemory) => End::NoMemory,
    }
}

/// Has the session of these commands over a machine. No image is in a drive before or after it.
pub(crate) fn show<H: Host>(
    alloc: Global,
    machine: &Machine,
    commands: &[Command],
    host: &mut H,
    devices: &mut Devices,
) -> End
    requires start { CanStart machine.now (outside BlockDriver-box CharDriver-box devices.old) }
    requires room { HaveRoom 0 (drives_seen BlockDriver-box devices.old) }
    ensures session { OnWorld (HadSession machine.now commands.now result) H.Host host.old host.new
        BlockDriver-box CharDriver-box devices.old devices.new }
    ensures notes_kept { notes_of H.Host host.new ≡ notes_of H.Host host.old }
    ensures drives { AreEmptyAgain (drives_seen BlockDriver-box devices.old)
        (drives_seen BlockDriver-box devices.new) }
{
    let answer = debug(alloc, machine, commands, host, devices);
    let mut images = Images::none(alloc);
    eject_images(alloc, &mut images, devices);
    end_of_session(answer)
}
