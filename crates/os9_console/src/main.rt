//! The program: the real host, a keyboard over standard input, four drives and four terminals for
//! the top call.
#![tactic(auto)]

ghost use Rattle.std.specs.Prelude.{map, string_bytes};
ghost use Rattle.device_table.specs.Seen.{terminals_seen};
ghost use Rattle.boot_run.specs.Drives.{HaveRoom};
ghost use Rattle.os9_console.specs.TopCall.{TopConsole};
ghost use Rattle.console_run.specs.Typed.{IsUntyped};
ghost use Rattle.console_run.specs.Keyboard.{keyboard_state};
ghost use Rattle.console_run.specs.Seen.{OnNotedCall};
ghost use Rattle.file_drives.specs.Drives.{drive_views, drives_seen};
ghost use Rattle.boot_run.specs.Loaded.{AreUnloaded};

mod boot;
mod images;
pub mod laws;
mod record;
mod session_report;
#[cfg(test)]
mod tests;
mod top;
mod words;

use crate::top::console_main;
use console_run::Console;
use console_run::keyboard::Keyboard;
use console_run::reader_keyboard::ReaderKeyboard;
use device_table::devices::Devices;
use os9_boot::add_drive;
use os9_outer::drive::BlockDriver;
use os9_outer::host::Host;
use os9_outer::real_host::RealHost;
use os9_outer::sure_drive::SureDrive;
use os9_outer::sure_tty::SureTty;
use os9_outer::terminal::CharDriver;
use os9_words::message::{Message, report};
use std::alloc::Global;
use std::env;
use std::io::{self, BufReader, ErrorKind, Input};
use std::process::ExitCode;

/// The status if a word is not a text, so the words are not a command line.
const NO_COMMAND: u8 = 1;

/// The status if there is no memory for the words or the devices.
const NO_MEMORY: u8 = 4;

fn main(rt: HostRuntime) -> ExitCode {
    ExitCode::from(run(rt).unwrap_or(NO_MEMORY))
}

/// Does what the words after the program's name say.
fn run(rt: HostRuntime) -> io::Result<u8> {
    let alloc = rt.alloc();
    let args = match env::args(&rt) {
        Ok(args) => args,
        Err(error) if error.kind() == ErrorKind::InvalidData => return Ok(refuse_words(rt)),
        Err(error) => return Err(error),
    };
    let mut words = Vec::new(alloc);
    for word in args.skip(1) {
        words.push(word)?;
    }
    let mut drives: Vec<Box<dyn BlockDriver>> = Vec::new(alloc);
    add_drive(&mut drives, Box::new(alloc, SureDrive::new())?)?;
    add_drive(&mut drives, Box::new(alloc, SureDrive::new())?)?;
    add_drive(&mut drives, Box::new(alloc, SureDrive::new())?)?;
    add_drive(&mut drives, Box::new(alloc, SureDrive::new())?)?;
    run_on(rt, words.as_slice(), drives)
}

/// Does what the words say on these drives, of which there are four without an image, and on four
/// terminals without keys.
fn run_on(rt: HostRuntime, words: &[String], drives: Vec<Box<dyn BlockDriver>>) -> io::Result<u8>
    requires { HaveRoom 4 (drive_views BlockDriver-box drives.items) }
{
    let alloc = rt.alloc();
    let mut terms: Vec<Box<dyn CharDriver>> = Vec::new(alloc);
    terms.push(Box::new(alloc, SureTty::new(alloc))?)?;
    terms.push(Box::new(alloc, SureTty::new(alloc))?)?;
    terms.push(Box::new(alloc, SureTty::new(alloc))?)?;
    terms.push(Box::new(alloc, SureTty::new(alloc))?)?;
    type_on(rt, words, Devices { drives, terms })
}

/// Does what the words say at standard input, on these devices, four drives without an image and
/// one to four terminals without keys.
fn type_on(rt: HostRuntime, words: &[String], devices: Devices) -> io::Result<u8>
    requires terminals { AreUnloaded (terminals_seen CharDriver-box devices) }
    requires drives { HaveRoom 4 (drives_seen BlockDriver-box devices) }
{
    let alloc = rt.alloc();
    let mut devices = devices;
    let reader = BufReader::new(alloc, rt.reader())?;
    let mut console = Console::new(alloc, ReaderKeyboard::new(alloc, reader));
    let mut host = RealHost::new(rt);
    Ok(run_with(words, &mut console, &mut host, &mut devices))
}

/// Does what the words say at this console, on the real host and these devices, four drives without
/// an image and one to four terminals without keys: the status is that of the top call.
fn run_with<K: Keyboard<RealHost<HostRuntime>> + Drop>(
    words: &[String],
    console: &mut Console<K>,
    host: &mut RealHost<HostRuntime>,
    devices: &mut Devices,
) -> u8
    requires untyped { IsUntyped console.old.typed }
    requires terminals { AreUnloaded (terminals_seen CharDriver-box devices.old) }
    requires drives { HaveRoom 4 (drives_seen BlockDriver-box devices.old) }
    ensures call { OnNotedCall (λ before after noted notes. TopConsole (map string_bytes words.now)
        (keyboard_state K.Keyboard console.old.keyboard)
        (keyboard_state K.Keyboard console.new.keyboard) before after noted notes result)
        ⟦<RealHost<HostRuntime> as Host>⟧ host.old host.new
        BlockDriver-box CharDriver-box devices.old devices.new }
{
    console_main(words, console, host, devices)
}

/// Reports that the words are not a command line.
fn refuse_words(rt: HostRuntime) -> u8 {
    let _ = report(&mut RealHost::new(rt), &Message::Words);
    NO_COMMAND
}
