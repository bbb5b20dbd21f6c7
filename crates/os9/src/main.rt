//! The program: the real host, four drives and four terminals for the top call.
#![tactic(auto)]

ghost use Rattle.std.specs.Prelude.{map, string_bytes};
ghost use Rattle.device_table.specs.Seen.{terminals_seen};
ghost use Rattle.boot_run.specs.Drives.{HaveRoom};
ghost use Rattle.boot_run.specs.World.{world_of};
ghost use Rattle.file_drives.specs.Drives.{drive_views, drives_seen};
ghost use Rattle.boot_run.specs.Loaded.{AreUnloaded};
ghost use Rattle.os9_boot.specs.TopCall.{TopCall};
ghost use Rattle.os9_kernel.specs.Outside.{outside};
ghost use Rattle.os9_words.specs.Notes.{notes_of};

#[cfg(test)]
mod tests;

use device_table::devices::Devices;
use os9_boot::{add_drive, os9_main};
use os9_outer::drive::BlockDriver;
use os9_outer::host::Host;
use os9_outer::real_host::RealHost;
use os9_outer::sure_drive::SureDrive;
use os9_outer::sure_tty::SureTty;
use os9_outer::terminal::CharDriver;
use os9_words::message::{Message, report};
use std::alloc::Global;
use std::env;
use std::io::{self, ErrorKind};
use std::process::ExitCode;

/// The status if a word is not a text, so the words are not a command line.
const NO_COMMAND: u8 = 1;

/// The status if there is no memory for the words or the devices.
const NO_MEMORY: u8 = 4;

fn main(rt: HostRuntime) -> ExitCode {
    ExitCode::from(run(rt).unwrap_or(NO_MEMORY))
}

/// Does what the words after the program's name say.
fn run(rt: HostRuntime) -> io::Result<u8> {
    let alloc = rt.alloc();
    let args = match env::args(&rt) {
        Ok(args) => args,
        Err(error) if error.kind() == ErrorKind::InvalidData => return Ok(refuse_words(rt)),
        Err(error) => return Err(error),
    };
    let mut words = Vec::new(alloc);
    for word in args.skip(1) {
        words.push(word)?;
    }
    let mut drives: Vec<Box<dyn BlockDriver>> = Vec::new(alloc);
    add_drive(&mut drives, Box::new(alloc, SureDrive::new())?)?;
    add_drive(&mut drives, Box::new(alloc, SureDrive::new())?)?;
    add_drive(&mut drives, Box::new(alloc, SureDrive::new())?)?;
    add_drive(&mut drives, Box::new(alloc, SureDrive::new())?)?;
    run_on(rt, words.as_slice(), drives)
}

/// Does what the words say on these drives, four without an image, and on four terminals without
/// keys.
fn run_on(rt: HostRuntime, words: &[String], drives: Vec<Box<dyn BlockDriver>>) -> io::Result<u8>
    requires { HaveRoom 4 (drive_views BlockDriver-box drives.items) }
{
    let alloc = rt.alloc();
    let mut terms: Vec<Box<dyn CharDriver>> = Vec::new(alloc);
    terms.push(Box::new(alloc, SureTty::new(alloc))?)?;
    terms.push(Box::new(alloc, SureTty::new(alloc))?)?;
    terms.push(Box::new(alloc, SureTty::new(alloc))?)?;
    terms.push(Box::new(alloc, SureTty::new(alloc))?)?;
    let mut devices = Devices { drives, terms };
    Ok(program(alloc, words, &mut RealHost::new(rt), &mut devices))
}

/// The program over any host: does what the words say, on these devices, four drives without an
/// image and one to four terminals without keys. The status is that of the top call.
pub fn program<H: Host>(alloc: Global, words: &[String], host: &mut H, devices: &mut Devices) -> u8
    requires terminals { AreUnloaded (terminals_seen CharDriver-box devices.old) }
    requires drives { HaveRoom 4 (drives_seen BlockDriver-box devices.old) }
    ensures call { TopCall (map string_bytes words.now)
        (world_of H.Host host.old (outside BlockDriver-box CharDriver-box devices.old))
        (world_of H.Host host.new (outside BlockDriver-box CharDriver-box devices.new))
        (notes_of H.Host host.old) (notes_of H.Host host.new) result }
{
    os9_main(alloc, words, host, devices)
}

/// Reports that the words are not a command line.
fn refuse_words(rt: HostRuntime) -> u8 {
    let _ = report(&mut RealHost::new(rt), &Message::Words);
    NO_COMMAND
}
