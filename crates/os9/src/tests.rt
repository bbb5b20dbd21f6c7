//! Calls of the program that no row of `boot_vectors` can have, over a host and drives that fail as
//! planned.

mod boots;
mod sources;
mod tools;
mod words;

ghost use Rattle.std.specs.Prelude.{◌≡◌, []};
ghost use Rattle.device_table.specs.Seen.{terminals_seen};
ghost use Rattle.file_drives.specs.Drives.{drives_seen};
ghost use Rattle.boot_run.specs.Drives.{HaveRoom};
ghost use Rattle.boot_run.specs.Loaded.{AreUnloaded};

use crate::program;
use device_table::devices::Devices;
use os9_boot::add_drive;
use os9_outer::drive::{BlockDriver, DriveFault};
use os9_outer::host_file::HostFile;
use os9_outer::mem_host::MemHost;
use os9_outer::ram_drive::{PlannedFault, RamDrive};
use os9_outer::script_tty::ScriptTty;
use os9_outer::sure_drive::SureDrive;
use os9_outer::terminal::CharDriver;
use std::alloc::{AllocError, Global};
use std::process::Abort;
use std::test::Fail;

/// A call of the program: its words, which calls of the outside fail, and what it shows.
#[derive(Clone, Copy)]
struct Step<'a> {
    words: &'a str,
    /// The calls of the host that fail.
    host: &'a [u64],
    /// The call of D0 that fails, and how.
    drive: Option<(u64, DriveFault)>,
    status: u8,
    out: &'a [u8],
    err: &'a [u8],
}

/// A call in which nothing fails, and that shows nothing.
const QUIET: Step = Step {
    words: "",
    host: &[],
    drive: None,
    status: 0,
    out: b"",
    err: b"",
};

/// What a call of the program leaves.
#[derive(Drop)]
struct Shown {
    status: u8,
    out: Vec<u8>,
    err: Vec<u8>,
    files: Vec<HostFile>,
}

fn file(alloc: Global, name: &str, bytes: &[u8]) -> Result<HostFile, AllocError> {
    Ok(HostFile {
        name: String::from_str(alloc, name)?,
        bytes: Vec::from_slice(alloc, bytes)?,
    })
}

/// The bytes of a file; none if there is no such file.
fn bytes_of<'a>(files: &'a [HostFile], name: &str) -> &'a [u8] {
    for file in files {
        if file.name.as_str() == name {
            return file.bytes.as_slice();
        }
    }
    &[]
}

/// The words of a line, separated by its blanks; an empty line has none.
fn words_of(alloc: Global, line: &str) -> Result<Vec<String>, AllocError> {
    let mut words = Vec::new(alloc);
    for word in line.split_whitespace() {
        words.push(String::from_str(alloc, word)?)?;
    }
    Ok(words)
}

/// The faults of D0.
fn faults(
    alloc: Global,
    planned: Option<(u64, DriveFault)>,
) -> Result<Vec<PlannedFault>, AllocError> {
    let mut faults = Vec::new(alloc);
    if let Some((call, fault)) = planned {
        faults.push(PlannedFault { call, fault })?;
    }
    Ok(faults)
}

/// Makes a call over these files.
fn call(alloc: Global, files: Vec<HostFile>, step: &Step) -> Result<Shown, AllocError> {
    let term = Box::new(alloc, ScriptTty::new(alloc, Vec::new(alloc)))?;
    let host = MemHost::new(alloc, files, Vec::from_slice(alloc, step.host)?);
    let words = words_of(alloc, step.words)?;
    call_with(alloc, term, faults(alloc, step.drive)?, &words, host)
}

/// The same with this terminal as TERM and these failing calls of D0.
fn call_with(
    alloc: Global,
    term: Box<dyn CharDriver>,
    faults: Vec<PlannedFault>,
    words: &[String],
    host: MemHost,
) -> Result<Shown, AllocError>
    requires { keys_left term ≡ [] }
{
    let mut drives: Vec<Box<dyn BlockDriver>> = Vec::new(alloc);
    add_drive(&mut drives, Box::new(alloc, RamDrive::new(faults))?)?;
    add_drive(&mut drives, Box::new(alloc, SureDrive::new())?)?;
    add_drive(&mut drives, Box::new(alloc, SureDrive::new())?)?;
    add_drive(&mut drives, Box::new(alloc, SureDrive::new())?)?;
    let mut terms: Vec<Box<dyn CharDriver>> = Vec::new(alloc);
    terms.push(term)?;
    call_over(alloc, Devices { drives, terms }, words, host)
}

/// Calls the program on these devices over this host.
fn call_over(
    alloc: Global,
    devices: Devices,
    words: &[String],
    host: MemHost,
) -> Result<Shown, AllocError>
    requires terminals { AreUnloaded (terminals_seen CharDriver-box devices) }
    requires drives { HaveRoom 4 (drives_seen BlockDriver-box devices) }
{
    let mut devices = devices;
    let mut host = host;
    let status = program(alloc, words, &mut host, &mut devices);
    Ok(Shown {
        status,
        out: host.out_bytes,
        err: host.err_bytes,
        files: host.files,
    })
}

/// Makes a call over these files, and asserts what it shows. The files as it leaves them.
fn shows(
    rt: &impl Abort,
    alloc: Global,
    files: Vec<HostFile>,
    step: &Step,
) -> Result<Vec<HostFile>, Fail> {
    let shown = call(alloc, files, step)?;
    assert_eq!(rt; shown.status, step.status, "{}", step.words);
    assert!(rt; shown.out.as_slice() == step.out, "{}", step.words);
    assert!(rt; shown.err.as_slice() == step.err, "{}", step.words);
    Ok(shown.files)
}
