ghost use Rattle.std.specs.Prelude.{◌≡◌, ◌+◌, true, All, OnOk, bytes_eq, length, []};
ghost use Rattle.std.specs.Bool.{OnTrue};
ghost use Rattle.boot_run.specs.Drives.{HaveRoom};
ghost use Rattle.boot_run.specs.Ready.{DevicesAreFree};
ghost use Rattle.os9_kernel.specs.Outside.{outside};
ghost use Rattle.file_drives.specs.Drives.{drive_views};
ghost use Rattle.boot_run.specs.Loaded.{HasNoKeys};
ghost use Rattle.device_table.specs.Seen.{terminal_states};

use crate::answering::are_answering;
use crate::disk::Disk;
use crate::failing::Plan;
use crate::row::{HISTORY, Row};
use crate::stop::is_stop_of;
use crate::terminals::terminal;
use device_table::devices::Devices;
use os9_boot::{add_drive, os9_main};
use os9_outer::drive::BlockDriver;
use os9_outer::host_file::HostFile;
use os9_outer::mem_host::MemHost;
use os9_outer::terminal::CharDriver;
use std::alloc::{AllocError, Global};

/// The status of a run after which no process lives.
const ENDED: u8 = 0;

/// The status of a run after which a process lives.
const LIVING: u8 = 5;

/// The status of a run that did not begin, since a drive failed when its image was mounted.
const NOT_MOUNTED: u8 = 9;

/// What the file of a history holds before a run.
const OLD_HISTORY: &[u8] = b"an older history\n";

/// What a run shows.
#[derive(Drop)]
pub(crate) struct Shown {
    status: u8,
    out: Vec<u8>,
    err: Vec<u8>,
    /// The files that are neither images nor the history are unchanged.
    kept: bool,
    disks: Vec<Disk>,
    /// The file of the history, if there is one.
    history: Option<Vec<u8>>,
    /// Each drive answers a read after the run.
    answering: bool,
}

impl Shown {
    /// Is it what the row says? Images are changed only by a run that went to its end.
    pub(crate) fn is_as(&self, row: &Row) -> bool
        ensures status { OnTrue result (self.now.status ≡ row.now.status) }
        ensures out { OnTrue result (bytes_eq self.now.out.items row.now.out.items ≡ true) }
    {
        let told = match self.err.as_slice().strip_suffix(b"\n") {
            Some(line) => line == row.err.as_bytes(),
            None => self.err.is_empty() && row.err.is_empty(),
        };
        let written = self.out.as_slice() == row.out.as_slice();
        self.status == row.status
            && written
            && told
            && self.kept
            && self.has_disks(row)
            && self.has_history(row)
    }

    /// Has no call of a stopping drive failed?
    pub(crate) fn has_not_stopped(&self) -> bool
        ensures { result ≡ self.now.answering }
    {
        self.answering
    }

    /// Is it what a run of the row with a stopping drive may show? It went to its end, or did not
    /// begin, since an image was not mounted.
    pub(crate) fn is_stop_of(&self, alloc: Global, row: &Row) -> Result<bool, AllocError> {
        let as_told = match self.status {
            ENDED | LIVING => self.has_stopped_disks(alloc, row)?,
            NOT_MOUNTED => self.has_same_disks(row),
            _ => false,
        };
        Ok(as_told && self.kept)
    }

    /// Are the images what the row says?
    fn has_disks(&self, row: &Row) -> bool {
        let mut pairs = self.disks.iter().zip(row.disks.iter());
        match self.status {
            ENDED | LIVING => pairs.all(|(disk, before)| disk.is_left_of(before)),
            _ => self.has_same_disks(row),
        }
    }

    /// Is the history that of the row? Only a run that went to its end writes it.
    fn has_history(&self, row: &Row) -> bool {
        match (&self.history, &row.history) {
            (Some(shown), Some(lines)) => match self.status {
                ENDED | LIVING => shown.as_slice() == lines.as_slice(),
                _ => shown.as_slice() == OLD_HISTORY,
            },
            (None, None) => true,
            (Some(_), None) | (None, Some(_)) => false,
        }
    }

    /// Are the images those of the row?
    fn has_same_disks(&self, row: &Row) -> bool {
        let mut pairs = self.disks.iter().zip(row.disks.iter());
        pairs.all(|(disk, before)| disk.is_same(before))
    }

    /// Are the images what a stop may leave of those of the row?
    fn has_stopped_disks(&self, alloc: Global, row: &Row) -> Result<bool, AllocError> {
        for (disk, before) in self.disks.iter().zip(row.disks.iter()) {
            if !is_stop_of(alloc, &disk.image, before)? {
                return Ok(false);
            }
        }
        Ok(true)
    }
}

/// Runs the words of a row over a host in memory that has its files, on four drives without an
/// image, with these failing calls, and on four terminals. Calls of the terminals and of the host
/// fail as the row says.
pub(crate) fn run(alloc: Global, row: &Row, plan: &Plan<'_>) -> Result<Shown, AllocError> {
    let mut drives: Vec<Box<dyn BlockDriver>> = Vec::new(alloc);
    add_drive(&mut drives, Box::new(alloc, plan.drive(alloc, 0)?)?)?;
    add_drive(&mut drives, Box::new(alloc, plan.drive(alloc, 1)?)?)?;
    add_drive(&mut drives, Box::new(alloc, plan.drive(alloc, 2)?)?)?;
    add_drive(&mut drives, Box::new(alloc, plan.drive(alloc, 3)?)?)?;
    run_with(alloc, row, drives)
}

/// The same on these drives.
fn run_with(
    alloc: Global,
    row: &Row,
    drives: Vec<Box<dyn BlockDriver>>,
) -> Result<Shown, AllocError>
    requires { HaveRoom 4 (drive_views BlockDriver-box drives.items) }
{
    let calls = row.terminals.as_slice();
    let mut terms = Vec::new(alloc);
    add_terminal(&mut terms, Box::new(alloc, terminal(alloc, calls, 0)?)?)?;
    add_terminal(&mut terms, Box::new(alloc, terminal(alloc, calls, 1)?)?)?;
    add_terminal(&mut terms, Box::new(alloc, terminal(alloc, calls, 2)?)?)?;
    add_terminal(&mut terms, Box::new(alloc, terminal(alloc, calls, 3)?)?)?;
    run_on(alloc, row, Devices { drives, terms })
}

/// Appends a terminal without keys.
fn add_terminal(
    terms: &mut Vec<Box<dyn CharDriver>>,
    term: Box<dyn CharDriver>,
) -> Result<(), AllocError>
    requires keys { All HasNoKeys (terminal_states CharDriver-box terms.old.items) }
    requires term { keys_left term ≡ [] }
    ensures keys { OnOk result (All HasNoKeys (terminal_states CharDriver-box terms.new.items)) }
    ensures count { OnOk result (length terms.new.items ≡ length terms.old.items + 1) }
{
    terms.push(term)?;
    Ok(())
}

/// The same on these devices.
fn run_on(alloc: Global, row: &Row, devices: Devices) -> Result<Shown, AllocError>
    requires { DevicesAreFree 4 (outside BlockDriver-box CharDriver-box devices) }
{
    let words = words(alloc, row)?;
    let failing = Vec::from_slice(alloc, row.host.as_slice())?;
    let mut host = MemHost::new(alloc, files(alloc, row)?, failing);
    let mut devices = devices;
    let status = os9_main(alloc, words.as_slice(), &mut host, &mut devices);
    Ok(Shown {
        status,
        out: Vec::from_slice(alloc, host.out_bytes.as_slice())?,
        err: Vec::from_slice(alloc, host.err_bytes.as_slice())?,
        kept: are_kept(row, &host.files, &files(alloc, row)?),
        disks: disks(alloc, row, &host.files)?,
        history: history(alloc, &host.files)?,
        answering: are_answering(alloc, &mut devices.drives)?,
    })
}

/// The words of a row.
fn words(alloc: Global, row: &Row) -> Result<Vec<String>, AllocError> {
    let mut words = Vec::new(alloc);
    for word in row.words.as_str().split(' ') {
        words.push(String::from_str(alloc, word)?)?;
    }
    Ok(words)
}

/// The files of a row, by the names that its words give them.
fn files(alloc: Global, row: &Row) -> Result<Vec<HostFile>, AllocError> {
    let mut files = copies(alloc, row.files.as_slice())?;
    for disk in row.disks.as_slice() {
        files.push(file(alloc, disk.name.as_str(), disk.image.as_slice())?)?;
    }
    if row.history.is_some() {
        files.push(file(alloc, HISTORY, OLD_HISTORY)?)?;
    }
    Ok(files)
}

/// The same files once more.
fn copies(alloc: Global, files: &[HostFile]) -> Result<Vec<HostFile>, AllocError> {
    let mut copies = Vec::new(alloc);
    for it in files {
        copies.push(file(alloc, it.name.as_str(), it.bytes.as_slice())?)?;
    }
    Ok(copies)
}

fn file(alloc: Global, name: &str, bytes: &[u8]) -> Result<HostFile, AllocError> {
    Ok(HostFile {
        name: String::from_str(alloc, name)?,
        bytes: Vec::from_slice(alloc, bytes)?,
    })
}

/// Are these the files before the run, with those unchanged that are neither images of the row nor
/// its history?
fn are_kept(row: &Row, files: &[HostFile], before: &[HostFile]) -> bool {
    files.len() == before.len()
        && files.iter().zip(before.iter()).all(|(file, old)| {
            let is_image = row.disks.iter().any(|disk| disk.name == file.name);
            let is_history = file.name.as_str() == HISTORY;
            is_image || is_history || file.bytes.as_slice() == old.bytes.as_slice()
        })
}

/// The images of a row, as their files hold them now.
fn disks(alloc: Global, row: &Row, files: &[HostFile]) -> Result<Vec<Disk>, AllocError> {
    let mut disks = Vec::new(alloc);
    for disk in row.disks.as_slice() {
        let file = files.iter().find(|file| file.name == disk.name);
        let image: &[u8] = match file {
            Some(file) => &file.bytes,
            None => &[],
        };
        disks.push(Disk::read(alloc, disk.name.as_str(), image)?)?;
    }
    Ok(disks)
}

/// The file of the history, if there is one.
fn history(alloc: Global, files: &[HostFile]) -> Result<Option<Vec<u8>>, AllocError> {
    match files.iter().find(|file| file.name.as_str() == HISTORY) {
        Some(file) => Ok(Some(Vec::from_slice(alloc, file.bytes.as_slice())?)),
        None => Ok(None),
    }
}
