ghost use Rattle.std.specs.Prelude.{◌≡◌, ℕ, ◌+◌, ◌-◌, ◌^◌, ◌≤◌, min, true, false, Option, Some, None, option_map, IfOk, string_bytes, vec_len, List, [], map};

use crate::failure::Failure;
use crate::host::{Host, HostFault};
use crate::names::note;
use crate::output::put_all;
use crate::replace::write_whole;
use std::fs::OpenFile;
use std::io::{ErrorKind, Read};
use std::rt::Runtime;
use std::{fs, io, str};

/// The most bytes of a file that is read.
const LONGEST_FILE: u64 = 536_870_912;

/// The number of bytes of a file that are read at a time.
const PART: usize = 4096;

/// The host of the running program: its files, its standard output and its standard error.
///
/// Its contents are not observed. A missing or too long file is a fault, and so is a write that
/// takes nothing. Bytes that are not text are a fault of the error stream. A file that has the
/// bytes already is left alone. Any other plain file is replaced by a whole new one, written next
/// to it (its name, `.os9-` and the first free number), with its owner and mode. If that fails the
/// old file is unchanged.
#[derive(Drop)]
pub struct RealHost<R> {
    rt: R,
    faults: u64,
    err_faults: u64,
    last: Failure,
    files_read: Vec<String>,
    files_written: Vec<String>,
}

impl<R: Runtime + AllocGlobal> RealHost<R> {
    /// The host over this runtime, with no faults counted and no files noted.
    pub fn new(rt: R) -> RealHost<R>
        ensures no_faults { ⟦<RealHost<R> as Host>⟧.host_faults result ≡ 0 }
        ensures no_err_faults { ⟦<RealHost<R> as Host>⟧.err_stream_faults result ≡ 0 }
        ensures no_name { ⟦<RealHost<R> as Host>⟧.failed_name result ≡ None }
        ensures no_read { ⟦<RealHost<R> as Host>⟧.failed_in_read result ≡ false }
        ensures none_read { ⟦<RealHost<R> as Host>⟧.files_read result ≡ [] }
        ensures none_written { ⟦<RealHost<R> as Host>⟧.files_written result ≡ [] }
    {
        let alloc = rt.alloc();
        RealHost {
            rt,
            faults: 0,
            err_faults: 0,
            last: Failure::none(),
            files_read: Vec::new(alloc),
            files_written: Vec::new(alloc),
        }
    }

    // Counts a fault, and keeps what is observed of it.
    fn fail(&mut self, failure: Failure) -> HostFault
        ensures counted { self.new.faults ≡ min (self.old.faults + 1) (2 ^ 64 - 1) }
        ensures never_falls { self.old.faults ≤ self.new.faults }
        ensures last { self.new.last ≡ failure }
        ensures err_faults_kept { self.new.err_faults ≡ self.old.err_faults }
        ensures reads_kept { self.new.files_read ≡ self.old.files_read }
        ensures written_kept { self.new.files_written ≡ self.old.files_written }
        ensures failed { result ≡ HostFault.Failed }
    {
        self.faults = self.faults.saturating_add(1);
        self.last = failure;
        HostFault::Failed
    }

    // Counts a fault of the error stream.
    fn fail_err(&mut self, fault: HostFault) -> HostFault
        ensures counted { self.new.err_faults ≡ min (self.old.err_faults + 1) (2 ^ 64 - 1) }
        ensures never_falls { self.old.err_faults ≤ self.new.err_faults }
        ensures last_kept { self.new.last ≡ self.old.last }
        ensures faults_kept { self.new.faults ≡ self.old.faults }
        ensures reads_kept { self.new.files_read ≡ self.old.files_read }
        ensures written_kept { self.new.files_written ≡ self.old.files_written }
        ensures fault { result ≡ fault }
    {
        self.err_faults = self.err_faults.saturating_add(1);
        fault
    }
}

impl<R: Runtime + AllocGlobal> Host for RealHost<R> {
    ghost file_map = { λ _. None };

    ghost bytes_out = { λ _. None };

    ghost bytes_err = { λ _. None };

    ghost host_faults = { λ host. host.faults };

    ghost err_stream_faults = { λ host. host.err_faults };

    ghost failed_name = { λ host. option_map string_bytes host.last.name };

    ghost failed_in_read = { λ host. host.last.in_read };

    ghost files_read = { λ host. map string_bytes host.files_read.items };

    ghost files_written = { λ host. map string_bytes host.files_written.items };

    fn read_file(&mut self, name: &str) -> Result<Vec<u8>, HostFault> {
        note(&mut self.files_read, name)?;
        match read_whole(&self.rt, name) {
            Ok(bytes) => Ok(bytes),
            Err(error) if wants_memory(&error) => Err(HostFault::OutOfMemory),
            Err(_) => {
                let failure = Failure::of_read(self.rt.alloc(), name)?;
                Err(self.fail(failure))
            }
        }
    }

    fn write_file(&mut self, name: &str, bytes: &[u8]) -> Result<(), HostFault> {
        note(&mut self.files_written, name)?;
        match write_whole(&self.rt, name, bytes) {
            Ok(()) => Ok(()),
            Err(error) if wants_memory(&error) => Err(HostFault::OutOfMemory),
            Err(_) => {
                let failure = Failure::of_write(self.rt.alloc(), name)?;
                Err(self.fail(failure))
            }
        }
    }

    fn out(&mut self, bytes: &[u8]) -> Result<(), HostFault> {
        match put_all(&self.rt, bytes) {
            Ok(()) => Ok(()),
            Err(error) if wants_memory(&error) => Err(HostFault::OutOfMemory),
            Err(_) => Err(self.fail(Failure::of_output())),
        }
    }

    fn err(&mut self, bytes: &[u8]) -> Result<(), HostFault> {
        let Ok(text) = str::from_utf8(bytes) else {
            return Err(self.fail_err(HostFault::Failed));
        };
        match self.rt.eprint(text) {
            Ok(()) => Ok(()),
            Err(error) if wants_memory(&error) => Err(self.fail_err(HostFault::OutOfMemory)),
            Err(_) => Err(self.fail_err(HostFault::Failed)),
        }
    }
}

// The bytes of a file that is not too long.
fn read_whole<R: Runtime + AllocGlobal>(rt: &R, name: &str) -> io::Result<Vec<u8>>
    ensures { IfOk result (λ bytes. vec_len bytes ≤ 536870912) }
{
    let mut file = fs::open(rt, name)?;
    let length = file.metadata()?.len();
    if length > LONGEST_FILE {
        return Err(io::Error::from(ErrorKind::FileTooLarge));
    }
    let mut bytes = Vec::with_capacity(rt.alloc(), length as usize)?;
    let mut part = [0; PART];
    // (a file that is not a plain one shows no length, and may have more bytes)
    for _ in 0..u64::MAX {
        let count = read_some(&mut file, &mut part)?;
        if count == 0 {
            return Ok(bytes);
        }
        if bytes.len() + count > LONGEST_FILE as usize {
            return Err(io::Error::from(ErrorKind::FileTooLarge));
        }
        bytes.extend_from_slice(&part[..count])?;
    }
    Err(io::Error::from(ErrorKind::TimedOut))
}

// Reads some bytes, again if a signal interrupted the read.
fn read_some(file: &mut impl Read, part: &mut [u8; PART]) -> io::Result<usize>
    ensures { IfOk result (λ count. count ≤ 4096) }
{
    for _ in 0..u64::MAX {
        match file.read(part) {
            Err(error) if error.kind() == ErrorKind::Interrupted => {}
            read => return read,
        }
    }
    Err(io::Error::from(ErrorKind::TimedOut))
}

fn wants_memory(error: &io::Error) -> bool {
    error.kind() == ErrorKind::OutOfMemory
}
