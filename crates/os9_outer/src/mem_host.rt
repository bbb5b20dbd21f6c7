ghost use Rattle.std.specs.Prelude.{◌≡◌, ◌≢◌, ℕ, ◌+◌, ◌-◌, ◌^◌, ◌≤◌, min, Bool, false, Option, Some, None, option_map, OnOk, OnErr, IfOk, IsOkUnless, List, [], map, position, string_bytes};
ghost use Rattle.os9_outer.specs.HostFile.{file_named};
ghost use Rattle.os9_outer.specs.Host.{KeepsOrHoldsPrefix};
ghost use Rattle.os9_outer.specs.Plans.{is_planned};

use crate::failure::Failure;
use crate::host::{Host, HostFault};
use crate::host_file::{HostFile, bytes_of, copied, put_file};
use crate::names::note;
use std::alloc::Global;

/// What a planned failure of a write leaves in its file.
#[derive(Clone, Copy, Debug, PartialEq, Eq)]
pub enum FailedWrite {
    /// The old bytes, as if there is no room for a new file next to it.
    Old,
    /// The first half of the new bytes, as if a write in place to a disk fails.
    Half,
    /// The new bytes, as if the file has its place, and its folder cannot be synced.
    New,
}

/// A host in memory for tests, whose calls fail as planned. Everything in it is observed.
///
/// `calls` counts the calls of all four kinds together, and `plan` lists the numbers, from 1, of
/// those that fail. A failing call has no effect except its count, unless it is a write and
/// `failed_write` leaves new bytes. Of two files of one name the first counts, and a missing file
/// is a fault.
#[derive(Debug, Drop)]
pub struct MemHost {
    pub files: Vec<HostFile>,
    pub out_bytes: Vec<u8>,
    pub err_bytes: Vec<u8>,
    pub calls: u64,
    pub faults: u64,
    pub err_faults: u64,
    pub last: Option<String>,
    pub last_read: bool,
    pub plan: Vec<u64>,
    pub failed_write: FailedWrite,
    pub files_read: Vec<String>,
    pub files_written: Vec<String>,
}

impl MemHost {
    /// A host with these files. Its calls of these numbers fail, and leave each file unchanged.
    pub fn new(alloc: Global, files: Vec<HostFile>, plan: Vec<u64>) -> MemHost
        ensures files { result.files.items ≡ files.items }
        ensures out_bytes { result.out_bytes.items ≡ [] }
        ensures err_bytes { result.err_bytes.items ≡ [] }
        ensures calls { result.calls ≡ 0 }
        ensures faults { result.faults ≡ 0 }
        ensures err_faults { result.err_faults ≡ 0 }
        ensures last { result.last ≡ None }
        ensures last_read { result.last_read ≡ false }
        ensures plan { result.plan.items ≡ plan.items }
        ensures failed_write { result.failed_write ≡ FailedWrite.Old }
        ensures none_read { result.files_read.items ≡ [] }
        ensures none_written { result.files_written.items ≡ [] }
    {
        MemHost {
            files,
            out_bytes: Vec::new(alloc),
            err_bytes: Vec::new(alloc),
            calls: 0,
            faults: 0,
            err_faults: 0,
            last: None,
            last_read: false,
            plan,
            failed_write: FailedWrite::Old,
            files_read: Vec::new(alloc),
            files_written: Vec::new(alloc),
        }
    }

    // Counts a call, and returns whether it is to fail.
    fn fails_next(&mut self) -> bool
        ensures planned { result ≡ is_planned self.old.plan.items self.new.calls }
        ensures call_counted { self.new ≡ record self.old {
          calls = min (self.old.calls + 1) (2 ^ 64 - 1);
        } }
    {
        self.calls = self.calls.saturating_add(1);
        self.plan.contains(&self.calls)
    }

    // Counts a fault, and keeps what is observed of it.
    fn fail(&mut self, failure: Failure) -> HostFault
        ensures kept { self.new ≡ record self.old {
          faults = min (self.old.faults + 1) (2 ^ 64 - 1);
          last = failure.name;
          last_read = failure.in_read;
        } }
        ensures failed { result ≡ HostFault.Failed }
        ensures never_falls { self.old.faults ≤ self.new.faults }
    {
        let Failure { name, in_read } = failure;
        self.faults = self.faults.saturating_add(1);
        self.last = name;
        self.last_read = in_read;
        HostFault::Failed
    }

    // Counts a fault of the error stream.
    fn fail_err(&mut self, fault: HostFault) -> HostFault
        ensures kept { self.new ≡ record self.old {
          err_faults = min (self.old.err_faults + 1) (2 ^ 64 - 1);
        } }
        ensures fault { result ≡ fault }
        ensures never_falls { self.old.err_faults ≤ self.new.err_faults }
    {
        self.err_faults = self.err_faults.saturating_add(1);
        fault
    }

    fn alloc(&self) -> Global {
        *self.files.allocator()
    }
}

impl Host for MemHost {
    ghost file_map = { λ host. Some (file_named host.files.items) };

    ghost bytes_out = { λ host. Some host.out_bytes.items };

    ghost bytes_err = { λ host. Some host.err_bytes.items };

    ghost host_faults = { λ host. host.faults };

    ghost err_stream_faults = { λ host. host.err_faults };

    ghost failed_name = { λ host. option_map string_bytes host.last };

    ghost failed_in_read = { λ host. host.last_read };

    ghost files_read = { λ host. map string_bytes host.files_read.items };

    ghost files_written = { λ host. map string_bytes host.files_written.items };

    fn read_file(&mut self, name: &str) -> Result<Vec<u8>, HostFault> {
        note(&mut self.files_read, name)?;
        if !self.fails_next() {
            if let Some(bytes) = bytes_of(&self.files, name) {
                return copied(self.alloc(), bytes);
            }
        }
        let failure = Failure::of_read(self.alloc(), name)?;
        Err(self.fail(failure))
    }

    fn write_file(&mut self, name: &str, bytes: &[u8]) -> Result<(), HostFault> {
        note(&mut self.files_written, name)?;
        if self.fails_next() {
            leave(&mut self.files, self.failed_write, name, bytes)?;
            let failure = Failure::of_write(self.alloc(), name)?;
            return Err(self.fail(failure));
        }
        match put_file(&mut self.files, name, bytes) {
            Ok(()) => Ok(()),
            Err(_) => Err(HostFault::OutOfMemory),
        }
    }

    fn out(&mut self, bytes: &[u8]) -> Result<(), HostFault> {
        if self.fails_next() {
            return Err(self.fail(Failure::of_output()));
        }
        self.out_bytes
            .extend_from_slice(bytes)
            .map_err(|_| HostFault::OutOfMemory)
    }

    fn err(&mut self, bytes: &[u8]) -> Result<(), HostFault> {
        if self.fails_next() {
            return Err(self.fail_err(HostFault::Failed));
        }
        match self.err_bytes.extend_from_slice(bytes) {
            Ok(()) => Ok(()),
            Err(_) => Err(self.fail_err(HostFault::OutOfMemory)),
        }
    }
}

// Leaves in the file of this name what a failed write of these bytes leaves.
fn leave(
    files: &mut Vec<HostFile>,
    failed: FailedWrite,
    name: &str,
    bytes: &[u8],
) -> Result<(), HostFault>
    ensures part { KeepsOrHoldsPrefix (file_named files.old.items name.now) bytes.now
        (file_named files.new.items name.now) }
    ensures others_kept { (other : List ℕ) → other ≢ name.now →
        file_named files.new.items other ≡ file_named files.old.items other }
    ensures only_memory { IsOkUnless result HostFault.OutOfMemory }
{
    let left = match failed {
        FailedWrite::Old => return Ok(()),
        FailedWrite::Half => &bytes[..bytes.len() / 2],
        FailedWrite::New => bytes,
    };
    put_file(files, name, left).map_err(|_| HostFault::OutOfMemory)
}
