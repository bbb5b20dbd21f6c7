ghost use Rattle.std.specs.Prelude.{◌≡◌, ℕ, false, Some, None, List, [], map, string_bytes};
ghost use Rattle.os9_outer.specs.HostFile.{file_named};

use crate::host::{Host, HostFault};
use crate::host_file::{HostFile, bytes_of, copied, put_file};
use crate::names::note;
use std::alloc::Global;

/// A host in memory that never fails: its count of faults is always 0, and that of the error stream
/// rises only if memory is out. Everything in it is observed, and a read of a name that it does not
/// have returns the empty list.
#[derive(Debug, Drop)]
pub struct SureHost {
    files: Vec<HostFile>,
    out_bytes: Vec<u8>,
    err_bytes: Vec<u8>,
    err_faults: u64,
    files_read: Vec<String>,
    files_written: Vec<String>,
}

impl SureHost {
    /// A host with these files, before any write to its streams.
    pub fn new(alloc: Global, files: Vec<HostFile>) -> SureHost
        ensures files { ⟦<SureHost as Host>⟧.file_map result ≡ Some (file_named files.items) }
        ensures no_out { ⟦<SureHost as Host>⟧.bytes_out result ≡ Some [] }
        ensures no_err { ⟦<SureHost as Host>⟧.bytes_err result ≡ Some [] }
        ensures no_faults { ⟦<SureHost as Host>⟧.host_faults result ≡ 0 }
        ensures no_err_faults { ⟦<SureHost as Host>⟧.err_stream_faults result ≡ 0 }
        ensures none_read { ⟦<SureHost as Host>⟧.files_read result ≡ [] }
        ensures none_written { ⟦<SureHost as Host>⟧.files_written result ≡ [] }
    {
        SureHost {
            files,
            out_bytes: Vec::new(alloc),
            err_bytes: Vec::new(alloc),
            err_faults: 0,
            files_read: Vec::new(alloc),
            files_written: Vec::new(alloc),
        }
    }
}

impl Host for SureHost {
    ghost file_map = { λ host. Some (file_named host.files.items) };

    ghost bytes_out = { λ host. Some host.out_bytes.items };

    ghost bytes_err = { λ host. Some host.err_bytes.items };

    ghost host_faults = { λ _. 0 };

    ghost err_stream_faults = { λ host. host.err_faults };

    ghost failed_name = { λ _. None };

    ghost failed_in_read = { λ _. false };

    ghost files_read = { λ host. map string_bytes host.files_read.items };

    ghost files_written = { λ host. map string_bytes host.files_written.items };

    fn read_file(&mut self, name: &str) -> Result<Vec<u8>, HostFault> {
        note(&mut self.files_read, name)?;
        let alloc = *self.files.allocator();
        match bytes_of(&self.files, name) {
            Some(bytes) => copied(alloc, bytes),
            None => Ok(Vec::new(alloc)),
        }
    }

    fn write_file(&mut self, name: &str, bytes: &[u8]) -> Result<(), HostFault> {
        note(&mut self.files_written, name)?;
        match put_file(&mut self.files, name, bytes) {
            Ok(()) => Ok(()),
            Err(_) => Err(HostFault::OutOfMemory),
        }
    }

    fn out(&mut self, bytes: &[u8]) -> Result<(), HostFault> {
        self.out_bytes
            .extend_from_slice(bytes)
            .map_err(|_| HostFault::OutOfMemory)
    }

    fn err(&mut self, bytes: &[u8]) -> Result<(), HostFault> {
        match self.err_bytes.extend_from_slice(bytes) {
            Ok(()) => Ok(()),
            Err(_) => {
                self.err_faults = self.err_faults.saturating_add(1);
                Err(HostFault::OutOfMemory)
            }
        }
    }
}
