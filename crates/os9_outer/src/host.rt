ghost use Rattle.std.specs.Prelude.{◌≡◌, ◌≢◌, ℕ, ◌≤◌, Bool, true, false, Option, Some, None, IfSome, IfOk, OnOk, OnErr, List};
ghost use Rattle.os9_base.specs.Count.{Rose};
ghost use Rattle.os9_outer.specs.Host.{file_contents, OnFailed, UnlessFailed, IfObserved, KeepsOrHoldsPrefix, NotesName};
ghost use Rattle.os9_outer.specs.Stream.{stream_with, GainsPrefix};

use thiserror::Error;

/// Why a call of a [`Host`] was not done.
#[derive(Clone, Copy, Debug, PartialEq, Eq, Error)]
pub enum HostFault {
    /// The file or the stream failed. The host counts it.
    #[error("the host failed")]
    Failed,
    /// Out of memory.
    #[error("no memory")]
    OutOfMemory,
}

/// Files by name, an output stream and an error stream (this project's own).
///
/// The contents of its files (`file_map`) and what was written to its streams (`bytes_out`,
/// `bytes_err`) may be observed or, as with a real host, not. Always observed are its counts of
/// faults, with a separate one for the error stream, and the name of the last failed call, which is
/// none if that was a write to the output stream. So are whether that call read a file, and the
/// names of the files that the host was to read (`files_read`) and to write (`files_written`), in
/// the order of the calls.
pub trait Host {
    ghost file_map: { Self → Option (List ℕ → Option (List ℕ)) };

    ghost bytes_out: { Self → Option (List ℕ) };

    ghost bytes_err: { Self → Option (List ℕ) };

    ghost host_faults: { Self → ℕ };

    ghost err_stream_faults: { Self → ℕ };

    ghost failed_name: { Self → Option (List ℕ) };

    ghost failed_in_read: { Self → Bool };

    ghost files_read: { Self → List (List ℕ) };

    ghost files_written: { Self → List (List ℕ) };

    /// The bytes of the file of this name.
    ///
    /// Every `Failed` is counted. A host whose files are observed may return the empty list for a
    /// name that it does not have.
    fn read_file(&mut self, name: &str) -> Result<Vec<u8>, HostFault>
        ensures contents { IfOk result (λ bytes.
            IfSome (file_map self.old) (λ files. bytes.items ≡ file_contents files name.now)) }

        ensures fault_counted { OnFailed result
            (Rose (host_faults self.old) (host_faults self.new)) }
        ensures fault_named { OnFailed result (failed_name self.new ≡ Some name.now) }
        ensures fault_in_read { OnFailed result (failed_in_read self.new ≡ true) }
        ensures count_kept { UnlessFailed result (host_faults self.new ≡ host_faults self.old) }
        ensures name_kept { UnlessFailed result (failed_name self.new ≡ failed_name self.old) }
        ensures read_kept { UnlessFailed result
            (failed_in_read self.new ≡ failed_in_read self.old) }
        ensures never_falls { host_faults self.old ≤ host_faults self.new }
        ensures err_count_kept { err_stream_faults self.new ≡ err_stream_faults self.old }

        ensures read_noted { NotesName result name.now
            (files_read self.old) (files_read self.new) }
        ensures written_kept { files_written self.new ≡ files_written self.old }

        ensures files_kept { file_map self.new ≡ file_map self.old }
        ensures out_kept { bytes_out self.new ≡ bytes_out self.old }
        ensures err_kept { bytes_err self.new ≡ bytes_err self.old };

    /// Sets the bytes of the file of this name to these.
    ///
    /// Every `Failed` is counted. After a refusal the file may hold a part of the bytes.
    fn write_file(&mut self, name: &str, bytes: &[u8]) -> Result<(), HostFault>
        ensures written { OnOk result
            (IfObserved (λ before now. now name.now ≡ Some bytes.now)
            (file_map self.old) (file_map self.new)) }
        ensures prefix_written { IfObserved (λ before now.
            KeepsOrHoldsPrefix (before name.now) bytes.now (now name.now))
            (file_map self.old) (file_map self.new) }
        ensures others_kept { IfObserved (λ before now.
            (other : List ℕ) → other ≢ name.now → now other ≡ before other)
            (file_map self.old) (file_map self.new) }

        ensures fault_counted { OnFailed result
            (Rose (host_faults self.old) (host_faults self.new)) }
        ensures fault_named { OnFailed result (failed_name self.new ≡ Some name.now) }
        ensures fault_in_write { OnFailed result (failed_in_read self.new ≡ false) }
        ensures count_kept { UnlessFailed result (host_faults self.new ≡ host_faults self.old) }
        ensures name_kept { UnlessFailed result (failed_name self.new ≡ failed_name self.old) }
        ensures read_kept { UnlessFailed result
            (failed_in_read self.new ≡ failed_in_read self.old) }
        ensures never_falls { host_faults self.old ≤ host_faults self.new }
        ensures err_count_kept { err_stream_faults self.new ≡ err_stream_faults self.old }

        ensures write_noted { NotesName result name.now
            (files_written self.old) (files_written self.new) }
        ensures reads_kept { files_read self.new ≡ files_read self.old }

        ensures out_kept { bytes_out self.new ≡ bytes_out self.old }
        ensures err_kept { bytes_err self.new ≡ bytes_err self.old };

    /// Writes these bytes to the output stream.
    ///
    /// Every `Failed` is counted. After a refusal a part of the bytes may be out.
    fn out(&mut self, bytes: &[u8]) -> Result<(), HostFault>
        ensures gained { OnOk result
            (bytes_out self.new ≡ stream_with (bytes_out self.old) bytes.now) }
        ensures prefix_gained { GainsPrefix (bytes_out self.old) bytes.now (bytes_out self.new) }

        ensures fault_counted { OnFailed result
            (Rose (host_faults self.old) (host_faults self.new)) }
        ensures fault_unnamed { OnFailed result (failed_name self.new ≡ None) }
        ensures fault_in_out { OnFailed result (failed_in_read self.new ≡ false) }
        ensures count_kept { UnlessFailed result (host_faults self.new ≡ host_faults self.old) }
        ensures name_kept { UnlessFailed result (failed_name self.new ≡ failed_name self.old) }
        ensures read_kept { UnlessFailed result
            (failed_in_read self.new ≡ failed_in_read self.old) }
        ensures never_falls { host_faults self.old ≤ host_faults self.new }
        ensures err_count_kept { err_stream_faults self.new ≡ err_stream_faults self.old }

        ensures reads_kept { files_read self.new ≡ files_read self.old }
        ensures written_kept { files_written self.new ≡ files_written self.old }
        ensures files_kept { file_map self.new ≡ file_map self.old }
        ensures err_kept { bytes_err self.new ≡ bytes_err self.old };

    /// Writes these bytes to the error stream.
    ///
    /// Every `Err`, even out of memory, is counted by a count of the error stream's own, and leaves
    /// what is observed of the last failed call. After a refusal a part of the bytes may be out.
    fn err(&mut self, bytes: &[u8]) -> Result<(), HostFault>
        ensures gained { OnOk result
            (bytes_err self.new ≡ stream_with (bytes_err self.old) bytes.now) }
        ensures prefix_gained { GainsPrefix (bytes_err self.old) bytes.now (bytes_err self.new) }

        ensures fault_counted { OnErr result
            (Rose (err_stream_faults self.old) (err_stream_faults self.new)) }
        ensures err_count_kept { OnOk result
            (err_stream_faults self.new ≡ err_stream_faults self.old) }
        ensures never_falls { err_stream_faults self.old ≤ err_stream_faults self.new }

        ensures count_kept { host_faults self.new ≡ host_faults self.old }
        ensures name_kept { failed_name self.new ≡ failed_name self.old }
        ensures read_kept { failed_in_read self.new ≡ failed_in_read self.old }
        ensures reads_kept { files_read self.new ≡ files_read self.old }
        ensures written_kept { files_written self.new ≡ files_written self.old }
        ensures files_kept { file_map self.new ≡ file_map self.old }
        ensures out_kept { bytes_out self.new ≡ bytes_out self.old };
}
