ghost use Rattle.std.specs.Prelude.{◌≡◌, ℕ, ◌+◌, ◌-◌, ◌^◌, ◌<◌, ◌≤◌, min, Option, Some, None, IsSome, option_map, IfErr, OnOk, OnErr, List};
ghost use Rattle.os9_base.specs.Count.{Rose};
ghost use Rattle.os9_outer.specs.Drive.{drive_error, sector_count, sector_at, with_sector};
ghost use Rattle.os9_outer.specs.declared.drive.DriveFault.{DriveFault};

use os9_base::errors::{E_NOTRDY, E_READ, E_SEEK, E_WP, E_WRITE};
use thiserror::Error;

/// A drive's fault (System Programmer's Manual, error codes).
#[derive(Clone, Copy, Debug, PartialEq, Eq, Error)]
pub enum DriveFault {
    #[error("write protect")]
    WriteProtect,
    #[error("read error")]
    ReadFault,
    #[error("write error")]
    WriteFault,
    #[error("not ready")]
    NotReady,
    #[error("seek error")]
    SeekFault,
}

impl DriveFault {
    /// The error number of a call that met this fault: 242 or 244 to 247.
    pub fn number(&self) -> u8
        ensures { result ≡ drive_error self.now }
    {
        match self {
            DriveFault::WriteProtect => E_WP,
            DriveFault::ReadFault => E_READ,
            DriveFault::WriteFault => E_WRITE,
            DriveFault::NotReady => E_NOTRDY,
            DriveFault::SeekFault => E_SEEK,
        }
    }
}

/// A drive with sectors of 256 bytes, which may have an image in it (this project's own).
///
/// `media` is the image's bytes, or nothing if there is no image. `drive_faults` counts the faults
/// and never falls, `last_fault` is the last one that was returned, and `drive_calls` counts the
/// reads and writes. Both counts have 64 bits and stop at their last value.
pub trait BlockDriver: Drop {
    ghost media: { Self → Option (List ℕ) };

    ghost drive_faults: { Self → ℕ };

    ghost last_fault: { Self → Option DriveFault };

    ghost drive_calls: { Self → ℕ };

    /// Inserts an image. It is handed back exactly if there is already an image.
    fn insert(&mut self, image: Vec<u8>) -> Result<(), Vec<u8>>
        ensures inserted { OnOk result (media self.new ≡ Some image.items) }
        ensures was_empty { OnOk result (media self.old ≡ None) }
        ensures was_full { OnErr result (IsSome (media self.old)) }
        ensures handed_back { IfErr result (λ back. back.items ≡ image.items) }
        ensures media_kept { OnErr result (media self.new ≡ media self.old) }
        ensures faults_kept { drive_faults self.new ≡ drive_faults self.old }
        ensures last_kept { last_fault self.new ≡ last_fault self.old }
        ensures calls_kept { drive_calls self.new ≡ drive_calls self.old };

    /// Takes the image out. Returns None exactly if there is no image.
    fn eject(&mut self) -> Option<Vec<u8>>
        ensures handed_over { option_map (λ image. image.items) result ≡ media self.old }
        ensures none_left { media self.new ≡ None }
        ensures faults_kept { drive_faults self.new ≡ drive_faults self.old }
        ensures last_kept { last_fault self.new ≡ last_fault self.old }
        ensures calls_kept { drive_calls self.new ≡ drive_calls self.old };

    /// The number of whole sectors, at most 4,294,967,295; 0 if there is no image.
    fn sectors(&self) -> u32
        ensures { result ≡ sector_count (media self.now) };

    /// Fills `into` with the sector `lsn`. A fault leaves the buffer unchanged.
    fn read(&mut self, lsn: u32, into: &mut [u8; 256]) -> Result<(), DriveFault>
        requires { lsn < sector_count (media self.old) }
        ensures filled { OnOk result (into.new ≡ sector_at (media self.old) lsn) }
        ensures buffer_kept { OnErr result (into.new ≡ into.old) }
        ensures media_kept { media self.new ≡ media self.old }
        ensures fault_counted { OnErr result
            (Rose (drive_faults self.old) (drive_faults self.new)) }
        ensures fault_is_last { IfErr result (λ fault. last_fault self.new ≡ Some fault) }
        ensures faults_kept { OnOk result (drive_faults self.new ≡ drive_faults self.old) }
        ensures last_kept { OnOk result (last_fault self.new ≡ last_fault self.old) }
        ensures never_falls { drive_faults self.old ≤ drive_faults self.new }
        ensures call_counted { drive_calls self.new ≡ min (drive_calls self.old + 1) (2 ^ 64 - 1) };

    /// Sets the bytes of the sector `lsn` to these. A fault leaves the media unchanged.
    fn write(&mut self, lsn: u32, from: &[u8; 256]) -> Result<(), DriveFault>
        requires { lsn < sector_count (media self.old) }
        ensures written { OnOk result (media self.new ≡ with_sector (media self.old) lsn from.now) }
        ensures media_kept { OnErr result (media self.new ≡ media self.old) }
        ensures fault_counted { OnErr result
            (Rose (drive_faults self.old) (drive_faults self.new)) }
        ensures fault_is_last { IfErr result (λ fault. last_fault self.new ≡ Some fault) }
        ensures faults_kept { OnOk result (drive_faults self.new ≡ drive_faults self.old) }
        ensures last_kept { OnOk result (last_fault self.new ≡ last_fault self.old) }
        ensures never_falls { drive_faults self.old ≤ drive_faults self.new }
        ensures call_counted { drive_calls self.new ≡ min (drive_calls self.old + 1) (2 ^ 64 - 1) };
}
