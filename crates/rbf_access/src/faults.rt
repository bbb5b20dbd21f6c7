ghost use Rattle.std.specs.Prelude.{◌≡◌};
ghost use Rattle.rbf_access.specs.Faults.{file_error};

use os9_base::errors::{E_FULL, E_SLF};
use std::alloc::AllocError;
use thiserror::Error;

/// Why a call on a file of a volume was refused or ended.
///
/// `Device` is the number of the drive's fault (242 or 244 to 247); `NoCluster` is error 248, and
/// `TooManyRuns` error 217.
#[derive(Clone, Copy, Debug, PartialEq, Eq, Error)]
pub enum FileFault {
    #[error("error {0}")]
    Device(u8),
    #[error("media full")]
    NoCluster,
    #[error("segment list full")]
    TooManyRuns,
}

impl FileFault {
    /// The number of the error that a call with this fault answers: E$Full, E$SLF, or the number of
    /// the drive's fault (System Programmer's Manual, error codes).
    pub fn number(&self) -> u8
        ensures { result ≡ file_error self.now }
    {
        match self {
            FileFault::Device(number) => *number,
            FileFault::NoCluster => E_FULL,
            FileFault::TooManyRuns => E_SLF,
        }
    }
}

/// Why a volume was not mounted: a fault of the drive, by its number, or media without an RBF
/// volume.
#[derive(Clone, Copy, Debug, PartialEq, Eq, Error)]
pub enum VolFault {
    #[error("error {0}")]
    Device(u8),
    #[error("no RBF volume")]
    NotRbf,
    #[error("out of memory")]
    OutOfMemory,
}

impl From<AllocError> for VolFault {
    ghost use Rattle.rbf_access.specs.declared.faults.VolFault.TheVariants.{OutOfMemory};

    ghost from_gives = { λ _ fault. fault ≡ OutOfMemory };

    fn from(_error: AllocError) -> VolFault {
        VolFault::OutOfMemory
    }
}
