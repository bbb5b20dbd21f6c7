ghost use Rattle.std.specs.Prelude.{◌≡◌};

use os9_base::call::OutOfMemory;
use std::alloc::AllocError;
use thiserror::Error;

/// How an event of the chosen process ended.
#[derive(Clone, Copy, Debug, PartialEq, Eq)]
pub enum EventEnd {
    /// The process goes on.
    Ran,
    /// Its call is pending.
    Waits,
    /// The process has ended.
    Ended,
    /// Out of memory, and the run ends.
    NoMemory,
}

/// How a slice ended.
#[derive(Clone, Copy, Debug, PartialEq, Eq)]
pub enum SliceEnd {
    /// No process was ready.
    Idle,
    /// A process was chosen and had its events.
    Ran,
    /// Out of memory, and the run ends.
    NoMemory,
}

/// Why a boot file does not start.
#[derive(Clone, Copy, Debug, PartialEq, Eq, Error)]
pub enum BootFault {
    /// Out of memory.
    #[error("no memory")]
    OutOfMemory,
    /// A module of the file is refused: where it begins, and the number of the error.
    #[error("boot module {1} at {0}")]
    BadModule(u32, u8),
    /// The file has no program `SysGo` in 6809 code.
    #[error("boot no SysGo")]
    NoFirst,
    /// The file is longer than a group of modules may be, or there are too few blocks or slots for
    /// it and the data area of `SysGo`.
    #[error("boot too large")]
    TooLarge,
}

impl From<OutOfMemory> for BootFault {
    ghost use Rattle.machine_model.specs.declared.ends.BootFault.TheVariants.{OutOfMemory};

    ghost from_gives = { λ _ fault. fault ≡ OutOfMemory };

    fn from(_fault: OutOfMemory) -> BootFault {
        BootFault::OutOfMemory
    }
}

impl From<AllocError> for BootFault {
    ghost use Rattle.machine_model.specs.declared.ends.BootFault.TheVariants.{OutOfMemory};

    ghost from_gives = { λ _ fault. fault ≡ OutOfMemory };

    fn from(_error: AllocError) -> BootFault {
        BootFault::OutOfMemory
    }
}
