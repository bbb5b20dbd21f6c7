ghost use Rattle.std.specs.Prelude.{◌≡◌};

use rbf_access::FileFault;
use rbf_walk::DirError;
use std::alloc::AllocError;
use thiserror::Error;

/// Why a tool was refused or ended.
#[derive(Clone, Copy, Debug, PartialEq, Eq, Error)]
pub enum ToolFault {
    /// The number of the error for which it is refused (System Programmer's Manual, error codes).
    #[error("error {0}")]
    Number(u8),
    /// The number of the drive's fault that ended it.
    #[error("fault {0}")]
    Device(u8),
    #[error("no memory")]
    OutOfMemory,
}

impl From<AllocError> for ToolFault {
    ghost use Rattle.vol_tools.specs.declared.fault.ToolFault.TheVariants.{OutOfMemory};

    ghost from_gives = { λ _ error. error ≡ OutOfMemory };

    fn from(_fault: AllocError) -> ToolFault {
        ToolFault::OutOfMemory
    }
}

impl From<FileFault> for ToolFault {
    ghost use Rattle.vol_tools.specs.Faults.{of_file};

    ghost from_gives = { λ fault error. error ≡ of_file fault };

    fn from(fault: FileFault) -> ToolFault {
        match fault {
            FileFault::Device(number) => ToolFault::Device(number),
            _ => ToolFault::Number(fault.number()),
        }
    }
}

impl From<DirError> for ToolFault {
    ghost use Rattle.vol_tools.specs.Faults.{of_directory};

    ghost from_gives = { λ fault error. error ≡ of_directory fault };

    fn from(fault: DirError) -> ToolFault {
        match fault {
            DirError::File(fault) => ToolFault::from(fault),
            _ => ToolFault::Number(fault.number()),
        }
    }
}
