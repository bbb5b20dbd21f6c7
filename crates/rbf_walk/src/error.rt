ghost use Rattle.std.specs.Prelude.{◌≡◌};
ghost use Rattle.rbf_walk.specs.Walk.{directory_error};

use os9_base::errors::{E_BPNAM, E_CEF, E_FNA, E_PNNF};
use rbf_access::FileFault;
use thiserror::Error;

/// Why a call on a directory of a volume was refused or ended: errors 214, 215, 216 and 218, or a
/// fault of the file calls.
#[derive(Clone, Copy, Debug, PartialEq, Eq, Error)]
pub enum DirError {
    #[error("file not accessible")]
    NotAllowed,
    #[error("bad path name")]
    BadPath,
    #[error("path name not found")]
    NotFound,
    #[error("file already exists")]
    Exists,
    #[error("{0}")]
    File(FileFault),
}

impl DirError {
    /// The number of the error that a call with this result answers: E$FNA, E$BPNam, E$PNNF, E$CEF,
    /// or that of the file call (System Programmer's Manual, error codes).
    pub fn number(&self) -> u8
        ensures { result ≡ directory_error self.now }
    {
        match self {
            DirError::NotAllowed => E_FNA,
            DirError::BadPath => E_BPNAM,
            DirError::NotFound => E_PNNF,
            DirError::Exists => E_CEF,
            DirError::File(fault) => fault.number(),
        }
    }
}

impl From<FileFault> for DirError {
    ghost use Rattle.rbf_walk.specs.declared.error.DirError.TheVariants.{File};

    ghost from_gives = { λ fault error. error ≡ File fault };

    fn from(fault: FileFault) -> DirError {
        DirError::File(fault)
    }
}
