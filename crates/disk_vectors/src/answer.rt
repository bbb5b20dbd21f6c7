use os9_base::errors::{E_BPNAM, E_CEF, E_FNA, E_FULL, E_PNNF, E_SLF};
use rbf_access::FileFault;
use rbf_sector::Fd;
use rbf_walk::DirError;
use std::alloc::AllocError;
use std::fmt;
use thiserror::Error;

/// The answer of a successful call.
#[derive(Clone, Copy, Debug, PartialEq, Eq)]
pub(crate) enum Done {
    Plainly,
    Free(u32),
    Walked(Fd),
    Permitted(bool),
    Read { count: u32, crc: u32 },
}

impl fmt::Display for Done {
    fn fmt<W: fmt::Write>(&self, f: &mut fmt::Formatter<W>) -> fmt::Result {
        match self {
            Done::Plainly => write!(f, "ok"),
            Done::Free(clusters) => write!(f, "ok {clusters}"),
            Done::Walked(file) => write!(f, "ok {}", Described(file)),
            Done::Permitted(true) => write!(f, "ok yes"),
            Done::Permitted(false) => write!(f, "ok no"),
            Done::Read { count, crc } => write!(f, "ok {count} {crc:06x}"),
        }
    }
}

/// The fields of a descriptor, except for the segments.
#[derive(Clone, Copy)]
pub(crate) struct Described<'a>(pub(crate) &'a Fd);

impl fmt::Display for Described<'_> {
    fn fmt<W: fmt::Write>(&self, f: &mut fmt::Formatter<W>) -> fmt::Result {
        let file = self.0;
        write!(
            f,
            "{:02x} {} {} {} {} {}",
            file.attr,
            file.owner,
            HexBytes(&file.modified),
            HexBytes(&file.created),
            file.links,
            file.size
        )
    }
}

/// Bytes as hexadecimal digits.
#[derive(Clone, Copy)]
pub(crate) struct HexBytes<'a>(pub(crate) &'a [u8]);

impl fmt::Display for HexBytes<'_> {
    fn fmt<W: fmt::Write>(&self, f: &mut fmt::Formatter<W>) -> fmt::Result {
        for byte in self.0 {
            write!(f, "{byte:02x}")?;
        }
        Ok(())
    }
}

/// Why a call was not done.
#[derive(Clone, Copy, Debug, PartialEq, Eq, Error)]
pub(crate) enum Undone {
    #[error("error {0}")]
    Refused(u8),
    #[error("device {0}")]
    Device(u8),
    /// A call on the bytes of a file was asked for on a directory.
    #[error("directory")]
    Directory,
    #[error("no memory")]
    OutOfMemory,
}

impl From<AllocError> for Undone {
    fn from(_error: AllocError) -> Undone {
        Undone::OutOfMemory
    }
}

impl From<FileFault> for Undone {
    fn from(fault: FileFault) -> Undone {
        match fault {
            FileFault::Device(number) => Undone::Device(number),
            FileFault::NoCluster => Undone::Refused(E_FULL),
            FileFault::TooManyRuns => Undone::Refused(E_SLF),
        }
    }
}

impl From<DirError> for Undone {
    fn from(error: DirError) -> Undone {
        match error {
            DirError::NotAllowed => Undone::Refused(E_FNA),
            DirError::BadPath => Undone::Refused(E_BPNAM),
            DirError::NotFound => Undone::Refused(E_PNNF),
            DirError::Exists => Undone::Refused(E_CEF),
            DirError::File(fault) => Undone::from(fault),
        }
    }
}
