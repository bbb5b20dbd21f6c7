use thiserror::Error;

/// Why a text was not read.
#[derive(Clone, Copy, Debug, PartialEq, Eq, Error)]
pub enum LineFault {
    /// The line of this number, from 1, is the first that breaks a rule.
    #[error("line {0}")]
    Line(u64),
    /// Out of memory.
    #[error("out of memory")]
    OutOfMemory,
}
