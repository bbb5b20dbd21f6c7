use thiserror::Error;

/// The most links of a module.
pub const MOST_LINKS: u16 = 65_535;

/// Why a change of memory is refused (Level Two manual, "Memory management").
#[derive(Clone, Copy, Debug, PartialEq, Eq, Error)]
pub enum MemoryFault {
    /// The map has too few free slots, or the module has all the links that it can have: error 207.
    #[error("process memory full")]
    MemFull,
    /// The machine has too few free blocks: error 237.
    #[error("no free memory")]
    NoRam,
}
