//! Why a machine does not start.

/// Why the volumes were not mounted or the directories were not found.
#[derive(Clone, Copy, Debug, PartialEq, Eq)]
pub enum StartFault {
    OutOfMemory,
    /// A call of the drive of the first number failed, with the error of the second number (System
    /// Programmer's Manual, error codes).
    Drive(u8, u8),
}
