//! The status codes of I$GetStt (System Programmer's Manual, "I$GetStt"). The bytes of SS.Opt are
//! this project's own.

/// SS.Opt: the options of the path.
pub const SS_OPT: u8 = 0x00;

/// SS.Ready: the number of bytes that may be read at once.
pub const SS_READY: u8 = 0x01;

/// SS.EOF: whether the path is at its end.
pub const SS_EOF: u8 = 0x06;

/// The number of bytes that SS.Opt stores.
pub const OPTION_BYTES: usize = 32;
