//! The status codes of files (System Programmer's Manual, "I$GetStt" and "I$SetStt"; the argument
//! of SS.Attr is this project's own), and the bits of modes and attributes that only files have.

/// SS.Size: the size of a file.
pub const SS_SIZE: u8 = 0x02;

/// SS.Pos: the position of a path.
pub const SS_POS: u8 = 0x05;

/// SS.FD: the first bytes of a descriptor.
pub const SS_FD: u8 = 0x0F;

/// SS.Ticks: how many ticks the requests of a path wait for a record.
pub const SS_TICKS: u8 = 0x10;

/// SS.Lock: a lock on bytes of a file.
pub const SS_LOCK: u8 = 0x11;

/// SS.Attr: the attributes of a file.
pub const SS_ATTR: u8 = 0x1C;

/// How many bytes SS.Lock is asked for if it locks the whole file.
pub const WHOLE_FILE: u32 = 0xFFFF_FFFF;

/// The most bytes of a descriptor that SS.FD stores.
pub const DESCRIPTOR_BYTES: u8 = 16;

/// The bit of a mode and of attributes that says a directory.
pub const DIRECTORY: u8 = 0x80;

/// The bit of a mode and of attributes that says a single user.
pub const SINGLE_USER: u8 = 0x40;
