//! The bits of a path's mode (System Programmer's Manual, I$Open), what a mode allows, and the
//! numbers of the standard paths (Level Two manual, "Standard I/O paths").

ghost use Rattle.std.specs.Prelude.{◌≡◌};
ghost use Rattle.io_model.specs.Modes as model;

/// The path may be read.
pub const MODE_READ: u8 = 0x01;

/// The path may be written.
pub const MODE_WRITE: u8 = 0x02;

/// The path may be executed, and so read.
pub const MODE_EXECUTE: u8 = 0x04;

/// The path number of standard error.
pub const STANDARD_ERROR: u8 = 2;

/// May a path of this mode be read?
pub fn can_read(mode: u8) -> bool
    ensures { result ≡ model.can_read mode }
{
    mode & (MODE_READ + MODE_EXECUTE) != 0
}

/// May a path of this mode be written?
pub fn can_write(mode: u8) -> bool
    ensures { result ≡ model.can_write mode }
{
    mode & MODE_WRITE != 0
}
