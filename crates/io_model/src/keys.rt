//! The keys and bytes of line editing, by their names in the Level Two manual (SCF, path options).

/// PD.BSP: erases the last byte of the line. PD.BSE, the byte that moves the cursor back.
pub const BACKSPACE: u8 = 0x08;

/// PD.DEL: erases every byte of the line.
pub const DELETE_LINE: u8 = 0x18;

/// PD.RPR: shows the line again.
pub const REPRINT: u8 = 0x04;

/// PD.DUP: replaces the line by the last finished line.
pub const DUPLICATE: u8 = 0x01;

/// PD.EOR: ends the line.
pub const RETURN: u8 = 0x0D;

/// PD.EOF: the end of the file, if the line is empty.
pub const END_OF_FILE: u8 = 0x1B;

/// PD.INT: sends signal 3 to the last user.
pub const INTERRUPT: u8 = 0x03;

/// PD.QUT: sends signal 2 to the last user.
pub const QUIT: u8 = 0x05;

/// PD.OVF: put if a key is dropped.
pub const BELL: u8 = 0x07;

/// The space that covers an erased byte.
pub const SPACE: u8 = 0x20;

/// Put after a carriage return.
pub const LINE_FEED: u8 = 0x0A;

/// Put in place of a control character (Level Two manual, SCF).
pub const DOT: u8 = 0x2E;

/// The control character above the printable ones.
pub const DELETE: u8 = 0x7F;
