//! The codes of system calls, as they follow the instruction SWI2 (System Programmer's Manual,
//! "System calls").

/// F$Link: links a module.
pub const F_LINK: u8 = 0x00;
/// F$Load: loads modules from a file.
pub const F_LOAD: u8 = 0x01;
/// F$UnLink: gives up a link to a module.
pub const F_UNLINK: u8 = 0x02;
/// F$Fork: starts a process.
pub const F_FORK: u8 = 0x03;
/// F$Wait: waits for the end of a child.
pub const F_WAIT: u8 = 0x04;
/// F$Chain: starts another program in this process.
pub const F_CHAIN: u8 = 0x05;
/// F$Exit: ends the process.
pub const F_EXIT: u8 = 0x06;
/// F$Mem: sets the size of the data area.
pub const F_MEM: u8 = 0x07;
/// F$Send: sends a signal.
pub const F_SEND: u8 = 0x08;
/// F$Icpt: sets the intercept.
pub const F_ICPT: u8 = 0x09;
/// F$Sleep: sleeps.
pub const F_SLEEP: u8 = 0x0A;
/// F$ID: returns the process number and the user.
pub const F_ID: u8 = 0x0C;
/// F$SPrior: sets a priority.
pub const F_SPRIOR: u8 = 0x0D;
/// F$PErr: writes an error message.
pub const F_PERR: u8 = 0x0F;
/// F$PrsNam: parses a name.
pub const F_PRSNAM: u8 = 0x10;
/// F$CmpNam: compares two names.
pub const F_CMPNAM: u8 = 0x11;
/// F$Time: returns the time.
pub const F_TIME: u8 = 0x15;
/// F$STime: sets the time.
pub const F_STIME: u8 = 0x16;
/// F$CRC: continues a CRC.
pub const F_CRC: u8 = 0x17;
/// F$SUser: sets the user.
pub const F_SUSER: u8 = 0x1C;
/// F$UnLoad: gives up a link to a module by its name.
pub const F_UNLOAD: u8 = 0x1D;
/// I$Dup: gives a path another number.
pub const I_DUP: u8 = 0x82;
/// I$Create: creates a file.
pub const I_CREATE: u8 = 0x83;
/// I$Open: opens a file or device.
pub const I_OPEN: u8 = 0x84;
/// I$MakDir: makes a directory.
pub const I_MAKDIR: u8 = 0x85;
/// I$ChgDir: changes a directory of the process.
pub const I_CHGDIR: u8 = 0x86;
/// I$Delete: deletes a file.
pub const I_DELETE: u8 = 0x87;
/// I$Seek: sets the position of a path.
pub const I_SEEK: u8 = 0x88;
/// I$Read: reads bytes.
pub const I_READ: u8 = 0x89;
/// I$Write: writes bytes.
pub const I_WRITE: u8 = 0x8A;
/// I$ReadLn: reads a line.
pub const I_READLN: u8 = 0x8B;
/// I$WritLn: writes a line.
pub const I_WRITLN: u8 = 0x8C;
/// I$GetStt: returns a status.
pub const I_GETSTT: u8 = 0x8D;
/// I$SetStt: sets a status.
pub const I_SETSTT: u8 = 0x8E;
/// I$Close: closes a path.
pub const I_CLOSE: u8 = 0x8F;
/// I$DeletX: deletes a file of the execution directory.
pub const I_DELETX: u8 = 0x90;
