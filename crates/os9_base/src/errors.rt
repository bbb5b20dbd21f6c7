//! The numbers of errors (System Programmer's Manual, "Error codes"), which a refused call returns
//! in B, and the statuses with which a process is ended.

/// E$PthFul: no path number is left.
pub const E_PTHFUL: u8 = 200;
/// E$BPNum: the number does not name a path.
pub const E_BPNUM: u8 = 201;
/// E$BMode: the path or call lacks the mode.
pub const E_BMODE: u8 = 203;
/// E$BMID: the header of a module is bad.
pub const E_BMID: u8 = 205;
/// E$DirFul: the module directory is full.
pub const E_DIRFUL: u8 = 206;
/// E$MemFul: no room is left in the map of the process.
pub const E_MEMFUL: u8 = 207;
/// E$UnkSvc: there is no such call, or no such status code.
pub const E_UNKSVC: u8 = 208;
/// E$BPAddr: an address is not in the memory of the process.
pub const E_BPADDR: u8 = 210;
/// E$EOF: the end of the file.
pub const E_EOF: u8 = 211;
/// E$FNA: the file is not accessible.
pub const E_FNA: u8 = 214;
/// E$BPNam: the path list is bad.
pub const E_BPNAM: u8 = 215;
/// E$PNNF: the path name is not found.
pub const E_PNNF: u8 = 216;
/// E$SLF: the segment list is full.
pub const E_SLF: u8 = 217;
/// E$CEF: the file exists already.
pub const E_CEF: u8 = 218;
/// E$MNF: the module is not found.
pub const E_MNF: u8 = 221;
/// E$IPrcID: there is no such process.
pub const E_IPRCID: u8 = 224;
/// The clock packet is not a date and time (this project's own).
pub const E_BADTIME: u8 = 225;
/// E$NoChld: the process has no children.
pub const E_NOCHLD: u8 = 226;
/// E$ISWI: an illegal software interrupt.
pub const E_ISWI: u8 = 227;
/// E$PrcAbt: the process is aborted.
pub const E_PRCABT: u8 = 228;
/// E$PrcFul: the process table is full.
pub const E_PRCFUL: u8 = 229;
/// E$KwnMod: the module is known.
pub const E_KWNMOD: u8 = 231;
/// E$BMCRC: the CRC of a module is bad.
pub const E_BMCRC: u8 = 232;
/// E$USigP: a signal is pending.
pub const E_USIGP: u8 = 233;
/// E$NEMod: the module is not executable.
pub const E_NEMOD: u8 = 234;
/// E$BNam: the name is bad.
pub const E_BNAM: u8 = 235;
/// E$BMHP: the parity of a module's header is bad.
pub const E_BMHP: u8 = 236;
/// E$NoRAM: no block of memory is free.
pub const E_NORAM: u8 = 237;
/// E$WP: the disk is write-protected.
pub const E_WP: u8 = 242;
/// E$Read: a read of a device failed.
pub const E_READ: u8 = 244;
/// E$Write: a write of a device failed.
pub const E_WRITE: u8 = 245;
/// E$NotRdy: the device is not ready.
pub const E_NOTRDY: u8 = 246;
/// E$Seek: a seek of a device failed.
pub const E_SEEK: u8 = 247;
/// E$Full: the disk is full.
pub const E_FULL: u8 = 248;
/// E$Lock: the record is locked.
pub const E_LOCK: u8 = 252;
/// E$Share: the file is not sharable.
pub const E_SHARE: u8 = 253;
/// E$DeadLk: waiting would be a deadlock.
pub const E_DEADLK: u8 = 254;
