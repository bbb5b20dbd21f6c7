//! The limits of the machine (this project's own, unless a manual is named).

/// Bytes in a block of memory, and in a slot of a map (Level Two manual, "Memory management").
pub const BLOCK_BYTES: u16 = 8192;
/// Slots of a map.
pub const MAP_SLOTS: u8 = 8;
/// The fewest blocks of a machine.
pub const FEWEST_BLOCKS: u16 = 8;
/// The most blocks of a machine.
pub const MOST_BLOCKS: u16 = 256;
/// The most bytes of a group of modules, and of a data area: seven slots.
pub const MOST_GROUP_BYTES: u16 = 57_344;
/// Entries of the module directory.
pub const MODULE_ENTRIES: u8 = 64;
/// Places for process records, by number from 0.
pub const PROCESS_PLACES: u8 = 33;
/// The tick at which no slice begins any more.
pub const LAST_TICK: u32 = 4_294_000_000;
/// The most instructions of a slice.
pub const MOST_INSTRUCTIONS: u32 = 1_000_000;
/// The most slices of a run.
pub const MOST_SLICES: u32 = 1_000_000;
