use os9_base::registers::TimePacket;

/// Ticks in a second (this project's own).
pub const TICKS_PER_SECOND: u32 = 60;

/// The number of bytes of the packet of F$Time and F$STime (System Programmer's Manual, F$Time).
pub const PACKET_BYTES: usize = 6;

/// The clock of the machine: the time to which it was set, and when. The time now is that time and
/// one second for every 60 ticks since then.
#[derive(Clone, Copy, Debug, PartialEq, Eq)]
pub struct Clock {
    /// The time to which the clock was set.
    pub from: TimePacket,
    /// The tick in which it was set.
    pub since: u32,
}
