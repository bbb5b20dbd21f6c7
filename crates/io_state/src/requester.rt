//! The process that requests a service of the kernel.

use os9_base::registers::{Pid, Regs, TimePacket};

/// Who requests a service of the kernel (System Programmer's Manual, "Service requests").
#[derive(Clone, Copy, Debug, PartialEq, Eq)]
pub struct Requester {
    /// The process that requests.
    pub p: Pid,
    /// Its registers, with which it made the call.
    pub regs: Regs,
    /// The time of the clock at this attempt, if the call may set a date (`sets_date` of
    /// `call_dispatch`), and any time for another call.
    pub time: TimePacket,
}
