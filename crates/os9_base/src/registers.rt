/// A process number, from 2 to 32; 0 means no process (a process's parent may be 0).
#[derive(Clone, Copy, Debug, PartialEq, Eq)]
pub struct Pid(pub u8);

/// The registers of the MC6809 (programming manual, "Programming model").
///
/// `cc` holds E F H I N Z V C from bit 7 to bit 0. D is A as the high byte and B as the low one.
#[derive(Clone, Copy, Debug, PartialEq, Eq)]
pub struct Regs {
    pub a: u8,
    pub b: u8,
    pub dp: u8,
    pub cc: u8,
    pub x: u16,
    pub y: u16,
    pub u: u16,
    pub s: u16,
    pub pc: u16,
}

/// The six bytes that F$Time and F$STime pass (Level Two manual, F$Time): the year less 1900, the
/// month and the day from 1, the hour, the minute and the second.
#[derive(Clone, Copy, Debug, PartialEq, Eq)]
pub struct TimePacket {
    pub year: u8,
    pub month: u8,
    pub day: u8,
    pub hour: u8,
    pub minute: u8,
    pub second: u8,
}
