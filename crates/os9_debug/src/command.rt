/// Bytes of memory, or instructions, from an address on.
#[derive(Clone, Copy, Debug, PartialEq, Eq)]
pub struct Span {
    /// The first address.
    pub at: u16,
    /// The number of them: 1 to 256.
    pub count: u16,
}

/// A command of the debugger.
#[derive(Clone, Copy, Debug, PartialEq, Eq)]
pub enum Command {
    /// Goes to the state after this number of events.
    To(u64),
    /// Goes back by this number of events: 1 to 256.
    Back(u16),
    /// Prints the registers.
    Regs,
    /// Prints these bytes of memory.
    Mem(Span),
    /// Prints these instructions.
    Dis(Span),
}
