/// How a step of the processor ended.
#[derive(Clone, Copy, Debug, PartialEq, Eq)]
pub enum Stop {
    /// The instruction was executed.
    Next,
    /// A system call (SWI2) with this code byte; PC is past it.
    Call(u8),
    /// The program cannot go on: status 227 at SYNC, CWAI, SWI and SWI3, which no program may
    /// execute, and 228 at an undocumented instruction or at an access to an address that is not
    /// named.
    Abort(u8),
}
