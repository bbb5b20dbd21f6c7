//! What is kept of a session: its keys and its slices.

/// How many instructions each slice of a session has.
///
/// A slice text has at most 1,000,000 slices and 10,000,000 instructions, and a script no tick
/// after 1,000,000: with 10 a session may use all of each before it is too long to be recorded. A
/// slice whose process waits counts whole in a slice text, so that a shorter one loses less.
pub const SLICE: u32 = 10;

/// Keys that were typed together: those of a line, or of a part of a long one. There is at least
/// one.
#[derive(Drop)]
pub struct TypedPart {
    /// The tick that came then, in which they are due.
    pub tick: u32,
    /// The bytes before the last.
    pub bytes: Vec<u8>,
    /// The last byte: Return if the line ends here.
    pub last: u8,
}

/// What is kept of a session: its machine is run over these slices, with the keys of these parts.
#[derive(Drop)]
pub struct Typed {
    /// The parts of lines that were typed, in their order.
    pub parts: Vec<TypedPart>,
    /// How many slices were begun, each of `SLICE` instructions.
    pub slices: u32,
}
