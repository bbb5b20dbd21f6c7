use thiserror::Error;

/// The part of the opcode map that holds an opcode: no prefix, `10` or `11`.
#[derive(Clone, Copy, Debug, PartialEq, Eq)]
pub enum Page {
    Base,
    Ten,
    Eleven,
}

/// The operand bytes after an opcode and its postbyte; a word has its high byte first.
#[derive(Clone, Copy, Debug, PartialEq, Eq)]
pub enum Tail {
    Empty,
    Byte(u8),
    Word(u16),
}

/// An instruction by its parts: `post` is the postbyte of an indexed form, and None in every
/// other form.
#[derive(Clone, Copy, Debug, PartialEq, Eq)]
pub struct Instr {
    pub page: Page,
    pub opcode: u8,
    pub post: Option<u8>,
    pub tail: Tail,
}

/// Why bytes are not an instruction.
#[derive(Clone, Copy, Debug, PartialEq, Eq, Error)]
pub enum DecodeFault {
    /// No documented instruction has this spelling.
    #[error("no documented instruction")]
    NotDocumented,
    /// The bytes are the beginning of a documented instruction.
    #[error("the bytes end inside an instruction")]
    Short,
}
