/// The use of the value of an operand's expression.
#[derive(Clone, Copy, Debug, PartialEq, Eq)]
pub enum Field {
    /// A byte, from -128 to 255.
    Byte,
    /// A word, from -32,768 to 65,535.
    Word,
    /// The low byte of a direct address, from 0 to 255.
    Direct,
    /// An offset from a register, from -128 to 127.
    Offset8,
    /// An offset from a register, as a word modulo 65,536.
    Offset16,
    /// A target, as its distance from the next instruction in a byte.
    Target8,
    /// A target, as its distance from the next instruction in a word.
    Target16,
}

/// The bytes that follow the opcode and the postbyte.
#[derive(Clone, Copy, Debug, PartialEq, Eq)]
pub enum Wanted {
    /// None.
    Nothing,
    /// This byte.
    Fixed(u8),
    /// The value of the operand's expression.
    Value(Field),
}

/// The kind of an operand, by its characters.
#[derive(Clone, Copy, Debug, PartialEq, Eq)]
pub enum Mark {
    /// `#`
    Immediate,
    /// A bracket or a comma.
    Indexed,
    /// `<`
    Direct,
    /// None of these.
    Address,
}

/// The width that the mark of an indexed operand's offset asks for.
#[derive(Clone, Copy, Debug, PartialEq, Eq)]
pub enum Width {
    /// `<`: eight bits.
    Narrow,
    /// `>`: sixteen bits.
    Wide,
    /// No mark.
    Unmarked,
}

/// The size of an offset from an index register.
#[derive(Clone, Copy, Debug, PartialEq, Eq)]
pub enum Size {
    /// Five bits of the postbyte, with this value.
    Five(i32),
    /// A byte.
    Eight,
    /// A word.
    Sixteen,
}
