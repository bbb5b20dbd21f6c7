/// An eight-bit accumulator.
#[derive(Clone, Copy, Debug, PartialEq, Eq)]
pub enum Accumulator {
    A,
    B,
}

/// A register of sixteen bits, as load, store and compare instructions name it. D has A as its
/// high byte and B as its low byte.
#[derive(Clone, Copy, Debug, PartialEq, Eq)]
pub enum WordRegister {
    D,
    X,
    Y,
    U,
    S,
}

/// A register that an address can be counted from, and that LEA can load.
#[derive(Clone, Copy, Debug, PartialEq, Eq)]
pub enum IndexRegister {
    X,
    Y,
    U,
    S,
}

/// A register as EXG, TFR, pushes and pulls name it.
#[derive(Clone, Copy, Debug, PartialEq, Eq)]
pub enum Register {
    D,
    X,
    Y,
    U,
    S,
    Pc,
    A,
    B,
    Cc,
    Dp,
}

/// The hardware stack, whose pointer is S, or the user stack, whose pointer is U.
#[derive(Clone, Copy, Debug, PartialEq, Eq)]
pub enum Stack {
    System,
    User,
}

/// The instructions on one byte, of memory or of an accumulator.
#[derive(Clone, Copy, Debug, PartialEq, Eq)]
pub enum Unary {
    Neg,
    Com,
    Lsr,
    Ror,
    Asr,
    Asl,
    Rol,
    Dec,
    Inc,
    Tst,
    Clr,
}

/// The instructions on an accumulator and a byte.
#[derive(Clone, Copy, Debug, PartialEq, Eq)]
pub enum Binary {
    Sub,
    Cmp,
    Sbc,
    And,
    Bit,
    Ld,
    Eor,
    Adc,
    Or,
    Add,
}

/// The instructions on a register of sixteen bits and a word.
#[derive(Clone, Copy, Debug, PartialEq, Eq)]
pub enum WordBinary {
    Sub,
    Cmp,
    Add,
    Ld,
}

/// The conditions of branches, each named by the last two letters of its mnemonic in words.
#[derive(Clone, Copy, Debug, PartialEq, Eq)]
pub enum Condition {
    Always,
    Never,
    Higher,
    LowerOrSame,
    CarryClear,
    CarrySet,
    NotEqual,
    Equal,
    OverflowClear,
    OverflowSet,
    Plus,
    Minus,
    GreaterOrEqual,
    Less,
    Greater,
    LessOrEqual,
}

/// What an instruction does, by classes; the names are the manual's mnemonics.
#[derive(Clone, Copy, Debug, PartialEq, Eq)]
pub enum Operation {
    /// NEG to CLR on a byte of memory.
    Unary(Unary),
    /// NEGA to CLRB.
    UnaryOn(Unary, Accumulator),
    /// SUBA to ADDB, and LDA and LDB.
    Binary(Binary, Accumulator),
    /// SUBD, ADDD, CMPD to CMPS, and LDD to LDS.
    Word(WordBinary, WordRegister),
    /// STA and STB.
    Store(Accumulator),
    /// STD to STS.
    StoreWord(WordRegister),
    Jmp,
    Jsr,
    /// BRA to BLE, and LBRA to LBLE.
    Branch(Condition),
    /// BSR and LBSR.
    Bsr,
    /// LEAX to LEAU.
    Lea(IndexRegister),
    /// PSHS and PSHU.
    Psh(Stack),
    /// PULS and PULU.
    Pul(Stack),
    Exg,
    Tfr,
    Orcc,
    Andcc,
    Abx,
    Daa,
    Mul,
    Sex,
    Nop,
    Rts,
    Rti,
    Swi,
    Swi2,
    Swi3,
    Sync,
    Cwai,
}

/// The place of an instruction's operand (MC6809 programming manual, "Addressing modes").
#[derive(Clone, Copy, Debug, PartialEq, Eq)]
pub enum Mode {
    /// No bytes after the opcode.
    Inherent,
    /// The byte after the opcode.
    Immediate8,
    /// The word after the opcode.
    Immediate16,
    /// At the address whose high byte is DP and whose low byte follows the opcode.
    Direct,
    /// At the address given by a postbyte and up to two more bytes.
    Indexed,
    /// At the address that follows the opcode.
    Extended,
    /// Counted from the next instruction, by a signed byte.
    Relative8,
    /// Counted from the next instruction, by a word.
    Relative16,
    /// Two registers, by the byte after the opcode.
    Pair,
}

/// A row of the opcode map: what the instruction does and the place of its operand.
#[derive(Clone, Copy, Debug, PartialEq, Eq)]
pub struct Row(pub Operation, pub Mode);
