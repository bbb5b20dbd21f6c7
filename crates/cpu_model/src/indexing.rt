use crate::rows::IndexRegister;

/// How an indexed address is formed (MC6809 programming manual, "Indexed addressing").
#[derive(Clone, Copy, Debug, PartialEq, Eq)]
pub enum Form {
    /// `n,R` with the signed five bits of the postbyte itself.
    Offset5,
    /// `,R+`
    Increment1,
    /// `,R++`
    Increment2,
    /// `,-R`
    Decrement1,
    /// `,--R`
    Decrement2,
    /// `,R`
    NoOffset,
    /// `B,R`
    OffsetB,
    /// `A,R`
    OffsetA,
    /// `n,R` with a signed byte after the postbyte.
    Offset8,
    /// `n,R` with a word after the postbyte.
    Offset16,
    /// `D,R`
    OffsetD,
    /// `n,PCR` with a signed byte after the postbyte.
    FromPc8,
    /// `n,PCR` with a word after the postbyte.
    FromPc16,
    /// `[n]`: the address after the postbyte.
    Absolute,
}

/// What a postbyte means: the form, the register that it names, and whether the address found is
/// that of a pointer to the operand.
#[derive(Clone, Copy, Debug, PartialEq, Eq)]
pub struct Indexing(pub Form, pub IndexRegister, pub bool);
