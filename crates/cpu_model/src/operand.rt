use os9_base::registers::Regs;

/// An address, and the registers after it is formed: indexed addressing may step one.
#[derive(Clone, Copy, Debug, PartialEq, Eq)]
pub struct Place {
    pub at: u16,
    pub regs: Regs,
}

/// A byte that an instruction works on, and the registers after its address is formed.
#[derive(Clone, Copy, Debug, PartialEq, Eq)]
pub struct ByteOperand {
    pub value: u8,
    pub regs: Regs,
}

/// A word that an instruction works on, and the registers after its address is formed.
#[derive(Clone, Copy, Debug, PartialEq, Eq)]
pub struct WordOperand {
    pub value: u16,
    pub regs: Regs,
}
