use os9_base::name::Name;
use thiserror::Error;

/// The rules that a module can break, in the order of their tests.
#[derive(Clone, Copy, Debug, PartialEq, Eq, Error)]
pub enum ModuleFault {
    /// The header rule, error 205: sync bytes, size, name and execution offset.
    #[error("bad module header")]
    BadSync,
    /// The parity rule, error 236.
    #[error("bad header parity")]
    BadParity,
    /// The CRC rule, error 232.
    #[error("bad module CRC")]
    BadCrc,
}

/// The number of an entry of the module directory, from 0 to 63.
#[derive(Clone, Copy, Debug, PartialEq, Eq)]
pub struct ModId(pub u8);

/// What a module's header says (System Programmer's Manual, "Memory module structure").
#[derive(Clone, Copy, Debug)]
pub struct ModuleInfo {
    pub name: Name,
    /// The place of the module's first byte in its file, and so in the group that holds the file.
    pub at: u32,
    /// The whole size in bytes, CRC included.
    pub size: u16,
    /// The type in the high half and the language in the low half.
    pub kind: u8,
    /// The attributes in the high half and the revision in the low half.
    pub attr: u8,
    /// Where the program begins, from the module's first byte on; 0 for a type other than 1.
    pub entry: u16,
    /// The number of bytes of data memory that the program needs; 0 for a type other than 1.
    pub storage: u16,
}

/// The next item in a file of modules.
#[derive(Clone, Copy, Debug)]
pub enum ModuleStep {
    /// A module.
    Module(ModuleInfo),
    /// Only zero bytes are left.
    End,
    /// Refused bytes: where they begin, and the first rule that they break.
    Fault(u32, ModuleFault),
}
