/// A statement that is not an instruction of the processor (this project's own).
#[derive(Clone, Copy, Debug, PartialEq, Eq)]
pub enum Directive {
    /// `mod`: the header and the name of the module.
    Mod,
    /// `emod`: its CRC.
    Emod,
    /// `equ`: the value of a label.
    Equ,
    /// `fcb`: bytes.
    Fcb,
    /// `fdb`: words, high bytes first.
    Fdb,
    /// `fcc`: characters.
    Fcc,
    /// `fcs`: characters, the last with bit 7.
    Fcs,
    /// `os9`: a call of OS-9.
    Os9,
}
