/// The flags of the condition code register that arithmetic sets (MC6809 programming manual,
/// "Condition code register"): half carry, negative, zero, overflow and carry.
#[derive(Clone, Copy, Debug, PartialEq, Eq)]
pub struct Flags {
    pub h: bool,
    pub n: bool,
    pub z: bool,
    pub v: bool,
    pub c: bool,
}
