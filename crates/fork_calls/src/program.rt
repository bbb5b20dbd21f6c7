ghost use Rattle.std.specs.Prelude.{◌*◌, ◌≤◌};

use proc_model::module::ModId;

/// A program that a call names (System Programmer's Manual, F$Fork). The bytes of its parameters
/// are at the front of the buffer of the processes.
#[derive(Clone, Copy, Debug)]
pub struct NamedProgram {
    /// Its module.
    pub id: ModId,
    /// The pages of 256 bytes of its data area.
    pub pages: u16,
    /// The number of bytes of its parameters.
    pub parameters: u16,
    /// The number of characters of its name, or of the path list of its file.
    pub count: u32,
    ghost some: { 1 ≤ pages },
    ghost most: { pages ≤ 256 },
    ghost fits: { parameters ≤ 256 * pages },
}
