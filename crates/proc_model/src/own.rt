use crate::module::ModId;

/// The data of a process other than its record and its memory.
#[derive(Clone, Copy, Debug)]
pub struct Own {
    /// The size of its data area in bytes.
    pub size: u16,
    /// Its primary module: the one that it runs.
    pub primary: Option<ModId>,
    /// The number of its links to the group that begins at each slot.
    pub links: [u16; 8],
    /// The code of its unfinished call.
    pub call: Option<u8>,
    /// The tick that ends its sleep.
    pub until: Option<u32>,
    /// Has a wake for its sleep arrived?
    pub woken: bool,
}
