use os9_base::registers::TimePacket;

/// Bytes that are laid over those of a file: from which place on, and when.
#[derive(Clone, Copy, Debug)]
pub struct NewBytes<'a> {
    pub at: u32,
    pub bytes: &'a [u8],
    pub date: TimePacket,
}
