ghost use Rattle.std.specs.Prelude.{◌≤◌};

/// The number of a block of memory of 8,192 bytes.
#[derive(Clone, Copy, Debug, PartialEq, Eq)]
pub struct BlockId(pub u16);

/// The consecutive blocks that hold one file of modules: the first `len` of `blocks`, in order.
///
/// The places from `len` on have no meaning.
#[derive(Clone, Copy, Debug)]
pub struct Group {
    pub blocks: [BlockId; 7],
    pub len: u8,
    ghost in_range: { len ≤ 7 },
}
