//! Sizes of programs that are started.

ghost use Rattle.std.specs.Prelude.{◌≡◌, ◌≤◌};
ghost use Rattle.proc_model.specs.Program as model;

/// Bytes in a page (Level Two manual, "Memory management").
pub const PAGE_BYTES: u16 = 256;
/// Pages in a block.
pub const BLOCK_PAGES: u16 = 32;
/// The most pages of a data area: those of seven slots.
pub const MOST_PAGES: u16 = 224;

/// The number of blocks for this number of pages.
pub fn blocks_of_pages(pages: u16) -> u8
    requires { pages ≤ MOST_PAGES }
    ensures { result ≡ model.blocks_of_pages pages }
{
    pages.div_ceil(BLOCK_PAGES) as u8
}
