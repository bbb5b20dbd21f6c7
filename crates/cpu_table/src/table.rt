ghost use Rattle.std.specs.Prelude.{◌≡◌};
ghost use Rattle.cpu_model.specs.Table as model;

use crate::base_page::BASE_PAGE;
use crate::eleven_page::ELEVEN_PAGE;
use crate::postbytes::POSTBYTES;
use crate::ten_page::TEN_PAGE;
use cpu_model::indexing::Indexing;
use cpu_model::instruction::Page;
use cpu_model::rows::Row;

/// The row of an opcode of a page, or None if the opcode is not documented.
#[inline(always)]
pub fn row(page: Page, opcode: u8) -> Option<Row>
    ensures { result ≡ model.row page opcode }
{
    let high = (opcode >> 4) as usize;
    let low = (opcode & 0x0F) as usize;
    match page {
        Page::Base => BASE_PAGE[opcode as usize],
        Page::Ten => TEN_PAGE[high][low],
        Page::Eleven => ELEVEN_PAGE[high][low],
    }
}

/// The meaning of a postbyte of indexed addressing, or None if it is not documented.
#[inline(always)]
pub fn postbyte(post: u8) -> Option<Indexing>
    ensures { result ≡ model.postbyte post }
{
    POSTBYTES[post as usize]
}
