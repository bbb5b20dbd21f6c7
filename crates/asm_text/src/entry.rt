ghost use Rattle.std.specs.Prelude.{◌≡◌, ◌<◌, ◌&&◌, IfNone, IfSome, Some, true, false, option_map};
ghost use Rattle.cpu_model.specs.Table as model;
ghost use Rattle.asm_model.specs.Operands.{mark_of as mark_of_model, fits as fits_model};
ghost use Rattle.asm_model.specs.Instructions.{entry_of as entry_of_model};
ghost use Rattle.asm_model.proofs.EntryOf.{Matches, NoneOn};
ghost use Rattle.asm_text.specs.Views.{entry_found};
ghost use Rattle.cpu_model.specs.declared.rows.Row.{Row};

use crate::cuts::has_comma;
use asm_model::operand::Mark;
use asm_print::is_word_of;
use cpu_model::instruction::Page;
use cpu_model::rows::{Mode, Operation, Row};
use cpu_table::row;

/// A row of the opcode map, with its page and opcode.
#[derive(Clone, Copy, Debug)]
pub(crate) struct Found {
    pub(crate) page: Page,
    pub(crate) opcode: u8,
    pub(crate) row: Row,
}

/// The mark at the front of an operand.
pub(crate) fn mark_of(text: &[u8]) -> Mark
    ensures { result ≡ mark_of_model text.now }
{
    match text {
        [] => Mark::Address,
        [c, ..] => {
            if *c == b'#' {
                Mark::Immediate
            } else if *c == b'[' || has_comma(text) {
                Mark::Indexed
            } else if *c == b'<' {
                Mark::Direct
            } else {
                Mark::Address
            }
        }
    }
}

// May an operand with this mark be of the row?
fn fits(row: Row, mark: Mark) -> bool
    ensures { result ≡ fits_model row mark }
{
    match (row.0, row.1) {
        (Operation::Psh(_) | Operation::Pul(_), _) => true,
        (_, Mode::Immediate8 | Mode::Immediate16) => mark == Mark::Immediate,
        (_, Mode::Indexed) => mark == Mark::Indexed,
        (_, Mode::Direct) => mark == Mark::Direct,
        (_, Mode::Extended) => mark == Mark::Address,
        _ => true,
    }
}

// The row of an opcode, if it has this word and may have an operand with this mark.
fn entry_at(page: Page, opcode: u8, word: &[u8], mark: Mark) -> Option<Found>
    ensures found { IfSome result (λ f. model.row f.page f.opcode ≡ Some f.row) }
    ensures matches { IfSome result (λ f. Matches f.row word.now mark ≡ true) }
    ensures none { IfNone result ((r : Row) → model.row page opcode ≡ Some r
        → Matches r word.now mark ≡ false) }
{
    let row = row(page, opcode)?;
    if is_word_of(row, word) && fits(row, mark) {
        Some(Found { page, opcode, row })
    } else {
        None
    }
}

// The row of a page that has this word and may have an operand with this mark.
fn entry_on(page: Page, word: &[u8], mark: Mark) -> Option<Found>
    ensures found { IfSome result (λ f. model.row f.page f.opcode ≡ Some f.row) }
    ensures matches { IfSome result (λ f. Matches f.row word.now mark ≡ true) }
    ensures none { IfNone result (NoneOn page word.now mark) }
{
    for opcode in 0..256u16 {
        if let Some(found) = entry_at(page, opcode as u8, word, mark) {
            return Some(found);
        }
    }
    None
}

/// The row that has this word and may have an operand with this mark.
pub(crate) fn entry_of(word: &[u8], mark: Mark) -> Option<Found>
    ensures { option_map entry_found result ≡ entry_of_model word.now mark }
{
    if let Some(found) = entry_on(Page::Base, word, mark) {
        return Some(found);
    }
    if let Some(found) = entry_on(Page::Ten, word, mark) {
        return Some(found);
    }
    entry_on(Page::Eleven, word, mark)
}
