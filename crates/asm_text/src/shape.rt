ghost use Rattle.std.specs.Prelude.{◌≡◌, ◌≤◌, length, option_map};
ghost use Rattle.cpu_table.specs.Spelling.{prefix};
ghost use Rattle.asm_model.specs.Instructions as model;
ghost use Rattle.asm_text.specs.Views.{shape_as};

use crate::entry::{entry_of, mark_of};
use crate::operand::{Operand, row_operand};
use asm_model::operand::{Field, Wanted};
use cpu_model::instruction::Page;

/// An instruction without the value of its expression.
#[derive(Clone, Copy, Debug)]
pub struct Shape<'a> {
    /// The page of its opcode.
    pub page: Page,
    /// Its opcode.
    pub opcode: u8,
    /// Its operand.
    pub operand: Operand<'a>,
}

/// The instruction of a word and an operand's text, if there is one: the row of the opcode map
/// with the word, in any case of letters, and a mode with such an operand (programming manual,
/// appendix A).
pub fn shape_of<'a>(word: &[u8], text: &'a [u8]) -> Option<Shape<'a>>
    ensures { option_map shape_as result ≡ model.shape_of word.now text.now }
{
    let found = entry_of(word, mark_of(text))?;
    let operand = row_operand(found.row, text)?;
    Some(Shape {
        page: found.page,
        opcode: found.opcode,
        operand,
    })
}

// The number of bytes of a field's value.
fn field_length(field: Field) -> u8
    ensures length { result ≡ model.field_length field }
    ensures most { result ≤ 2 }
{
    match field {
        Field::Byte | Field::Direct | Field::Offset8 | Field::Target8 => 1,
        Field::Word | Field::Offset16 | Field::Target16 => 2,
    }
}

// The number of bytes that follow the opcode and the postbyte.
fn wanted_length(wanted: Wanted) -> u8
    ensures length { result ≡ model.wanted_length wanted }
    ensures most { result ≤ 2 }
{
    match wanted {
        Wanted::Nothing => 0,
        Wanted::Fixed(_) => 1,
        Wanted::Value(field) => field_length(field),
    }
}

// The number of bytes of a page's prefix.
fn prefix_length(page: Page) -> u8
    ensures length { result ≡ length (prefix page) }
    ensures most { result ≤ 1 }
{
    match page {
        Page::Base => 0,
        Page::Ten | Page::Eleven => 1,
    }
}

// The number of bytes of a postbyte.
fn post_length(post: Option<u8>) -> u8
    ensures length { result ≡ model.post_length post }
    ensures most { result ≤ 1 }
{
    match post {
        None => 0,
        Some(_) => 1,
    }
}

/// The number of bytes of an instruction, at most 5. It does not depend on the expression's value.
pub fn shape_length(shape: &Shape<'_>) -> u8
    ensures length { result ≡ model.shape_length (shape_as shape.now) }
    ensures most { result ≤ 5 }
{
    let operand = shape.operand;
    prefix_length(shape.page) + 1 + (post_length(operand.post) + wanted_length(operand.wanted))
}
