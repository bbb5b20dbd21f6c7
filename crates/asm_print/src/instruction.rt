ghost use Rattle.std.specs.Prelude.{◌≡◌, ◌+◌, ◌≤◌, ◌++◌, length, Some};
ghost use Rattle.arrayvec.specs.ArrayVec.{array_vec_len};
ghost use Rattle.cpu_table.specs.Spelling.{spelling};
ghost use Rattle.asm_model.specs.Characters.{same_word};
ghost use Rattle.asm_model.specs.Mnemonics.{row_word};
ghost use Rattle.asm_model.specs.Print.{printed, printed_row, with_operand};

use crate::digits::add;
use crate::operand::operand;
use crate::words::{long_mark, operation_word};
use arrayvec::ArrayVec;
use cpu_model::instruction::Instr;
use cpu_model::rows::Row;
use cpu_table::{row, spell};
use std::marker::Model;

/// Room for the text of an instruction: a word of 6 bytes, a space and an operand.
const LONGEST: usize = 32;

/// The text of an instruction: at most 24 bytes.
#[derive(Drop)]
pub struct Text {
    bytes: ArrayVec<u8, LONGEST>,
}

impl Model for Text {
    ghost use Rattle.std.specs.Prelude.{ℕ, List};

    ghost Value = { List ℕ };

    ghost view = { λ text. text.bytes.items };
}

impl Text {
    /// The text's bytes.
    pub fn as_bytes(&self) -> &[u8]
        ensures { result.now ≡ self.now }
    {
        self.bytes.as_slice()
    }
}

// Adds the word of a row at the end.
fn add_row_word(out: &mut ArrayVec<u8, LONGEST>, row: Row)
    requires { array_vec_len out.old ≡ 0 }
    ensures text { out.new.items ≡ out.old.items ++ row_word row }
    ensures len { array_vec_len out.new ≤ 6 }
{
    let word = operation_word(row.0);
    add(out, long_mark(row.1));
    add(out, word.stem);
    add(out, word.ending);
}

/// Is the word that of this row of the opcode map, in any case of letters?
pub fn is_word_of(row: Row, word: &[u8]) -> bool
    ensures { result ≡ same_word (row_word row) word.now }
{
    let mut text: ArrayVec<u8, LONGEST> = ArrayVec::new();
    add_row_word(&mut text, row);
    text.as_slice().eq_ignore_ascii_case(word)
}

// Adds a space and the operand at the end, if there is an operand.
fn add_operand(out: &mut ArrayVec<u8, LONGEST>, text: &[u8])
    requires room { array_vec_len out.old + 1 + length text.now ≤ LONGEST }
    ensures { out.new.items ≡ with_operand out.old.items text.now }
{
    match text {
        [] => {}
        [_, ..] => {
            out.push(b' ');
            add(out, text);
        }
    }
}

/// The text of an instruction at an offset in its module or area: its word in upper case and, if
/// it has an operand, one space and the operand (this project's own, in the manner of the usual
/// assemblers of the 6809).
///
/// A number is `$` with two or four digits; a target is printed as its own offset. The text is
/// empty if no bytes decode to the instruction.
#[tactic(auto, unfolding(asm_model::specs::Print::printed))]
pub fn print(i: &Instr, at: u16) -> Text
    ensures { result ≡ printed i.now at }
{
    let mut bytes = ArrayVec::new();
    if let Some(row) = row(i.page, i.opcode) {
        let next = u32::from(at) + u32::from(spell(i).len);
        add_row_word(&mut bytes, row);
        add_operand(&mut bytes, &operand(row, i.post, i.tail, next));
    }
    Text { bytes }
}
