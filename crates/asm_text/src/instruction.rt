ghost use Rattle.std.specs.Prelude.{◌≡◌, Some, IfSome};
ghost use Rattle.std.specs.List.{list_all};
ghost use Rattle.cpu_model.specs.declared.instruction.Instr.{Instr as InstrOf};
ghost use Rattle.cpu_table.specs.Spelling.{IsPlainInstr};
ghost use Rattle.asm_model.specs.Characters.{is_line_byte};
ghost use Rattle.asm_model.specs.Instructions as model;
ghost use Rattle.asm_model.specs.Instructions.{instr_of};
ghost use Rattle.asm_model.specs.Laws.{InstructionFits};
ghost use Rattle.asm_model.specs.Print.{printed};
ghost use Rattle.asm_text.specs.Views.{shape_as};

use crate::Numbers;
use crate::shape::{Shape, shape_length, shape_of};
use crate::tail::tail_with;
use cpu_model::instruction::Instr;
use text_values::{behind_word, first_word, without_spaces};

// Are all bytes from a space to `~`?
fn are_line_bytes(line: &[u8]) -> bool
    ensures { result ≡ list_all is_line_byte line.now }
{
    line.iter().all(|c| 32 <= *c && *c <= 126)
}

// The operand: it follows the word and spaces, and ends before the next space.
fn operand_text(line: &[u8]) -> &[u8]
    ensures { result.now ≡ model.operand_text line.now }
{
    first_word(without_spaces(behind_word(line)))
}

// The instruction at an offset, with numbers alone in its expression.
fn shape_instr(at: u16, shape: &Shape<'_>) -> Option<Instr>
    ensures { result ≡ model.shape_instr at (shape_as shape.now) }
{
    let next = u128::from(at) + u128::from(shape_length(shape));
    let operand = shape.operand;
    let tail = tail_with(operand.wanted, next, operand.expression, &Numbers)?;
    Some(Instr {
        page: shape.page,
        opcode: shape.opcode,
        post: operand.post,
        tail,
    })
}

// The instruction of a line's word and operand.
fn worded_instr(line: &[u8], at: u16) -> Option<Instr>
    ensures { result ≡ model.worded_instr line.now at }
{
    let shape = shape_of(first_word(line), operand_text(line))?;
    shape_instr(at, &shape)
}

// The instruction of a line, if its bytes are from a space to `~`.
fn read_line(line: &[u8], at: u16) -> Option<Instr>
    ensures { result ≡ instr_of line.now at }
{
    if are_line_bytes(line) {
        worded_instr(line, at)
    } else {
        None
    }
}

/// The instruction of a line at an offset in its module or area, with numbers alone in its
/// expression: a word of the programming manual's appendix A in any case of letters, spaces, an
/// operand, and optionally a space and a comment.
///
/// None if the line is not an instruction, if a value is out of its range, or if a byte is not from
/// a space to `~`.
pub fn read_instr(line: &[u8], at: u16) -> Option<Instr>
    ensures value { result ≡ instr_of line.now at }
    // The printed text of an instruction is read as that instruction.
    ensures read_again { (i : InstrOf) → IsPlainInstr i → InstructionFits i → line.now
        ≡ printed i at → result ≡ Some i }
    ensures plain { IfSome result IsPlainInstr }
{
    read_line(line, at)
}
