ghost use Rattle.std.specs.Prelude.{◌≡◌, ◌+◌, ◌++◌, ◌∷◌, [], Some, map, None, option_map, IfOk, OnSome, if◌then◌else◌};
ghost use Rattle.std.specs.List.{flat_map, slice_split};
ghost use Rattle.proc_model.specs.UserBytes.{word_bytes};
ghost use Rattle.os9_base.specs.Name.{marked_name};
ghost use Rattle.asm_model.specs.Characters.{is_comma};
ghost use Rattle.asm_model.specs.Placement.{Reached as ReachedOf, action_length};
ghost use Rattle.asm6809.specs.Assembled as model;
ghost use Rattle.asm6809.specs.Assembled.{code_if_filled, placed_at, placed_bytes, placed_from};
ghost use Rattle.asm6809.specs.Pieces.{end_if_filled, line_bytes};
ghost use Rattle.asm6809.specs.Bytes.{action_bytes_in, byte_in, shape_bytes_in, word_in};
ghost use Rattle.asm_lines.specs.Labels.{IsReached};
ghost use Rattle.asm_lines.specs.Lines.{action_said, line_said};
ghost use Rattle.asm_text.specs.Views.{shape_as};

use asm_lines::{Action, Line, Place, Reached, is_filled, offset_behind, value_at};
use asm_text::{Shape, low_byte, low_word, shape_length, tail_with};
use cpu_model::instruction::Instr;
use cpu_table::spell;
use os9_base::call::OutOfMemory;
use std::alloc::{AllocError, Global};

/// The bytes of a call of OS-9 before its number: SWI2.
const SWI2: [u8; 2] = [0x10, 0x3f];

// The low byte of the value of an expression, 0 if it has none.
pub(crate) fn byte_at(place: Place, text: &[u8]) -> u8
    ensures { result ≡ byte_in place.entry.labels.now place.entry.offset text.now }
{
    low_byte(value_at(place, text).unwrap_or(0))
}

// The low word of the value of an expression, 0 if it has none.
pub(crate) fn word_at(place: Place, text: &[u8]) -> u16
    ensures { result ≡ word_in place.entry.labels.now place.entry.offset text.now }
{
    low_word(value_at(place, text).unwrap_or(0))
}

// Adds a byte at the end of these.
fn push_byte(code: &mut Vec<u8>, byte: u8) -> Result<(), AllocError>
    ensures { IfOk result (λ _. code.new.items ≡ code.old.items ++ byte ∷ []) }
{
    code.push(byte)?;
    Ok(())
}

// Adds a word, high byte first, at the end of these bytes.
fn push_word(code: &mut Vec<u8>, word: u16) -> Result<(), AllocError>
    ensures { IfOk result (λ _. code.new.items ≡ code.old.items ++ word_bytes word) }
{
    code.extend_from_slice(&word.to_be_bytes())
}

// Adds the bytes of an instruction at the end of these, if the shape is one.
fn push_shape(
    code: &mut Vec<u8>,
    place: Place,
    offset: u64,
    shape: &Shape,
) -> Result<(), OutOfMemory>
    ensures { IfOk result (λ _. code.new.items ≡ code.old.items
        ++ shape_bytes_in place.entry.labels.now place.entry.offset offset (shape_as shape.now)) }
{
    let next = u128::from(offset) + u128::from(shape_length(shape));
    let operand = shape.operand;
    let Some(tail) = tail_with(operand.wanted, next, operand.expression, &place) else {
        return Ok(());
    };
    let spelled = spell(&Instr {
        page: shape.page,
        opcode: shape.opcode,
        post: operand.post,
        tail,
    });
    code.extend_from_slice(&spelled.bytes[..spelled.len as usize])?;
    Ok(())
}

// Adds the bytes of expressions, separated by commas, at the end of these.
fn push_bytes(code: &mut Vec<u8>, place: Place, text: &[u8]) -> Result<(), OutOfMemory>
    ensures { IfOk result (λ _. code.new.items ≡ code.old.items
        ++ map (byte_in place.entry.labels.now place.entry.offset)
        (slice_split is_comma text.now)) }
{
    for part in text.split(|c| *c == b',') {
        push_byte(code, byte_at(place, part))?;
    }
    Ok(())
}

// Adds the words of expressions, separated by commas, at the end of these.
fn push_words(code: &mut Vec<u8>, place: Place, text: &[u8]) -> Result<(), OutOfMemory>
    ensures { IfOk result (λ _. code.new.items ≡ code.old.items
        ++ flat_map (λ t. word_bytes (word_in place.entry.labels.now place.entry.offset t))
        (slice_split is_comma text.now)) }
{
    for part in text.split(|c| *c == b',') {
        push_word(code, word_at(place, part))?;
    }
    Ok(())
}

// Adds characters at the end of these bytes, the last with bit 7.
fn push_marked(code: &mut Vec<u8>, text: &[u8]) -> Result<(), OutOfMemory>
    ensures { IfOk result (λ _. code.new.items ≡ code.old.items ++ marked_name text.now) }
{
    if let [front @ .., last] = text {
        code.extend_from_slice(front)?;
        push_byte(code, last.checked_add(0x80).ok_or(OutOfMemory)?)?;
    }
    Ok(())
}

// Adds bytes at the end of these.
fn push_texts(code: &mut Vec<u8>, text: &[u8]) -> Result<(), OutOfMemory>
    ensures { IfOk result (λ _. code.new.items ≡ code.old.items ++ text.now) }
{
    code.extend_from_slice(text)?;
    Ok(())
}

// Adds the bytes of a statement at an offset at the end of these.
fn push_action(
    code: &mut Vec<u8>,
    place: Place,
    offset: u64,
    action: &Action,
) -> Result<(), OutOfMemory>
    requires { place.offset ≡ Some offset }
    ensures { IfOk result (λ _. code.new.items ≡ code.old.items
        ++ action_bytes_in place.entry.labels.now offset (action_said action.now)) }
{
    match action {
        Action::Instruction(shape) => push_shape(code, place, offset, shape),
        Action::ByteList(text) => push_bytes(code, place, text),
        Action::WordList(text) => push_words(code, place, text),
        Action::Characters(text) => push_texts(code, text),
        Action::MarkedCharacters(text) => push_marked(code, text),
        Action::SystemCall(text) => push_texts(code, &[SWI2[0], SWI2[1], byte_at(place, text)]),
        Action::LabelAlone | Action::ModuleStart(_) | Action::ModuleEnd | Action::Equals(_) => {
            Ok(())
        }
    }
}

// The offset after a statement.
fn next_offset(offset: u64, action: &Action) -> Result<u64, OutOfMemory>
    ensures { IfOk result (λ next. next ≡ offset + action_length (action_said action.now)) }
{
    offset_behind(Some(offset), action)?.ok_or(OutOfMemory)
}

// Adds the bytes of a statement at an offset at the end of these. Returns the offset after it, if
// its values are known and in range.
fn push_statement(
    code: &mut Vec<u8>,
    all: &Reached,
    offset: u64,
    action: &Action,
) -> Result<Option<u64>, OutOfMemory>
    ensures next { IfOk result (λ next. (m : ReachedOf) → IsReached all.now m → next
        ≡ (if model.is_filled m (placed_at offset (action_said action.now))
        then Some (offset + action_length (action_said action.now)) else None)) }
    ensures bytes { IfOk result (λ next. OnSome next ((m : ReachedOf) → IsReached all.now m
        → code.new.items ≡ code.old.items
        ++ placed_bytes m (placed_at offset (action_said action.now)))) }
{
    let place = Place {
        labels: &all.labels,
        offset: Some(offset),
    };
    if is_filled(place, action) {
        push_action(code, place, offset, action)?;
        Ok(Some(next_offset(offset, action)?))
    } else {
        Ok(None)
    }
}

// Adds the bytes of a line at an offset at the end of these. Returns the offset after it, if its
// values are known and in range.
fn push_line(
    code: &mut Vec<u8>,
    all: &Reached,
    offset: u64,
    line: &Line,
) -> Result<Option<u64>, OutOfMemory>
    ensures next { IfOk result (λ next. (m : ReachedOf) → IsReached all.now m → next
        ≡ end_if_filled m offset (line_said line.now)) }
    ensures bytes { IfOk result (λ next. OnSome next ((m : ReachedOf) → IsReached all.now m
        → code.new.items ≡ code.old.items ++ line_bytes m offset (line_said line.now))) }
{
    match line {
        Line::Stated(statement) => push_statement(code, all, offset, &statement.action),
        _ => Ok(Some(offset)),
    }
}

/// The bytes of the statements of lines, each at its offset, if their values are known and in
/// range; `all` is what all lines reach.
///
/// # Errors
///
/// `OutOfMemory` alone.
pub(crate) fn code_of(
    alloc: Global,
    lines: &[Line],
    all: &Reached,
) -> Result<Option<Vec<u8>>, OutOfMemory>
    ensures { IfOk result (λ code. (m : ReachedOf) → IsReached all.now m
        → option_map (λ bytes. bytes.items) code
        ≡ code_if_filled m (placed_from 0 (map line_said lines.now))) }
{
    let mut code = Vec::new(alloc);
    let mut offset = 0;
    for line in lines {
        let Some(next) = push_line(&mut code, all, offset, line)? else {
            return Ok(None);
        };
        offset = next;
    }
    Ok(Some(code))
}
