ghost use Rattle.std.specs.Prelude.{◌≡◌, ◌+◌, ◌<◌, ◌^◌, IfOk, length, option_map};
ghost use Rattle.std.specs.List.{slice_split};
ghost use Rattle.os9_base.specs.Name.{marked_name};
ghost use Rattle.module_format.specs.GuestModule.{kind_header_length};
ghost use Rattle.asm_model.specs.Characters.{is_comma};
ghost use Rattle.asm_model.specs.Placement as model;
ghost use Rattle.asm_lines.specs.Lines.{action_said};

use crate::Action;
use asm_text::{Numbers, low_byte, shape_length, value_of};
use os9_base::call::OutOfMemory;

/// The number of bytes of a module's CRC.
pub const CRC_LENGTH: u16 = 3;

/// The type of a program, in the high half of the type and language.
pub const PROGRAM: u8 = 1;

/// The number of bytes of a call of OS-9.
const CALL_LENGTH: u8 = 3;

/// The value of an expression of numbers, 0 for another text.
pub fn constant_value(text: &[u8]) -> i128
    ensures { result ≡ model.constant_value text.now }
{
    value_of(text, &Numbers).unwrap_or(0)
}

/// The length of the header of a module of this type and language.
pub fn header_length(kind: u8) -> u8
    ensures { result ≡ kind_header_length kind }
{
    if kind >> 4 == PROGRAM { 13 } else { 9 }
}

// The number of texts separated by commas.
fn count_texts(text: &[u8]) -> u128
    ensures count { result ≡ length (slice_split is_comma text.now) }
    ensures most { result < 2 ^ 65 }
{
    text.split(|c| *c == b',').count() as u128
}

// The number of bytes that a text makes; its last character gets bit 7.
fn marked_length(text: &[u8]) -> u128
    ensures length { result ≡ length (marked_name text.now) }
    ensures most { result < 2 ^ 65 }
{
    text.len() as u128
}

/// The number of bytes of a statement.
pub fn action_length(action: &Action) -> u128
    ensures length { result ≡ model.action_length (action_said action.now) }
    ensures most { result < 2 ^ 66 }
{
    match action {
        Action::Instruction(shape) => u128::from(shape_length(shape)),
        Action::ModuleStart(fields) => {
            let header = header_length(low_byte(constant_value(fields.kind)));
            u128::from(header) + fields.name.len() as u128
        }
        Action::ModuleEnd => u128::from(CRC_LENGTH),
        Action::ByteList(text) => count_texts(text),
        Action::WordList(text) => 2 * count_texts(text),
        Action::Characters(text) => text.len() as u128,
        Action::MarkedCharacters(text) => marked_length(text),
        Action::SystemCall(_) => u128::from(CALL_LENGTH),
        Action::LabelAlone | Action::Equals(_) => 0,
    }
}

/// The offset after a statement at this offset, if that is known.
///
/// # Errors
///
/// `OutOfMemory` if the offset does not fit 64 bits, which needs a source of more than 2 ^ 60
/// bytes.
pub fn offset_behind(offset: Option<u64>, action: &Action) -> Result<Option<u64>, OutOfMemory>
    ensures { IfOk result (λ behind. behind
        ≡ option_map (λ n. n + model.action_length (action_said action.now)) offset) }
{
    let Some(offset) = offset else {
        return Ok(None);
    };
    let behind = u128::from(offset) + action_length(action);
    if behind <= u128::from(u64::MAX) {
        Ok(Some(behind as u64))
    } else {
        Err(OutOfMemory)
    }
}
