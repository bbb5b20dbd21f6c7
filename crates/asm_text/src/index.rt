ghost use Rattle.std.specs.Prelude.{◌≡◌, ◌+◌, ◌*◌, ◌<◌, ◌≤◌, ◌&&◌, option_map, true, false};
ghost use Rattle.asm_model.specs.Operands.{bare_post as bare_post_model, indexed_operand as indexed_operand_model, indirect_bit as indirect_bit_model, inside as inside_model, marked as marked_model, modulo, numbered as numbered_model, offset_from as offset_from_model, size_of_value as size_of_value_model, sized_offset as sized_offset_model, target_operand as target_operand_model, offset_among as offset_among_model};
ghost use Rattle.std.specs.List.{slice_split};
ghost use Rattle.asm_model.specs.Characters.{is_comma};
ghost use Rattle.asm_text.specs.Views.{operand_of};
ghost use Rattle.asm_text.specs.Offsets.{offset_as, offset_size as offset_size_model};

use crate::cuts::{before_bracket, has_comma, two_parts};
use crate::operand::{Operand, plain_operand, valued};
use crate::register::index_number;
use crate::{is_same_word, lone_value};
use asm_model::operand::{Field, Size, Wanted, Width};
use asm_print::is_bare_operand;

/// The postbyte with an offset of a byte from X.
const OFFSET8: u8 = 0x88;

/// The postbyte with an offset of a word from X.
const OFFSET16: u8 = 0x89;

/// The postbyte with an offset of a byte from PC.
const TARGET8: u8 = 0x8C;

/// The postbyte with an offset of a word from PC.
const TARGET16: u8 = 0x8D;

/// The postbyte of extended indirect.
const ABSOLUTE: u8 = 0x9F;

// The postbyte whose operand is this text without a number.
fn bare_post(text: &[u8]) -> Option<u8>
    ensures { result ≡ bare_post_model text.now }
{
    for post in 128..256u16 {
        if is_bare_operand(post as u8, text) {
            return Some(post as u8);
        }
    }
    None
}

// Bit 4 of an indirect operand.
fn indirect_bit(indirect: bool) -> u8
    ensures bit { result ≡ indirect_bit_model indirect }
    ensures small { result ≤ 16 }
{
    if indirect { 16 } else { 0 }
}

// The size of an offset, by its value if its expression is one number.
fn size_of_value(indirect: bool, value: Option<i32>) -> Size
    ensures { result ≡ size_of_value_model indirect value }
{
    match value {
        None => Size::Sixteen,
        Some(n) => {
            if !indirect && -16 <= n && n <= 15 {
                Size::Five(n)
            } else if -128 <= n && n <= 127 {
                Size::Eight
            } else {
                Size::Sixteen
            }
        }
    }
}

// An offset as its mark and its expression.
#[derive(Clone, Copy, Debug)]
struct Offset<'a> {
    width: Width,
    expression: &'a [u8],
}

// The mark and the expression of an offset.
fn marked(text: &[u8]) -> Offset<'_>
    ensures { offset_as result ≡ marked_model text.now }
{
    match text {
        [b'<', rest @ ..] => Offset {
            width: Width::Narrow,
            expression: rest,
        },
        [b'>', rest @ ..] => Offset {
            width: Width::Wide,
            expression: rest,
        },
        _ => Offset {
            width: Width::Unmarked,
            expression: text,
        },
    }
}

// The five bits of an offset.
fn five_bits(value: i32) -> u8
    ensures bits { result ≡ modulo 32 value }
    ensures below { result < 32 }
{
    value.rem_euclid(32) as u8
}

// An offset of this size from an index register.
fn sized_offset(size: Size, indirect: bool, register: u8, text: &[u8]) -> Option<Operand<'_>>
    requires { register < 4 }
    ensures { option_map operand_of result
        ≡ sized_offset_model size indirect register text.now }
{
    let from_register = 32 * register + indirect_bit(indirect);
    match size {
        Size::Five(value) => {
            let post = 32 * register + five_bits(value);
            Some(plain_operand(Some(post), Wanted::Nothing))
        }
        Size::Eight => valued(Some(OFFSET8 + from_register), Field::Offset8, text),
        Size::Sixteen => valued(Some(OFFSET16 + from_register), Field::Offset16, text),
    }
}

// The size of an offset from an index register.
fn offset_size(offset: Offset<'_>, indirect: bool) -> Size
    ensures { result ≡ offset_size_model offset.entry.width indirect offset.entry.expression.now }
{
    match offset.width {
        Width::Narrow => Size::Eight,
        Width::Wide => Size::Sixteen,
        Width::Unmarked => size_of_value(indirect, lone_value(offset.expression)),
    }
}

// A target, by its offset from PC.
fn target_operand<'a>(offset: Offset<'a>, indirect: bool) -> Option<Operand<'a>>
    ensures { option_map operand_of result
        ≡ target_operand_model offset.entry.width indirect offset.entry.expression.now }
{
    let bit = indirect_bit(indirect);
    match offset.width {
        Width::Narrow => valued(Some(TARGET8 + bit), Field::Target8, offset.expression),
        _ => valued(Some(TARGET16 + bit), Field::Target16, offset.expression),
    }
}

// An offset from PC or from an index register.
fn offset_from<'a>(indirect: bool, offset: Offset<'a>, base: &[u8]) -> Option<Operand<'a>>
    ensures { option_map operand_of result
        ≡ offset_from_model indirect (offset_as offset.entry) base.now }
{
    if is_same_word(b"PCR", base) {
        return target_operand(offset, indirect);
    }
    let register = index_number(base)?;
    sized_offset(
        offset_size(offset, indirect),
        indirect,
        register,
        offset.expression,
    )
}

// An offset and a base, separated by a comma.
fn offset_among(indirect: bool, text: &[u8]) -> Option<Operand<'_>>
    ensures { option_map operand_of result
        ≡ offset_among_model indirect (slice_split is_comma text.now) }
{
    let parts = two_parts(text)?;
    offset_from(indirect, marked(parts.first), parts.rest)
}

// The operand whose text is between brackets.
fn inside(text: &[u8]) -> Option<Operand<'_>>
    ensures { option_map operand_of result ≡ inside_model text.now }
{
    if has_comma(text) {
        offset_among(true, text)
    } else {
        valued(Some(ABSOLUTE), Field::Word, text)
    }
}

// An indexed operand with an offset, or extended indirect.
fn numbered(text: &[u8]) -> Option<Operand<'_>>
    ensures { option_map operand_of result ≡ numbered_model text.now }
{
    match text {
        [] => None,
        [b'[', rest @ ..] => inside(before_bracket(rest)?),
        _ => offset_among(false, text),
    }
}

/// The operand of indexed addressing.
pub(crate) fn indexed_operand(text: &[u8]) -> Option<Operand<'_>>
    ensures { option_map operand_of result ≡ indexed_operand_model text.now }
{
    match bare_post(text) {
        Some(post) => Some(plain_operand(Some(post), Wanted::Nothing)),
        None => numbered(text),
    }
}
