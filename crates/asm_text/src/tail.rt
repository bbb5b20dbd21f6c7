ghost use Rattle.std.specs.Prelude.{◌≡◌, ◌<◌, ◌%◌};
ghost use Rattle.cpu_model.specs.Flags.{signed16 as signed16_model};
ghost use Rattle.asm_model.specs.Operands.{modulo, if_between as if_between_model, distance as distance_model, filled as filled_model};
ghost use Rattle.asm_text.specs.Tails.{tail_by};

use crate::{Meaning, value_of};
use asm_model::operand::{Field, Wanted};
use cpu_model::instruction::Tail;

/// A whole number modulo 256.
pub fn low_byte(value: i128) -> u8
    ensures { result ≡ modulo 256 value }
{
    value.rem_euclid(256) as u8
}

/// A whole number modulo 65,536.
pub fn low_word(value: i128) -> u16
    ensures { result ≡ modulo 65536 value }
{
    value.rem_euclid(65536) as u16
}

// The operand bytes, if a value is in a range.
fn if_between(least: i128, most: i128, value: i128, tail: Tail) -> Option<Tail>
    ensures { result ≡ if_between_model least most value tail }
{
    if least <= value && value <= most {
        Some(tail)
    } else {
        None
    }
}

// The distance of a target from the next instruction, modulo 65,536.
fn distance(next: u128, value: i128) -> u16
    ensures { result ≡ distance_model next value }
{
    let from = (next % 65536) as u32;
    ((u32::from(low_word(value)) + 65536 - from) % 65536) as u16
}

// A word as a number with a sign.
fn signed16(n: u16) -> i128
    ensures { result ≡ signed16_model n }
{
    if n < 32_768 {
        i128::from(n)
    } else {
        i128::from(n) - 65_536
    }
}

/// The operand bytes of a value before this next instruction: None if the value is out of the
/// range of its field (programming manual, "Addressing modes"). A byte is from -128 to 255, a word
/// from -32,768 to 65,535, a direct address from 0 to 255, an offset of a byte and the distance of
/// a short target from -128 to 127. An offset of a word and the distance of a long target are taken
/// modulo 65,536, without a range.
///
/// A target's distance is counted from the next instruction.
pub fn filled(field: Field, next: u128, value: i128) -> Option<Tail>
    ensures { result ≡ filled_model field next value }
{
    match field {
        Field::Byte => if_between(-128, 255, value, Tail::Byte(low_byte(value))),
        Field::Word => if_between(-32768, 65535, value, Tail::Word(low_word(value))),
        Field::Direct => if_between(0, 255, value, Tail::Byte(low_byte(value))),
        Field::Offset8 => if_between(-128, 127, value, Tail::Byte(low_byte(value))),
        Field::Offset16 => Some(Tail::Word(low_word(value))),
        Field::Target8 => {
            let distance = distance(next, value);
            let tail = Tail::Byte((distance % 256) as u8);
            if_between(-128, 127, signed16(distance), tail)
        }
        Field::Target16 => Some(Tail::Word(distance(next, value))),
    }
}

/// The operand bytes before this next instruction, with the values that `meaning` gives to the
/// terms of the expression: None if the expression has no value, or one out of its field's range.
pub fn tail_with<M: Meaning>(wanted: Wanted, next: u128, text: &[u8], meaning: &M) -> Option<Tail>
    ensures { result ≡ tail_by (M.meaning meaning.now) wanted next text.now }
{
    match wanted {
        Wanted::Nothing => Some(Tail::Empty),
        Wanted::Fixed(byte) => Some(Tail::Byte(byte)),
        Wanted::Value(field) => filled(field, next, value_of(text, meaning)?),
    }
}
