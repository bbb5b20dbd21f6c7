ghost use Rattle.std.specs.Prelude.{◌≡◌, ◌+◌, ◌*◌, ◌<◌, ◌≤◌, IfSome, option_map, option_and_then, pos};
ghost use Rattle.asm_model.specs.Characters.{is_minus};
ghost use Rattle.text_values.specs.Number.{hex_digit as hex_digit_model};
ghost use Rattle.asm_model.specs.Numbers.{hexadecimal as hexadecimal_model, number as number_model};
ghost use Rattle.asm_model.specs.Expressions.{lone_value as lone_value_model, terms};
ghost use Rattle.asm_text.specs.Terms.{joined};

use text_values::{hex_digit, read_number};

/// The greatest number: a word of ones.
const GREATEST: u32 = 65_535;

/// The greatest number of hexadecimal digits.
const MOST_DIGITS: usize = 4;

// The number with one more digit.
fn with_digit(value: u16, c: u8) -> Option<u16>
    requires { value < 4096 }
    ensures value { result ≡ option_map (λ digit. 16 * value + digit) (hex_digit_model c) }
    ensures below { IfSome result (λ n. n < 16 * value + 16) }
{
    let digit = hex_digit(c)?;
    Some(16 * value + u16::from(digit))
}

// One to four hexadecimal digits.
fn hexadecimal(text: &[u8]) -> Option<u16>
    ensures { result ≡ hexadecimal_model text.now }
{
    if text.is_empty() || text.len() > MOST_DIGITS {
        return None;
    }
    let mut value = 0;
    for c in text {
        value = with_digit(value, *c)?;
    }
    Some(value)
}

/// The number that a text spells: decimal digits up to 65,535, or `$` and one to four hexadecimal
/// digits.
pub fn number(text: &[u8]) -> Option<u16>
    ensures { result ≡ number_model text.now }
{
    match text {
        [] => None,
        [b'$', digits @ ..] => hexadecimal(digits),
        _ => Some(read_number(text, 0, GREATEST)? as u16),
    }
}

// A number that follows a sign.
fn signed_number(sign: u8, text: &[u8]) -> Option<i32>
    ensures { result
        ≡ option_map (joined (pos 0) (is_minus sign)) (option_map pos (number_model text.now)) }
{
    let n = i32::from(number(text)?);
    if sign == b'-' { Some(-n) } else { Some(n) }
}

/// The value of an expression of one number, with or without `-`.
pub fn lone_value(text: &[u8]) -> Option<i32>
    ensures { result ≡ option_and_then lone_value_model (terms text.now) }
{
    match text {
        [] => None,
        [c, rest @ ..] => {
            if *c == b'-' {
                signed_number(b'-', rest)
            } else {
                signed_number(b'+', text)
            }
        }
    }
}
