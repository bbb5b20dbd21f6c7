ghost use Rattle.std.specs.Prelude.{◌≡◌, ◌≤◌, IfSome, [], ◌∷◌, min, option_map};
ghost use Rattle.os9_debug.specs.Commands.{address_of, count_of, last_position, position_of};
ghost use Rattle.text_values.specs.Number.{number_after};
ghost use Rattle.script_text.specs.Script.{byte_of};

use text_values::{hex_digit, read_number};

/// The least and the greatest count of a command.
const LEAST: u32 = 1;

const MOST: u32 = 256;

/// The position that the digits spell.
pub(crate) fn read_position(digits: &[u8]) -> Option<u64>
    ensures { result ≡ position_of digits.now }
{
    if digits.is_empty() {
        return None;
    }
    saturated_number(digits)
}

// The number that decimal digits spell, or the last position if it is more.
fn saturated_number(digits: &[u8]) -> Option<u64>
    ensures { result
        ≡ option_map (λ number. min number last_position) (number_after 0 digits.now) }
{
    let mut number: u64 = 0;
    for byte in digits {
        if *byte < b'0' || b'9' < *byte {
            return None;
        }
        number = number
            .saturating_mul(10)
            .saturating_add(u64::from(*byte - b'0'));
    }
    Some(number)
}

/// The count that the digits spell: 1 to 256.
pub(crate) fn read_count(digits: &[u8]) -> Option<u16>
    ensures count { result ≡ count_of digits.now }
    ensures most { IfSome result (λ count. count ≤ 256) }
{
    let count = read_number(digits, LEAST, MOST)?;
    Some(count as u16)
}

// The byte that two hexadecimal digits spell.
fn byte_from(high: u8, low: u8) -> Option<u8>
    ensures { result ≡ byte_of (high ∷ low ∷ []) }
{
    let high = hex_digit(high)?;
    let low = hex_digit(low)?;
    Some(16 * high + low)
}

/// The address that four hexadecimal digits spell.
pub(crate) fn read_address(word: &[u8]) -> Option<u16>
    ensures { result ≡ address_of word.now }
{
    match word {
        [a, b, c, d] => {
            let high = byte_from(*a, *b)?;
            let low = byte_from(*c, *d)?;
            Some(256 * u16::from(high) + u16::from(low))
        }
        _ => None,
    }
}
