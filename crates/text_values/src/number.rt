ghost use Rattle.std.specs.Prelude.{◌≡◌, ◌<◌, IfSome, option_map, min};
ghost use Rattle.text_values.specs.Number as model;
ghost use Rattle.text_values.specs.Number.{number_after, number_of, within};

// The value used for every number that does not fit 32 bits.
const TOO_LARGE: u64 = 1 << 32;

/// The number that the bytes spell, if it is from `least` to `most`; otherwise none.
///
/// A number is one or more decimal digits, of any length, and may begin with zeros (this project's
/// own). So it is refused if it is out of range, and never because of its length.
pub fn read_number(digits: &[u8], least: u32, most: u32) -> Option<u32>
    ensures { result ≡ within least most (number_of digits.now) }
{
    if digits.is_empty() {
        return None;
    }
    let number = capped_number(digits)?;
    if number < u64::from(least) || u64::from(most) < number {
        return None;
    }
    Some(number as u32)
}

// The number that decimal digits spell, or `TOO_LARGE` if it is greater.
fn capped_number(digits: &[u8]) -> Option<u64>
    ensures { result ≡ option_map (min 4294967296) (number_after 0 digits.now) }
{
    let mut number: u64 = 0;
    for byte in digits {
        if *byte < b'0' || b'9' < *byte {
            return None;
        }
        number = (10 * number + u64::from(*byte - b'0')).min(TOO_LARGE);
    }
    Some(number)
}

/// The value of a hexadecimal digit of either case.
pub fn hex_digit(byte: u8) -> Option<u8>
    ensures number { result ≡ model.hex_digit byte }
    ensures below { IfSome result (λ number. number < 16) }
{
    match byte {
        b'0'..=b'9' => Some(byte - b'0'),
        b'A'..=b'F' => Some(byte - b'A' + 10),
        b'a'..=b'f' => Some(byte - b'a' + 10),
        _ => None,
    }
}
