ghost use Rattle.std.specs.Prelude.{◌≡◌, ◌<◌};
ghost use Rattle.asm_model.specs.Numbers as model;

// The digit of a number below 16, in upper case.
fn hex_character(n: u8) -> u8
    requires { n < 16 }
    ensures { result ≡ model.hex_character n }
{
    if n < 10 { b'0' + n } else { b'A' - 10 + n }
}

/// The digits of a byte.
pub(crate) fn two_digits(n: u8) -> [u8; 2]
    ensures { result ≡ model.two_digits n }
{
    [hex_character(n / 16), hex_character(n % 16)]
}

/// The digits of a word.
pub(crate) fn four_digits(n: u16) -> [u8; 4]
    ensures { result ≡ model.four_digits n }
{
    let [first, second] = two_digits((n / 256) as u8);
    let [third, fourth] = two_digits((n % 256) as u8);
    [first, second, third, fourth]
}
