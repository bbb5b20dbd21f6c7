ghost use Rattle.std.specs.Prelude.{◌≡◌, ◌++◌, ◌<◌, OnOk};
ghost use Rattle.std.specs.List.{flat_map};
ghost use Rattle.lock_model.specs.Lines as model;
ghost use Rattle.lock_model.specs.Lines.{hex_digits};

use std::alloc::AllocError;

/// Appends the last `count` digits of a number in hexadecimal, in lower case and with leading zeros.
pub(crate) fn push_hex(text: &mut Vec<u8>, number: u32, count: u32) -> Result<(), AllocError>
    ensures { OnOk result (text.new.items ≡ text.old.items ++ hex_digits count number) }
{
    if count == 0 {
        return Ok(());
    }
    push_hex(text, number / 16, count - 1)?;
    text.push(hex_digit((number % 16) as u8))?;
    Ok(())
}

/// A hexadecimal digit in lower case.
fn hex_digit(value: u8) -> u8
    requires { value < 16 }
    ensures { result ≡ model.hex_digit value }
{
    if value < 10 {
        b'0' + value
    } else {
        b'a' - 10 + value
    }
}

/// Appends two hexadecimal digits for each byte.
pub(crate) fn push_bytes(text: &mut Vec<u8>, bytes: &[u8]) -> Result<(), AllocError>
    ensures { OnOk result
        (text.new.items ≡ text.old.items ++ flat_map (hex_digits 2) bytes.now) }
{
    for byte in bytes {
        push_hex(text, u32::from(*byte), 2)?;
    }
    Ok(())
}
