ghost use Rattle.std.specs.Prelude.{◌≡◌, ◌+◌, ◌<◌, ◌≤◌, ◌++◌, length};
ghost use Rattle.arrayvec.specs.ArrayVec.{array_vec_len};
ghost use Rattle.asm_model.specs.Numbers as model;
ghost use Rattle.asm_model.specs.Numbers.{two_digits};
ghost use Rattle.asm_model.specs.Print.{byte_number, word_number, signed_number, five_bits, decimal};

use arrayvec::ArrayVec;

/// The greatest length of an operand, in bytes.
pub(crate) const OPERAND: usize = 24;

/// Adds a text at the end.
pub(crate) fn add<const N: usize>(out: &mut ArrayVec<u8, N>, text: &[u8])
    requires { array_vec_len out.old + length text.now ≤ N }
    ensures text { out.new.items ≡ out.old.items ++ text.now }
    ensures len { array_vec_len out.new ≡ array_vec_len out.old + length text.now }
{
    match out.try_extend_from_slice(text) {
        Ok(()) => {}
        Err(_) => unreachable!(),
    }
}

// The digit of a number below 16.
fn hex_character(n: u8) -> u8
    requires { n < 16 }
    ensures { result ≡ model.hex_character n }
{
    if n < 10 { b'0' + n } else { b'A' - 10 + n }
}

// Adds the two digits of a byte at the end.
fn add_two_digits(out: &mut ArrayVec<u8, OPERAND>, n: u8)
    requires { array_vec_len out.old + 2 ≤ OPERAND }
    ensures text { out.new.items ≡ out.old.items ++ two_digits n }
    ensures len { array_vec_len out.new ≡ array_vec_len out.old + 2 }
{
    out.push(hex_character(n / 16));
    out.push(hex_character(n % 16));
}

/// Adds the number of a byte at the end.
pub(crate) fn add_byte(out: &mut ArrayVec<u8, OPERAND>, n: u8)
    requires { array_vec_len out.old + 3 ≤ OPERAND }
    ensures text { out.new.items ≡ out.old.items ++ byte_number n }
    ensures len { array_vec_len out.new ≡ array_vec_len out.old + 3 }
{
    out.push(b'$');
    add_two_digits(out, n);
}

/// Adds the number of a word at the end.
pub(crate) fn add_word(out: &mut ArrayVec<u8, OPERAND>, n: u16)
    requires { array_vec_len out.old + 5 ≤ OPERAND }
    ensures text { out.new.items ≡ out.old.items ++ word_number n }
    ensures len { array_vec_len out.new ≡ array_vec_len out.old + 5 }
{
    out.push(b'$');
    add_two_digits(out, (n / 256) as u8);
    add_two_digits(out, (n % 256) as u8);
}

/// Adds the number of a signed byte at the end.
pub(crate) fn add_signed(out: &mut ArrayVec<u8, OPERAND>, n: u8)
    requires { array_vec_len out.old + 4 ≤ OPERAND }
    ensures text { out.new.items ≡ out.old.items ++ signed_number n }
    ensures len { array_vec_len out.new ≤ array_vec_len out.old + 4 }
{
    if n < 128 {
        add_byte(out, n);
    } else {
        out.push(b'-');
        add_byte(out, (256 - u16::from(n)) as u8);
    }
}

// Adds a number below 20 in decimal digits at the end.
fn add_decimal(out: &mut ArrayVec<u8, OPERAND>, n: u8)
    requires small { n < 20 }
    requires room { array_vec_len out.old + 2 ≤ OPERAND }
    ensures text { out.new.items ≡ out.old.items ++ decimal n }
    ensures len { array_vec_len out.new ≤ array_vec_len out.old + 2 }
{
    if n < 10 {
        out.push(b'0' + n);
    } else {
        out.push(b'1');
        out.push(b'0' - 10 + n);
    }
}

/// Adds the number of the signed five bits at the end.
pub(crate) fn add_five_bits(out: &mut ArrayVec<u8, OPERAND>, n: u8)
    requires five { n < 32 }
    requires room { array_vec_len out.old + 3 ≤ OPERAND }
    ensures text { out.new.items ≡ out.old.items ++ five_bits n }
    ensures len { array_vec_len out.new ≤ array_vec_len out.old + 3 }
{
    if n < 16 {
        add_decimal(out, n);
    } else {
        out.push(b'-');
        add_decimal(out, 32 - n);
    }
}
