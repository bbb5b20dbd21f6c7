ghost use Rattle.std.specs.Prelude.{◌≡◌};
ghost use Rattle.cpu_model.specs.Arithmetic.{sum8, sum16, difference8, difference16, negative8, next8, previous8, adjusted8, product, extended};
ghost use Rattle.cpu_model.specs.Flags.{add8_flags, add16_flags, sub8_flags, sub16_flags, neg8_flags, inc8_flags, dec8_flags, daa_flags, mul_flags, sex_flags};

use crate::logic::{result8_flags, result16_flags};
use cpu_model::flags::Flags;

/// ADD and ADC of bytes: the sum with the carry in, modulo 256.
#[inline(always)]
pub fn add8(a: u8, b: u8, carry: bool, f: Flags) -> (u8, Flags)
    ensures value { result.0 ≡ sum8 a b carry }
    ensures flags { result.1 ≡ add8_flags a b carry f }
{
    let carry_in = carry as u8;
    let low_half = (a & 0x0F) + (b & 0x0F) + carry_in;
    let low_bits = (a & 0x7F) + (b & 0x7F) + carry_in;
    let whole = a as u16 + b as u16 + carry_in as u16;
    let sum = (whole & 0xFF) as u8;
    let flags = Flags {
        h: low_half > 0x0F,
        // Signed overflow: the carry into bit 7 differs from the carry out of it.
        v: (low_bits > 0x7F) != (whole > 0xFF),
        c: whole > 0xFF,
        ..result8_flags(sum, f)
    };
    (sum, flags)
}

/// SUB, SBC and CMP of bytes: the difference less the borrow in, modulo 256.
#[inline(always)]
pub fn sub8(a: u8, b: u8, borrow: bool, f: Flags) -> (u8, Flags)
    ensures value { result.0 ≡ difference8 a b borrow }
    ensures flags { result.1 ≡ sub8_flags a b borrow f }
{
    let borrow_in = borrow as u8;
    let low_bits = 0x80 + (a & 0x7F) - (b & 0x7F) - borrow_in;
    let whole = 0x100 + a as u16 - b as u16 - borrow_in as u16;
    let difference = (whole & 0xFF) as u8;
    let flags = Flags {
        // Signed overflow: the borrow into bit 7 differs from the borrow out of it.
        v: (low_bits < 0x80) != (whole < 0x100),
        c: whole < 0x100,
        ..result8_flags(difference, f)
    };
    (difference, flags)
}

/// ADDD: the sum modulo 65,536.
#[inline(always)]
pub fn add16(a: u16, b: u16, f: Flags) -> (u16, Flags)
    ensures value { result.0 ≡ sum16 a b }
    ensures flags { result.1 ≡ add16_flags a b f }
{
    let low_bits = (a & 0x7FFF) + (b & 0x7FFF);
    let whole = a as u32 + b as u32;
    let sum = (whole & 0xFFFF) as u16;
    let flags = Flags {
        v: (low_bits > 0x7FFF) != (whole > 0xFFFF),
        c: whole > 0xFFFF,
        ..result16_flags(sum, f)
    };
    (sum, flags)
}

/// SUBD and CMP of words: the difference modulo 65,536.
#[inline(always)]
pub fn sub16(a: u16, b: u16, f: Flags) -> (u16, Flags)
    ensures value { result.0 ≡ difference16 a b }
    ensures flags { result.1 ≡ sub16_flags a b f }
{
    let low_bits = 0x8000 + (a & 0x7FFF) - (b & 0x7FFF);
    let whole = 0x1_0000 + a as u32 - b as u32;
    let difference = (whole & 0xFFFF) as u16;
    let flags = Flags {
        v: (low_bits < 0x8000) != (whole < 0x1_0000),
        c: whole < 0x1_0000,
        ..result16_flags(difference, f)
    };
    (difference, flags)
}

/// NEG: the operand taken from 0, modulo 256.
#[inline(always)]
pub fn neg8(a: u8, f: Flags) -> (u8, Flags)
    ensures value { result.0 ≡ negative8 a }
    ensures flags { result.1 ≡ neg8_flags a f }
{
    let negative = 0u8.wrapping_sub(a);
    let flags = Flags {
        v: a == 0x80,
        c: negative != 0,
        ..result8_flags(negative, f)
    };
    (negative, flags)
}

/// INC: one more, modulo 256.
#[inline(always)]
pub fn inc8(a: u8, f: Flags) -> (u8, Flags)
    ensures value { result.0 ≡ next8 a }
    ensures flags { result.1 ≡ inc8_flags a f }
{
    let next = a.wrapping_add(1);
    let flags = Flags {
        v: a == 0x7F,
        ..result8_flags(next, f)
    };
    (next, flags)
}

/// DEC: one less, modulo 256.
#[inline(always)]
pub fn dec8(a: u8, f: Flags) -> (u8, Flags)
    ensures value { result.0 ≡ previous8 a }
    ensures flags { result.1 ≡ dec8_flags a f }
{
    let previous = a.wrapping_sub(1);
    let flags = Flags {
        v: a == 0x80,
        ..result8_flags(previous, f)
    };
    (previous, flags)
}

/// DAA: corrects a sum of two pairs of decimal digits to such a pair, by its half carry and carry.
pub fn daa(a: u8, f: Flags) -> (u8, Flags)
    ensures value { result.0 ≡ adjusted8 a f.h f.c }
    ensures flags { result.1 ≡ daa_flags a f }
{
    let low = a & 0x0F;
    let high = a >> 4;
    let for_low = if f.h || low > 9 { 0x06 } else { 0 };
    let for_high = if f.c || high > 9 || high > 8 && low > 9 {
        0x60
    } else {
        0
    };
    let whole = a as u16 + for_low + for_high;
    let adjusted = (whole & 0xFF) as u8;
    let flags = Flags {
        c: f.c || whole > 0xFF,
        ..result8_flags(adjusted, f)
    };
    (adjusted, flags)
}

/// MUL: the product, held in D.
pub fn mul(a: u8, b: u8, f: Flags) -> (u16, Flags)
    ensures value { result.0 ≡ product a b }
    ensures flags { result.1 ≡ mul_flags a b f }
{
    let product = a as u16 * b as u16;
    let flags = Flags {
        z: product == 0,
        c: product & 0xFF > 0x7F,
        ..f
    };
    (product, flags)
}

/// SEX: B with its sign, held in D.
pub fn sex(b: u8, f: Flags) -> (u16, Flags)
    ensures value { result.0 ≡ extended b }
    ensures flags { result.1 ≡ sex_flags b f }
{
    let extended = if b > 0x7F {
        0xFF00 + b as u16
    } else {
        b as u16
    };
    (extended, result16_flags(extended, f))
}
