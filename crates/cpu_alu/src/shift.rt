ghost use Rattle.std.specs.Prelude.{◌≡◌, false};
ghost use Rattle.cpu_model.specs.Arithmetic.{left8, right8};
ghost use Rattle.cpu_model.specs.Flags.{left8_flags, right8_flags, is_negative8};

use crate::logic::result8_flags;
use cpu_model::flags::Flags;

/// One place to the left, with this bit shifted in.
fn shift_left(a: u8, low: bool, f: Flags) -> (u8, Flags)
    ensures value { result.0 ≡ left8 a low }
    ensures flags { result.1 ≡ left8_flags a low f }
{
    let shifted = (a & 0x7F) * 2 + low as u8;
    let flags = Flags {
        v: (a >> 7 == 1) != (a >> 6 & 1 == 1),
        c: a >> 7 == 1,
        ..result8_flags(shifted, f)
    };
    (shifted, flags)
}

/// One place to the right, with this bit shifted in.
fn shift_right(a: u8, high: bool, f: Flags) -> (u8, Flags)
    ensures value { result.0 ≡ right8 a high }
    ensures flags { result.1 ≡ right8_flags a high f }
{
    let shifted = (a >> 1) + if high { 0x80 } else { 0 };
    let flags = Flags {
        c: a & 1 != 0,
        ..result8_flags(shifted, f)
    };
    (shifted, flags)
}

/// ASL, also named LSL: to the left, with 0 shifted in.
#[inline(always)]
pub fn asl8(a: u8, f: Flags) -> (u8, Flags)
    ensures value { result.0 ≡ left8 a false }
    ensures flags { result.1 ≡ left8_flags a false f }
{
    shift_left(a, false, f)
}

/// ROL: to the left, with the carry shifted in.
#[inline(always)]
pub fn rol8(a: u8, f: Flags) -> (u8, Flags)
    ensures value { result.0 ≡ left8 a f.c }
    ensures flags { result.1 ≡ left8_flags a f.c f }
{
    shift_left(a, f.c, f)
}

/// LSR: to the right, with 0 shifted in.
#[inline(always)]
pub fn lsr8(a: u8, f: Flags) -> (u8, Flags)
    ensures value { result.0 ≡ right8 a false }
    ensures flags { result.1 ≡ right8_flags a false f }
{
    shift_right(a, false, f)
}

/// ROR: to the right, with the carry shifted in.
#[inline(always)]
pub fn ror8(a: u8, f: Flags) -> (u8, Flags)
    ensures value { result.0 ≡ right8 a f.c }
    ensures flags { result.1 ≡ right8_flags a f.c f }
{
    shift_right(a, f.c, f)
}

/// ASR: to the right, with the sign unchanged.
#[inline(always)]
pub fn asr8(a: u8, f: Flags) -> (u8, Flags)
    ensures value { result.0 ≡ right8 a (is_negative8 a) }
    ensures flags { result.1 ≡ right8_flags a (is_negative8 a) f }
{
    shift_right(a, a > 0x7F, f)
}
