ghost use Rattle.std.specs.Prelude.{◌≡◌};
ghost use Rattle.cpu_model.specs.Arithmetic.{complement8};
ghost use Rattle.cpu_model.specs.Flags as model;

use cpu_model::flags::Flags;

/// N and Z of a byte, with the other flags unchanged.
#[inline(always)]
pub(crate) fn result8_flags(r: u8, f: Flags) -> Flags
    ensures { result ≡ model.result8_flags r f }
{
    Flags {
        n: r > 0x7F,
        z: r == 0,
        ..f
    }
}

/// N and Z of a word, with the other flags unchanged.
#[inline(always)]
pub(crate) fn result16_flags(r: u16, f: Flags) -> Flags
    ensures { result ≡ model.result16_flags r f }
{
    Flags {
        n: r > 0x7FFF,
        z: r == 0,
        ..f
    }
}

/// AND, OR, EOR, BIT, LD, ST and TST of bytes: the flags of their result.
#[inline(always)]
pub fn logic8(r: u8, f: Flags) -> Flags
    ensures { result ≡ model.logic8_flags r f }
{
    Flags {
        v: false,
        ..result8_flags(r, f)
    }
}

/// LD and ST of words: the flags of the word.
#[inline(always)]
pub fn logic16(r: u16, f: Flags) -> Flags
    ensures { result ≡ model.logic16_flags r f }
{
    Flags {
        v: false,
        ..result16_flags(r, f)
    }
}

/// COM: each bit inverted.
#[inline(always)]
pub fn com8(a: u8, f: Flags) -> (u8, Flags)
    ensures value { result.0 ≡ complement8 a }
    ensures flags { result.1 ≡ model.com8_flags a f }
{
    let complement = 0xFF - a;
    let flags = Flags {
        v: false,
        c: true,
        ..result8_flags(complement, f)
    };
    (complement, flags)
}

/// CLR: zero.
#[inline(always)]
pub fn clr8(f: Flags) -> (u8, Flags)
    ensures value { result.0 ≡ 0 }
    ensures flags { result.1 ≡ model.clr_flags f }
{
    let flags = Flags {
        n: false,
        z: true,
        v: false,
        c: false,
        ..f
    };
    (0, flags)
}

/// LEAX and LEAY: the flags of the address.
#[inline(always)]
pub fn lea(address: u16, f: Flags) -> Flags
    ensures { result ≡ model.lea_flags address f }
{
    Flags {
        z: address == 0,
        ..f
    }
}
