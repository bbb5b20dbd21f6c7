ghost use Rattle.std.specs.Prelude.{◌≡◌};
ghost use Rattle.cpu_model.specs.Flags as model;

use cpu_model::flags::Flags;

/// The flags in the condition code register.
#[inline(always)]
pub fn flags_of(cc: u8) -> Flags
    ensures { result ≡ model.flags_of cc }
{
    Flags {
        h: cc >> 5 & 1 == 1,
        n: cc >> 3 & 1 == 1,
        z: cc >> 2 & 1 == 1,
        v: cc >> 1 & 1 == 1,
        c: cc & 1 == 1,
    }
}

/// The condition code register with these flags, and with E, F and I unchanged.
#[inline(always)]
pub fn with_flags(cc: u8, f: Flags) -> u8
    ensures { result ≡ model.cc_with f cc }
{
    let entire_and_fast = cc & 0xC0;
    let interrupt = (cc >> 4 & 1) * 0x10;
    entire_and_fast
        + 0x20 * f.h as u8
        + interrupt
        + 0x08 * f.n as u8
        + 0x04 * f.z as u8
        + 0x02 * f.v as u8
        + f.c as u8
}
