ghost use Rattle.std.specs.Prelude.{◌≡◌};
ghost use Rattle.cpu_model.specs.Registers as model;

use cpu_alu::Flags;
use cpu_model::rows::{Accumulator, IndexRegister, Register, Stack, WordRegister};
use os9_base::registers::Regs;

/// D: A is its high byte, B its low one.
#[inline(always)]
pub(crate) fn d_of(r: &Regs) -> u16
    ensures { result ≡ model.d_of r.now }
{
    r.a as u16 * 256 + r.b as u16
}

#[inline(always)]
pub(crate) fn set_d(r: &mut Regs, value: u16)
    ensures { r.new ≡ model.with_d r.old value }
{
    r.a = (value >> 8) as u8;
    r.b = (value & 0xFF) as u8;
}

#[inline(always)]
pub(crate) fn accumulator(r: &Regs, accumulator: Accumulator) -> u8
    ensures { result ≡ model.accumulator r.now accumulator }
{
    match accumulator {
        Accumulator::A => r.a,
        Accumulator::B => r.b,
    }
}

#[inline(always)]
pub(crate) fn set_accumulator(r: &mut Regs, accumulator: Accumulator, value: u8)
    ensures { r.new ≡ model.with_accumulator r.old accumulator value }
{
    match accumulator {
        Accumulator::A => r.a = value,
        Accumulator::B => r.b = value,
    }
}

#[inline(always)]
pub(crate) fn word_register(r: &Regs, register: WordRegister) -> u16
    ensures { result ≡ model.word_register r.now register }
{
    match register {
        WordRegister::D => d_of(r),
        WordRegister::X => r.x,
        WordRegister::Y => r.y,
        WordRegister::U => r.u,
        WordRegister::S => r.s,
    }
}

#[inline(always)]
pub(crate) fn set_word_register(r: &mut Regs, register: WordRegister, value: u16)
    ensures { r.new ≡ model.with_word_register r.old register value }
{
    match register {
        WordRegister::D => set_d(r, value),
        WordRegister::X => r.x = value,
        WordRegister::Y => r.y = value,
        WordRegister::U => r.u = value,
        WordRegister::S => r.s = value,
    }
}

#[inline(always)]
pub(crate) fn index_register(r: &Regs, register: IndexRegister) -> u16
    ensures { result ≡ model.index_register r.now register }
{
    match register {
        IndexRegister::X => r.x,
        IndexRegister::Y => r.y,
        IndexRegister::U => r.u,
        IndexRegister::S => r.s,
    }
}

#[inline(always)]
pub(crate) fn set_index_register(r: &mut Regs, register: IndexRegister, value: u16)
    ensures { r.new ≡ model.with_index_register r.old register value }
{
    match register {
        IndexRegister::X => r.x = value,
        IndexRegister::Y => r.y = value,
        IndexRegister::U => r.u = value,
        IndexRegister::S => r.s = value,
    }
}

#[inline(always)]
pub(crate) fn stack_pointer(r: &Regs, stack: Stack) -> u16
    ensures { result ≡ model.stack_pointer r.now stack }
{
    match stack {
        Stack::System => r.s,
        Stack::User => r.u,
    }
}

#[inline(always)]
pub(crate) fn set_stack_pointer(r: &mut Regs, stack: Stack, value: u16)
    ensures { r.new ≡ model.with_stack_pointer r.old stack value }
{
    match stack {
        Stack::System => r.s = value,
        Stack::User => r.u = value,
    }
}

#[inline(always)]
pub(crate) fn set_flags(r: &mut Regs, f: Flags)
    ensures { r.new ≡ model.with_flags r.old f }
{
    r.cc = cpu_alu::with_flags(r.cc, f);
}

/// The register of a code in the postbyte of EXG and TFR.
#[inline(always)]
pub(crate) fn register_coded(code: u8) -> Register
    ensures { result ≡ model.register_coded code }
{
    match code {
        0 => Register::D,
        1 => Register::X,
        2 => Register::Y,
        3 => Register::U,
        4 => Register::S,
        5 => Register::Pc,
        8 => Register::A,
        9 => Register::B,
        10 => Register::Cc,
        _ => Register::Dp,
    }
}

/// A byte register as a word whose high byte is 0.
#[inline(always)]
pub(crate) fn register(r: &Regs, register: Register) -> u16
    ensures { result ≡ model.register r.now register }
{
    match register {
        Register::D => d_of(r),
        Register::X => r.x,
        Register::Y => r.y,
        Register::U => r.u,
        Register::S => r.s,
        Register::Pc => r.pc,
        Register::A => r.a as u16,
        Register::B => r.b as u16,
        Register::Cc => r.cc as u16,
        Register::Dp => r.dp as u16,
    }
}

/// A byte register gets the low byte.
#[inline(always)]
pub(crate) fn set_register(r: &mut Regs, register: Register, value: u16)
    ensures { r.new ≡ model.with_register r.old register value }
{
    let byte = (value & 0xFF) as u8;
    match register {
        Register::D => set_d(r, value),
        Register::X => r.x = value,
        Register::Y => r.y = value,
        Register::U => r.u = value,
        Register::S => r.s = value,
        Register::Pc => r.pc = value,
        Register::A => r.a = byte,
        Register::B => r.b = byte,
        Register::Cc => r.cc = byte,
        Register::Dp => r.dp = byte,
    }
}

/// The pointer of the other stack, which a push or a pull may name.
#[inline(always)]
pub(crate) fn other_pointer(stack: Stack) -> Register
    ensures { result ≡ model.other_pointer stack }
{
    match stack {
        Stack::System => Register::U,
        Stack::User => Register::S,
    }
}
