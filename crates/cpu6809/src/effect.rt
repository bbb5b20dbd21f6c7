ghost use Rattle.std.specs.Prelude.{◌≡◌};
ghost use Rattle.cpu_model.specs.Effects as model;
ghost use Rattle.cpu_model.specs.Places.{place};
ghost use Rattle.cpu6809.specs.Operands.{byte_with, word_with};

use crate::operation::{binary, holds, unary, word_binary};
use crate::register::{
    accumulator, register, register_coded, set_accumulator, set_d, set_flags, set_index_register,
    set_register, set_word_register, word_register,
};
use cpu_alu::flags_of;
use cpu_model::rows::{
    Accumulator, Binary, Condition, IndexRegister, Unary, WordBinary, WordRegister,
};
use os9_base::registers::Regs;

/// NEGA to CLRB.
#[inline(always)]
pub(crate) fn unary_on(r: &mut Regs, operation: Unary, on: Accumulator)
    ensures { r.new ≡ model.unary_on r.old operation on }
{
    let (after, cc) = unary(operation, accumulator(r, on), r.cc);
    set_accumulator(r, on, after);
    r.cc = cc;
}

/// SUBA to ADDB.
#[inline(always)]
pub(crate) fn binary_on(r: &mut Regs, operation: Binary, on: Accumulator, value: u8)
    ensures { r.new ≡ model.binary_on operation on (byte_with r.old value) }
{
    let (after, cc) = binary(operation, accumulator(r, on), value, r.cc);
    set_accumulator(r, on, after);
    r.cc = cc;
}

/// SUBD, ADDD, and the compares and loads of words.
#[inline(always)]
pub(crate) fn word_on(r: &mut Regs, operation: WordBinary, on: WordRegister, value: u16)
    ensures { r.new ≡ model.word_on operation on (word_with r.old value) }
{
    let (after, cc) = word_binary(operation, word_register(r, on), value, r.cc);
    set_word_register(r, on, after);
    r.cc = cc;
}

/// LEAX and LEAY set Z; LEAU and LEAS set no flag.
#[inline(always)]
pub(crate) fn lea(r: &mut Regs, to: IndexRegister, at: u16)
    ensures { r.new ≡ model.lea to (place at r.old) }
{
    set_index_register(r, to, at);
    match to {
        IndexRegister::X | IndexRegister::Y => {
            let flags = cpu_alu::lea(at, flags_of(r.cc));
            set_flags(r, flags);
        }
        IndexRegister::U | IndexRegister::S => {}
    }
}

/// BRA to BLE, and LBRA to LBLE.
#[inline(always)]
pub(crate) fn branch(r: &mut Regs, condition: Condition, target: u16)
    ensures { r.new ≡ model.branch r.old condition target }
{
    if holds(condition, r.cc) {
        r.pc = target;
    }
}

/// TFR: the high half of the postbyte names the source.
pub(crate) fn transfer(r: &mut Regs, pair: u8)
    ensures { r.new ≡ model.transfer r.old pair }
{
    let from = register_coded(pair >> 4);
    let to = register_coded(pair & 0x0F);
    let value = register(r, from);
    set_register(r, to, value);
}

/// EXG.
pub(crate) fn exchange(r: &mut Regs, pair: u8)
    ensures { r.new ≡ model.exchange r.old pair }
{
    let high = register_coded(pair >> 4);
    let low = register_coded(pair & 0x0F);
    let (of_high, of_low) = (register(r, high), register(r, low));
    set_register(r, low, of_high);
    set_register(r, high, of_low);
}

#[inline(always)]
pub(crate) fn abx(r: &mut Regs)
    ensures { r.new ≡ model.abx r.old }
{
    r.x = r.x.wrapping_add(r.b as u16);
}

pub(crate) fn daa(r: &mut Regs)
    ensures { r.new ≡ model.daa r.old }
{
    let (a, flags) = cpu_alu::daa(r.a, flags_of(r.cc));
    r.a = a;
    set_flags(r, flags);
}

pub(crate) fn mul(r: &mut Regs)
    ensures { r.new ≡ model.mul r.old }
{
    let (d, flags) = cpu_alu::mul(r.a, r.b, flags_of(r.cc));
    set_d(r, d);
    set_flags(r, flags);
}

pub(crate) fn sex(r: &mut Regs)
    ensures { r.new ≡ model.sex r.old }
{
    let (d, flags) = cpu_alu::sex(r.b, flags_of(r.cc));
    set_d(r, d);
    set_flags(r, flags);
}
