ghost use Rattle.std.specs.Prelude.{◌≡◌, option_map, option_and_then};
ghost use Rattle.cpu_model.specs.Effects as model;
ghost use Rattle.cpu_model.specs.Places as places;
ghost use Rattle.cpu_model.specs.Step.{outcome_of_effect};
ghost use Rattle.cpu6809.specs.Does.{HasStepOutcome};

use crate::bytes::{write_byte, write_word};
use crate::effect::{binary_on, lea, word_on};
use crate::operation::unary;
use crate::place::{Addressing, address, byte_operand, word_operand};
use crate::register::{accumulator, set_flags, word_register};
use crate::stack::enter;
use cpu_alu::flags_of;
use cpu_model::rows::{Accumulator, Binary, IndexRegister, Unary, WordBinary, WordRegister};
use cpu_model::stop::Stop;
use os9_base::errors::E_PRCABT;
use os9_base::memory::Bus;
use os9_base::registers::Regs;

/// NEG to CLR of the byte at the operand's address. TST writes nothing.
#[inline(always)]
pub(crate) fn unary_at<B: Bus>(r: &mut Regs, b: &mut B, by: Addressing, operation: Unary) -> Stop
    ensures step { HasStepOutcome
        (outcome_of_effect (B.cells b.old) (option_and_then
        (λ p. model.unary_effect_at (B.cells b.old) operation p)
        (places.place_of (B.cells b.old) r.old by.mode by.i)))
        result r.new (B.cells b.old) (B.cells b.new) }
    ensures beside { B.same_beside b.old b.new }
{
    let Some(at) = address(b, r, by) else {
        return Stop::Abort(E_PRCABT);
    };
    let Some(value) = b.read(at) else {
        return Stop::Abort(E_PRCABT);
    };
    let (after, cc) = unary(operation, value, r.cc);
    r.cc = cc;
    if let Unary::Tst = operation {
        return Stop::Next;
    }
    if !write_byte(b, at, after) {
        return Stop::Abort(E_PRCABT);
    }
    Stop::Next
}

/// STA and STB.
#[inline(always)]
pub(crate) fn store<B: Bus>(r: &mut Regs, b: &mut B, by: Addressing, from: Accumulator) -> Stop
    ensures step { HasStepOutcome
        (outcome_of_effect (B.cells b.old) (option_map (λ p. model.store from p)
        (places.place_of (B.cells b.old) r.old by.mode by.i)))
        result r.new (B.cells b.old) (B.cells b.new) }
    ensures beside { B.same_beside b.old b.new }
{
    let Some(at) = address(b, r, by) else {
        return Stop::Abort(E_PRCABT);
    };
    let value = accumulator(r, from);
    let flags = cpu_alu::logic8(value, flags_of(r.cc));
    set_flags(r, flags);
    if !write_byte(b, at, value) {
        return Stop::Abort(E_PRCABT);
    }
    Stop::Next
}

/// STD to STS: a register that the address has stepped is stored with its new value.
#[inline(always)]
pub(crate) fn store_word<B: Bus>(
    r: &mut Regs,
    b: &mut B,
    by: Addressing,
    from: WordRegister,
) -> Stop
    ensures step { HasStepOutcome
        (outcome_of_effect (B.cells b.old) (option_map (λ p. model.store_word from p)
        (places.place_of (B.cells b.old) r.old by.mode by.i)))
        result r.new (B.cells b.old) (B.cells b.new) }
    ensures beside { B.same_beside b.old b.new }
{
    let Some(at) = address(b, r, by) else {
        return Stop::Abort(E_PRCABT);
    };
    let value = word_register(r, from);
    let flags = cpu_alu::logic16(value, flags_of(r.cc));
    set_flags(r, flags);
    if !write_word(b, at, value) {
        return Stop::Abort(E_PRCABT);
    }
    Stop::Next
}

/// SUBA to ADDB.
#[inline(always)]
pub(crate) fn binary_from<B: Bus>(
    r: &mut Regs,
    b: &B,
    by: Addressing,
    operation: Binary,
    on: Accumulator,
) -> Stop
    ensures { HasStepOutcome
        (outcome_of_effect (B.cells b.now) (option_map
        (λ x. model.changes (model.binary_on operation on x))
        (places.byte_operand (B.cells b.now) r.old by.mode by.i)))
        result r.new (B.cells b.now) (B.cells b.now) }
{
    let Some(value) = byte_operand(b, r, by) else {
        return Stop::Abort(E_PRCABT);
    };
    binary_on(r, operation, on, value);
    Stop::Next
}

/// SUBD, ADDD, and the compares and loads of words.
#[inline(always)]
pub(crate) fn word_from<B: Bus>(
    r: &mut Regs,
    b: &B,
    by: Addressing,
    operation: WordBinary,
    on: WordRegister,
) -> Stop
    ensures { HasStepOutcome
        (outcome_of_effect (B.cells b.now) (option_map
        (λ x. model.changes (model.word_on operation on x))
        (places.word_operand (B.cells b.now) r.old by.mode by.i)))
        result r.new (B.cells b.now) (B.cells b.now) }
{
    let Some(value) = word_operand(b, r, by) else {
        return Stop::Abort(E_PRCABT);
    };
    word_on(r, operation, on, value);
    Stop::Next
}

/// LEAX to LEAU.
#[inline(always)]
pub(crate) fn lea_of<B: Bus>(r: &mut Regs, b: &B, by: Addressing, to: IndexRegister) -> Stop
    ensures { HasStepOutcome
        (outcome_of_effect (B.cells b.now) (option_map (λ p. model.changes (model.lea to p))
        (places.place_of (B.cells b.now) r.old by.mode by.i)))
        result r.new (B.cells b.now) (B.cells b.now) }
{
    let Some(at) = address(b, r, by) else {
        return Stop::Abort(E_PRCABT);
    };
    lea(r, to, at);
    Stop::Next
}

/// JMP.
#[inline(always)]
pub(crate) fn jump<B: Bus>(r: &mut Regs, b: &B, by: Addressing) -> Stop
    ensures { HasStepOutcome
        (outcome_of_effect (B.cells b.now) (option_map (model.jump)
        (places.place_of (B.cells b.now) r.old by.mode by.i)))
        result r.new (B.cells b.now) (B.cells b.now) }
{
    let Some(at) = address(b, r, by) else {
        return Stop::Abort(E_PRCABT);
    };
    r.pc = at;
    Stop::Next
}

/// JSR.
#[inline(always)]
pub(crate) fn enter_at<B: Bus>(r: &mut Regs, b: &mut B, by: Addressing) -> Stop
    ensures step { HasStepOutcome
        (outcome_of_effect (B.cells b.old) (option_map (λ p. model.enters p.regs p.at)
        (places.place_of (B.cells b.old) r.old by.mode by.i)))
        result r.new (B.cells b.old) (B.cells b.new) }
    ensures beside { B.same_beside b.old b.new }
{
    let Some(at) = address(b, r, by) else {
        return Stop::Abort(E_PRCABT);
    };
    enter(r, b, at)
}
