ghost use Rattle.std.specs.Prelude.{◌≡◌, ◌<◌, ◌≤◌, ◌+◌, ◌++◌, [], ◌∷◌, length, option_map, Some, None, if◌then◌else◌};
ghost use Rattle.arrayvec.specs.ArrayVec.{array_vec_len};
ghost use Rattle.cpu_model.specs.Effects as model;
ghost use Rattle.cpu_model.specs.Flags.{has_bit};
ghost use Rattle.cpu_model.specs.Places.{place};
ghost use Rattle.cpu_model.specs.Step.{outcome_of_effect};
ghost use Rattle.cpu6809.specs.Does.{HasStepOutcome};

use crate::bytes::{word_at, write, write_word};
use crate::register::{other_pointer, register, set_register, set_stack_pointer, stack_pointer};
use arrayvec::ArrayVec;
use cpu_model::rows::{Register, Stack};
use cpu_model::stop::Stop;
use os9_base::errors::E_PRCABT;
use os9_base::memory::Bus;
use os9_base::registers::Regs;

/// The greatest number of bytes that a push puts on a stack.
const FRAME: usize = 12;

/// A subroutine is entered: the next instruction's address is pushed on the stack.
#[inline(always)]
pub(crate) fn enter<B: Bus>(r: &mut Regs, b: &mut B, target: u16) -> Stop
    ensures step { HasStepOutcome (outcome_of_effect (B.cells b.old)
        (Some (model.enters r.old target))) result r.new (B.cells b.old) (B.cells b.new) }
    ensures beside { B.same_beside b.old b.new }
{
    let at = r.s.wrapping_sub(2);
    if !write_word(b, at, r.pc) {
        return Stop::Abort(E_PRCABT);
    }
    r.s = at;
    r.pc = target;
    Stop::Next
}

/// A bit of a mask, by its weight.
#[derive(Clone, Copy)]
struct Bit {
    mask: u8,
    weight: u8,
}

/// Is a bit of a mask 1?
#[inline(always)]
fn is_set(bit: Bit) -> bool
    requires { 0 < bit.weight }
    ensures { result ≡ has_bit bit.weight bit.mask }
{
    bit.mask / bit.weight % 2 == 1
}

#[inline(always)]
fn add_byte(frame: &mut ArrayVec<u8, FRAME>, bit: Bit, byte: u8)
    requires weighs { 0 < bit.weight }
    requires room { array_vec_len frame.old < FRAME }
    ensures bytes { frame.new.items ≡ frame.old.items ++ model.part bit.mask bit.weight
        (byte ∷ []) }
    ensures len { array_vec_len frame.new ≤ array_vec_len frame.old + 1 }
{
    if is_set(bit) {
        frame.push(byte);
    }
}

#[inline(always)]
fn add_word(frame: &mut ArrayVec<u8, FRAME>, bit: Bit, value: u16)
    requires weighs { 0 < bit.weight }
    requires room { array_vec_len frame.old + 1 < FRAME }
    ensures bytes { frame.new.items ≡ frame.old.items
        ++ model.part bit.mask bit.weight (model.word_bytes value) }
    ensures len { array_vec_len frame.new ≤ array_vec_len frame.old + 2 }
{
    if is_set(bit) {
        frame.push((value >> 8) as u8);
        frame.push((value & 0xFF) as u8);
    }
}

/// What a push with this mask puts on a stack, from the lowest address up.
#[inline(always)]
#[tactic(auto, unfolding(cpu_model::specs::Effects::frame))]
fn frame(r: &Regs, stack: Stack, mask: u8) -> ArrayVec<u8, FRAME>
    ensures { result.items ≡ model.frame r.now stack mask }
{
    let mut bytes = ArrayVec::new();
    add_byte(&mut bytes, Bit { mask, weight: 1 }, r.cc);
    add_byte(&mut bytes, Bit { mask, weight: 2 }, r.a);
    add_byte(&mut bytes, Bit { mask, weight: 4 }, r.b);
    add_byte(&mut bytes, Bit { mask, weight: 8 }, r.dp);
    add_word(&mut bytes, Bit { mask, weight: 16 }, r.x);
    add_word(&mut bytes, Bit { mask, weight: 32 }, r.y);
    add_word(
        &mut bytes,
        Bit { mask, weight: 64 },
        register(r, other_pointer(stack)),
    );
    add_word(&mut bytes, Bit { mask, weight: 128 }, r.pc);
    bytes
}

/// PSHS and PSHU.
pub(crate) fn push<B: Bus>(r: &mut Regs, b: &mut B, stack: Stack, mask: u8) -> Stop
    ensures step { HasStepOutcome (outcome_of_effect (B.cells b.old)
        (Some (model.push r.old stack mask))) result r.new (B.cells b.old) (B.cells b.new) }
    ensures beside { B.same_beside b.old b.new }
{
    let bytes = frame(r, stack, mask);
    let at = stack_pointer(r, stack).wrapping_sub(bytes.len() as u16);
    if !write(b, at, bytes.as_slice()) {
        return Stop::Abort(E_PRCABT);
    }
    set_stack_pointer(r, stack, at);
    Stop::Next
}

/// Takes a byte register from the stack at an address, if its bit is 1, and returns the next
/// address.
#[inline(always)]
fn pull_byte<B: Bus>(b: &B, r: &mut Regs, bit: Bit, register: Register, at: u16) -> Option<u16>
    requires { 0 < bit.weight }
    ensures { option_map (λ next. place next r.new) result
        ≡ model.pull_byte (B.cells b.now) bit.mask bit.weight register (place at r.old) }
{
    if !is_set(bit) {
        return Some(at);
    }
    let value = b.read(at)?;
    set_register(r, register, value as u16);
    Some(at.wrapping_add(1))
}

/// Takes a register of sixteen bits from the stack at an address, if its bit is 1, and returns the
/// next address.
#[inline(always)]
fn pull_word<B: Bus>(b: &B, r: &mut Regs, bit: Bit, register: Register, at: u16) -> Option<u16>
    requires { 0 < bit.weight }
    ensures { option_map (λ next. place next r.new) result
        ≡ model.pull_word (B.cells b.now) bit.mask bit.weight register (place at r.old) }
{
    if !is_set(bit) {
        return Some(at);
    }
    let value = word_at(b, at)?;
    set_register(r, register, value);
    Some(at.wrapping_add(2))
}

#[inline(always)]
fn pull_bytes<B: Bus>(b: &B, r: &mut Regs, mask: u8, at: u16) -> Option<u16>
    ensures { option_map (λ next. place next r.new) result
        ≡ model.pull_bytes (B.cells b.now) mask (place at r.old) }
{
    let at = pull_byte(b, r, Bit { mask, weight: 1 }, Register::Cc, at)?;
    let at = pull_byte(b, r, Bit { mask, weight: 2 }, Register::A, at)?;
    let at = pull_byte(b, r, Bit { mask, weight: 4 }, Register::B, at)?;
    pull_byte(b, r, Bit { mask, weight: 8 }, Register::Dp, at)
}

#[inline(always)]
fn pull_words<B: Bus>(b: &B, r: &mut Regs, stack: Stack, mask: u8, at: u16) -> Option<u16>
    ensures { option_map (λ next. place next r.new) result
        ≡ model.pull_words (B.cells b.now) stack mask (place at r.old) }
{
    let at = pull_word(b, r, Bit { mask, weight: 16 }, Register::X, at)?;
    let at = pull_word(b, r, Bit { mask, weight: 32 }, Register::Y, at)?;
    let at = pull_word(b, r, Bit { mask, weight: 64 }, other_pointer(stack), at)?;
    pull_word(b, r, Bit { mask, weight: 128 }, Register::Pc, at)
}

/// Takes the registers that a mask names from a stack, if all their bytes can be read.
#[inline(always)]
#[tactic(auto, unfolding(cpu_model::specs::Effects::pull))]
fn pulled<B: Bus>(b: &B, r: &mut Regs, stack: Stack, mask: u8) -> bool
    ensures { (if result then Some r.new else None) ≡ model.pull (B.cells b.now) r.old stack mask }
{
    let bottom = stack_pointer(r, stack);
    let Some(at) = pull_bytes(b, r, mask, bottom) else {
        return false;
    };
    let Some(at) = pull_words(b, r, stack, mask, at) else {
        return false;
    };
    set_stack_pointer(r, stack, at);
    true
}

/// PULS and PULU.
pub(crate) fn pull<B: Bus>(r: &mut Regs, b: &B, stack: Stack, mask: u8) -> Stop
    ensures { HasStepOutcome
        (outcome_of_effect (B.cells b.now) (option_map model.changes
        (model.pull (B.cells b.now) r.old stack mask)))
        result r.new (B.cells b.now) (B.cells b.now) }
{
    if !pulled(b, r, stack, mask) {
        return Stop::Abort(E_PRCABT);
    }
    Stop::Next
}

/// RTI: E of the CC on the stack says whether all registers are there, or CC and PC alone.
pub(crate) fn return_from_interrupt<B: Bus>(r: &mut Regs, b: &B) -> Stop
    ensures { HasStepOutcome
        (outcome_of_effect (B.cells b.now) (option_map model.changes
        (model.return_from_interrupt (B.cells b.now) r.old)))
        result r.new (B.cells b.now) (B.cells b.now) }
{
    let Some(cc) = b.read(r.s) else {
        return Stop::Abort(E_PRCABT);
    };
    let mask = if cc > 0x7F { 255 } else { 129 };
    pull(r, b, Stack::System, mask)
}

/// RTS.
#[inline(always)]
pub(crate) fn return_from_subroutine<B: Bus>(r: &mut Regs, b: &B) -> Stop
    ensures { HasStepOutcome
        (outcome_of_effect (B.cells b.now) (option_map model.changes
        (model.return_from_subroutine (B.cells b.now) r.old)))
        result r.new (B.cells b.now) (B.cells b.now) }
{
    let Some(target) = word_at(b, r.s) else {
        return Stop::Abort(E_PRCABT);
    };
    r.s = r.s.wrapping_add(2);
    r.pc = target;
    Stop::Next
}
