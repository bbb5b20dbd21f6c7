ghost use Rattle.std.specs.Prelude.{◌≡◌, option_map};
ghost use Rattle.cpu_model.specs.Arithmetic.{extended};
ghost use Rattle.cpu_model.specs.Places as model;
ghost use Rattle.cpu6809.specs.Operands.{byte_with, word_with};

use crate::bytes::word_at;
use crate::register::{d_of, index_register, set_index_register};
use cpu_model::indexing::{Form, Indexing};
use cpu_model::instruction::{Instr, Tail};
use cpu_model::rows::{IndexRegister, Mode};
use cpu_table::postbyte;
use os9_base::memory::Bus;
use os9_base::registers::Regs;

/// How an instruction names its operand: the mode of its row, and the instruction as it was read.
#[derive(Clone, Copy)]
pub(crate) struct Addressing {
    pub(crate) mode: Mode,
    pub(crate) i: Instr,
}

#[inline(always)]
pub(crate) fn tail_byte(tail: Tail) -> u8
    ensures { result ≡ model.tail_byte tail }
{
    match tail {
        Tail::Byte(byte) => byte,
        Tail::Empty | Tail::Word(_) => 0,
    }
}

#[inline(always)]
fn tail_word(tail: Tail) -> u16
    ensures { result ≡ model.tail_word tail }
{
    match tail {
        Tail::Word(word) => word,
        Tail::Empty | Tail::Byte(_) => 0,
    }
}

/// A signed byte as a word.
#[inline(always)]
fn extend(byte: u8) -> u16
    ensures { result ≡ extended byte }
{
    (byte.wrapping_add(0x80) as u16).wrapping_add(0xFF80)
}

/// The signed five bits of a postbyte, as a word.
#[inline(always)]
fn five_bits(post: u8) -> u16
    ensures { result ≡ model.five_bits post }
{
    let bits = post as u16 & 0x1F;
    if bits > 0x0F { 0xFFE0 + bits } else { bits }
}

/// At this distance from an index register.
#[inline(always)]
fn offset(r: &Regs, base: IndexRegister, by: u16) -> u16
    ensures { model.place result r.now ≡ model.offset_place r.now base by }
{
    index_register(r, base).wrapping_add(by)
}

/// At an index register, which is then increased by this number.
#[inline(always)]
fn increment(r: &mut Regs, base: IndexRegister, by: u16) -> u16
    ensures { model.place result r.new ≡ model.increment_place r.old base by }
{
    let at = index_register(r, base);
    set_index_register(r, base, at.wrapping_add(by));
    at
}

/// At an index register, after it is decreased by this number.
#[inline(always)]
fn decrement(r: &mut Regs, base: IndexRegister, by: u16) -> u16
    ensures { model.place result r.new ≡ model.decrement_place r.old base by }
{
    let at = index_register(r, base).wrapping_sub(by);
    set_index_register(r, base, at);
    at
}

/// The address of a form of indexed addressing.
#[inline(always)]
fn form_address(r: &mut Regs, form: Form, base: IndexRegister, post: u8, tail: Tail) -> u16
    ensures { model.place result r.new ≡ model.form_place r.old form base post tail }
{
    match form {
        Form::Offset5 => offset(r, base, five_bits(post)),
        Form::Increment1 => increment(r, base, 1),
        Form::Increment2 => increment(r, base, 2),
        Form::Decrement1 => decrement(r, base, 1),
        Form::Decrement2 => decrement(r, base, 2),
        Form::NoOffset => index_register(r, base),
        Form::OffsetB => offset(r, base, extend(r.b)),
        Form::OffsetA => offset(r, base, extend(r.a)),
        Form::Offset8 => offset(r, base, extend(tail_byte(tail))),
        Form::Offset16 => offset(r, base, tail_word(tail)),
        Form::OffsetD => offset(r, base, d_of(r)),
        Form::FromPc8 => r.pc.wrapping_add(extend(tail_byte(tail))),
        Form::FromPc16 => r.pc.wrapping_add(tail_word(tail)),
        Form::Absolute => tail_word(tail),
    }
}

/// The address of indexed addressing: the operand's own, or the one in the pointer.
#[inline(never)]
fn indexed<B: Bus>(b: &B, r: &mut Regs, post: u8, tail: Tail, indexing: Indexing) -> Option<u16>
    ensures { option_map (λ at. model.place at r.new) result
        ≡ model.indexed_place (B.cells b.now) r.old post tail indexing }
{
    let Indexing(form, base, is_indirect) = indexing;
    let at = form_address(r, form, base, post, tail);
    if is_indirect {
        word_at(b, at)
    } else {
        Some(at)
    }
}

/// The address of an instruction's operand, if the pointer to it can be read. Index registers are
/// stepped.
#[inline(always)]
#[tactic(auto, unfolding(cpu_model::specs::Places::place_of))]
pub(crate) fn address<B: Bus>(b: &B, r: &mut Regs, by: Addressing) -> Option<u16>
    ensures { option_map (λ at. model.place at r.new) result
        ≡ model.place_of (B.cells b.now) r.old by.mode by.i }
{
    match by.mode {
        Mode::Direct => Some(r.dp as u16 * 256 + tail_byte(by.i.tail) as u16),
        Mode::Extended => Some(tail_word(by.i.tail)),
        Mode::Indexed => {
            let post = by.i.post.unwrap_or(0);
            let indexing = postbyte(post)?;
            indexed(b, r, post, by.i.tail, indexing)
        }
        Mode::Inherent
        | Mode::Immediate8
        | Mode::Immediate16
        | Mode::Relative8
        | Mode::Relative16
        | Mode::Pair => None,
    }
}

/// The target of a branch.
#[inline(always)]
pub(crate) fn target_of(r: &Regs, mode: Mode, tail: Tail) -> u16
    ensures { result ≡ model.target_of r.now mode tail }
{
    match mode {
        Mode::Relative8 => r.pc.wrapping_add(extend(tail_byte(tail))),
        _ => r.pc.wrapping_add(tail_word(tail)),
    }
}

/// The byte after the opcode, or at the operand's address.
#[inline(always)]
#[tactic(auto, unfolding(cpu_model::specs::Places::byte_operand))]
pub(crate) fn byte_operand<B: Bus>(b: &B, r: &mut Regs, by: Addressing) -> Option<u8>
    ensures { option_map (byte_with r.new) result
        ≡ model.byte_operand (B.cells b.now) r.old by.mode by.i }
{
    match by.mode {
        Mode::Immediate8 => Some(tail_byte(by.i.tail)),
        _ => {
            let at = address(b, r, by)?;
            b.read(at)
        }
    }
}

/// The word after the opcode, or at the operand's address.
#[inline(always)]
#[tactic(auto, unfolding(cpu_model::specs::Places::word_operand))]
pub(crate) fn word_operand<B: Bus>(b: &B, r: &mut Regs, by: Addressing) -> Option<u16>
    ensures { option_map (word_with r.new) result
        ≡ model.word_operand (B.cells b.now) r.old by.mode by.i }
{
    match by.mode {
        Mode::Immediate16 => Some(tail_word(by.i.tail)),
        _ => {
            let at = address(b, r, by)?;
            word_at(b, at)
        }
    }
}
