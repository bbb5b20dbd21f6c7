ghost use Rattle.std.specs.Prelude.{◌≡◌, ◌<◌, IfSome};
ghost use Rattle.cpu_model.specs.Registers.{other_pointer};
ghost use Rattle.cpu_model.specs.Table.{is_byte_code as is_byte_code_model, is_pair as is_pair_model, is_word_code as is_word_code_model};
ghost use Rattle.asm_model.specs.Operands.{index_number as index_number_model, mask_weight as mask_weight_model, register_code as register_code_model, register_mask as register_mask_model, register_pair as register_pair_model};
ghost use Rattle.asm_model.specs.Print.{mask_registers, register_word};

use crate::cuts::two_parts;
use crate::is_same_word;
use cpu_model::rows::Stack;

/// The number of an index register in its postbytes.
pub(crate) fn index_number(name: &[u8]) -> Option<u8>
    ensures number { result ≡ index_number_model name.now }
    ensures below { IfSome result (λ n. n < 4) }
{
    if is_same_word(b"X", name) {
        Some(0)
    } else if is_same_word(b"Y", name) {
        Some(1)
    } else if is_same_word(b"U", name) {
        Some(2)
    } else if is_same_word(b"S", name) {
        Some(3)
    } else {
        None
    }
}

// The name of the register that a push mask has in place of the stack's own.
fn other_pointer_name(stack: Stack) -> &'static [u8]
    ensures { result.now ≡ register_word (other_pointer stack) }
{
    match stack {
        Stack::System => b"U",
        Stack::User => b"S",
    }
}

// The bit of a register in a push mask.
fn mask_weight(stack: Stack, name: &[u8]) -> Option<u8>
    ensures { result ≡ mask_weight_model (mask_registers stack) 1 name.now }
{
    if is_same_word(b"CC", name) {
        Some(0x01)
    } else if is_same_word(b"A", name) {
        Some(0x02)
    } else if is_same_word(b"B", name) {
        Some(0x04)
    } else if is_same_word(b"DP", name) {
        Some(0x08)
    } else if is_same_word(b"X", name) {
        Some(0x10)
    } else if is_same_word(b"Y", name) {
        Some(0x20)
    } else if is_same_word(other_pointer_name(stack), name) {
        Some(0x40)
    } else if is_same_word(b"PC", name) {
        Some(0x80)
    } else {
        None
    }
}

/// The mask of registers whose names are separated by commas.
pub(crate) fn register_mask(stack: Stack, text: &[u8]) -> Option<u8>
    ensures { result ≡ register_mask_model stack text.now }
{
    let mut mask = 0;
    for name in text.split(|c| *c == b',') {
        mask |= mask_weight(stack, name)?;
    }
    Some(mask)
}

// The code of a register in EXG and TFR.
fn register_code(name: &[u8]) -> Option<u8>
    ensures code { result ≡ register_code_model name.now }
    ensures below { IfSome result (λ code. code < 16) }
{
    if is_same_word(b"D", name) {
        Some(0)
    } else if is_same_word(b"X", name) {
        Some(1)
    } else if is_same_word(b"Y", name) {
        Some(2)
    } else if is_same_word(b"U", name) {
        Some(3)
    } else if is_same_word(b"S", name) {
        Some(4)
    } else if is_same_word(b"PC", name) {
        Some(5)
    } else if is_same_word(b"A", name) {
        Some(8)
    } else if is_same_word(b"B", name) {
        Some(9)
    } else if is_same_word(b"CC", name) {
        Some(10)
    } else if is_same_word(b"DP", name) {
        Some(11)
    } else {
        None
    }
}

// Is it the code of a register of sixteen bits?
fn is_word_code(code: u8) -> bool
    ensures { result ≡ is_word_code_model code }
{
    code <= 5
}

// Is it the code of a register of eight bits?
fn is_byte_code(code: u8) -> bool
    ensures { result ≡ is_byte_code_model code }
{
    8 <= code && code <= 11
}

// Do both halves of a postbyte name registers of one size?
fn is_pair(pair: u8) -> bool
    ensures { result ≡ is_pair_model pair }
{
    (is_word_code(pair / 16) && is_word_code(pair % 16))
        || (is_byte_code(pair / 16) && is_byte_code(pair % 16))
}

/// The postbyte of a source and a destination of one size, their names separated by a comma.
pub(crate) fn register_pair(text: &[u8]) -> Option<u8>
    ensures { result ≡ register_pair_model text.now }
{
    let parts = two_parts(text)?;
    let source = register_code(parts.first)?;
    let destination = register_code(parts.rest)?;
    let pair = 16 * source + destination;
    is_pair(pair).then_some(pair)
}
