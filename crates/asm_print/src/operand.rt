ghost use Rattle.std.specs.Prelude.{◌≡◌, ◌+◌, ◌*◌, ◌<◌, ◌≤◌, ◌++◌, ◌∷◌, [], length, true, false};
ghost use Rattle.arrayvec.specs.ArrayVec.{array_vec_len};
ghost use Rattle.cpu_model.specs.Arithmetic.{extended as extended_model};
ghost use Rattle.cpu_model.specs.Registers.{register_coded as register_coded_model, other_pointer as other_pointer_model};
ghost use Rattle.cpu_model.specs.Reading.{extent_of_form};
ghost use Rattle.cpu_model.specs.Table.{postbyte as postbyte_model};
ghost use Rattle.asm_model.specs.Mnemonics.{index_register_word as index_register_word_model};
ghost use Rattle.asm_model.specs.Characters.{same_word};
ghost use Rattle.asm_model.specs.Operands.{is_bare, is_bare_extent};
ghost use Rattle.asm_model.specs.Print.{masked_part, stays_first, masked, mask_registers as mask_registers_model, printed_mask, printed_pair, plain_index, target as target_model, printed_index, in_brackets, printed_indexing, printed_immediate, printed_byte, printed_word, printed_operand};

use crate::digits::{OPERAND, add, add_byte, add_five_bits, add_signed, add_word};
use crate::words::{index_register_word, register_word};
use arrayvec::ArrayVec;
use cpu_model::indexing::{Form, Indexing};
use cpu_model::instruction::Tail;
use cpu_model::rows::{IndexRegister, Mode, Operation, Register, Row, Stack};
use cpu_table::postbyte;

/// The greatest offset of a next instruction; the longest instruction has five bytes.
pub(crate) const LAST_NEXT: u32 = 65_540;

// ---- registers

// The register that a push mask has in place of the stack's own.
fn other_pointer(stack: Stack) -> Register
    ensures { result ≡ other_pointer_model stack }
{
    match stack {
        Stack::System => Register::U,
        Stack::User => Register::S,
    }
}

// The registers of a push mask, from bit 0 up.
fn mask_registers(stack: Stack) -> [Register; 8]
    ensures { result ≡ mask_registers_model stack }
{
    [
        Register::Cc,
        Register::A,
        Register::B,
        Register::Dp,
        Register::X,
        Register::Y,
        other_pointer(stack),
        Register::Pc,
    ]
}

// Adds a register at the end if bit 0 of the mask is set, after a comma unless it is the first.
// Returns whether the next register is still the first.
fn add_register(
    out: &mut ArrayVec<u8, OPERAND>,
    is_first: bool,
    register: Register,
    mask: u8,
) -> bool
    requires { array_vec_len out.old + 3 ≤ OPERAND }
    ensures text { out.new.items ≡ out.old.items ++ masked_part is_first register mask }
    ensures first { result ≡ stays_first is_first mask }
    ensures len { array_vec_len out.new ≤ array_vec_len out.old + 3 }
{
    if mask % 2 == 0 {
        return is_first;
    }
    if !is_first {
        out.push(b',');
    }
    add(out, register_word(register));
    false
}

// Adds the registers whose bits are set at the end.
fn add_masked(out: &mut ArrayVec<u8, OPERAND>, registers: &[Register], mask: u8)
    requires { array_vec_len out.old + 3 * length registers.now ≤ OPERAND }
    ensures { out.new.items ≡ out.old.items ++ masked true registers.now mask }
{
    let mut is_first = true;
    let mut mask = mask;
    for register in registers {
        is_first = add_register(out, is_first, *register, mask);
        mask /= 2;
    }
}

// Adds the operand of a push or pull at the end.
fn add_mask(out: &mut ArrayVec<u8, OPERAND>, stack: Stack, mask: u8)
    requires { array_vec_len out.old ≡ 0 }
    ensures { out.new.items ≡ out.old.items ++ printed_mask stack mask }
{
    if mask == 0 {
        add(out, b"#$00");
    } else {
        add_masked(out, &mask_registers(stack), mask);
    }
}

// The register of a code of EXG and TFR.
fn register_coded(code: u8) -> Register
    ensures { result ≡ register_coded_model code }
{
    match code {
        0 => Register::D,
        1 => Register::X,
        2 => Register::Y,
        3 => Register::U,
        4 => Register::S,
        5 => Register::Pc,
        8 => Register::A,
        9 => Register::B,
        10 => Register::Cc,
        _ => Register::Dp,
    }
}

// Adds source and destination at the end.
fn add_pair(out: &mut ArrayVec<u8, OPERAND>, pair: u8)
    requires { array_vec_len out.old ≡ 0 }
    ensures { out.new.items ≡ out.old.items ++ printed_pair pair }
{
    add(out, register_word(register_coded(pair / 16)));
    out.push(b',');
    add(out, register_word(register_coded(pair % 16)));
}

// ---- indexed operands

// A byte with its sign in a word.
fn extended(b: u8) -> u16
    ensures { result ≡ extended_model b }
{
    if b >= 128 {
        65280 + u16::from(b)
    } else {
        u16::from(b)
    }
}

// The target at a distance from the next instruction.
fn target(next: u32, offset: u16) -> u16
    requires { next ≤ LAST_NEXT }
    ensures { result ≡ target_model next offset }
{
    ((next + u32::from(offset)) % 65536) as u16
}

// Adds an operand without a number at the end.
fn add_plain(out: &mut ArrayVec<u8, OPERAND>, form: Form, register: IndexRegister)
    requires { array_vec_len out.old + 4 ≤ OPERAND }
    ensures text { out.new.items ≡ out.old.items ++ plain_index form register }
    ensures len { array_vec_len out.new ≤ array_vec_len out.old + 4 }
{
    let (front, end): (&[u8], &[u8]) = match form {
        Form::Increment1 => (b",", b"+"),
        Form::Increment2 => (b",", b"++"),
        Form::Decrement1 => (b",-", b""),
        Form::Decrement2 => (b",--", b""),
        Form::NoOffset => (b",", b""),
        Form::OffsetA => (b"A,", b""),
        Form::OffsetB => (b"B,", b""),
        Form::OffsetD => (b"D,", b""),
        _ => return,
    };
    add(out, front);
    add(out, index_register_word(register));
    add(out, end);
}

// Adds a comma and an index register at the end.
fn add_base(out: &mut ArrayVec<u8, OPERAND>, register: IndexRegister)
    requires { array_vec_len out.old + 2 ≤ OPERAND }
    ensures text { out.new.items ≡ out.old.items
        ++ (44 ∷ index_register_word_model register) }
    ensures len { array_vec_len out.new ≤ array_vec_len out.old + 2 }
{
    out.push(b',');
    add(out, index_register_word(register));
}

// Adds an indexed operand without brackets at the end.
fn add_index(out: &mut ArrayVec<u8, OPERAND>, meaning: Indexing, post: u8, tail: Tail, next: u32)
    requires room { array_vec_len out.old ≤ 1 }
    requires next { next ≤ LAST_NEXT }
    ensures text { out.new.items
        ≡ out.old.items ++ printed_index meaning.0 meaning.1 post tail next }
    ensures len { array_vec_len out.new ≤ array_vec_len out.old + 12 }
{
    let Indexing(form, register, _) = meaning;
    match (form, tail) {
        (Form::Offset5, _) => {
            add_five_bits(out, post % 32);
            add_base(out, register);
        }
        (Form::Offset8, Tail::Byte(b)) => {
            out.push(b'<');
            add_signed(out, b);
            add_base(out, register);
        }
        (Form::Offset16, Tail::Word(w)) => {
            out.push(b'>');
            add_word(out, w);
            add_base(out, register);
        }
        (Form::FromPc8, Tail::Byte(b)) => {
            out.push(b'<');
            add_word(out, target(next, extended(b)));
            add(out, b",PCR");
        }
        (Form::FromPc16, Tail::Word(w)) => {
            add_word(out, target(next, w));
            add(out, b",PCR");
        }
        (Form::Absolute, Tail::Word(w)) => add_word(out, w),
        _ => add_plain(out, form, register),
    }
}

// Adds an indexed operand at the end, if its postbyte is documented.
fn add_indexing(
    out: &mut ArrayVec<u8, OPERAND>,
    meaning: Option<Indexing>,
    post: u8,
    tail: Tail,
    next: u32,
)
    requires room { array_vec_len out.old ≡ 0 }
    requires next { next ≤ LAST_NEXT }
    ensures { out.new.items ≡ out.old.items ++ printed_indexing meaning post tail next }
{
    let Some(meaning) = meaning else {
        return;
    };
    if meaning.2 {
        out.push(b'[');
        add_index(out, meaning, post, tail, next);
        out.push(b']');
    } else {
        add_index(out, meaning, post, tail, next);
    }
}

// ---- operands

// Adds the operand of an immediate byte at the end.
fn add_immediate(out: &mut ArrayVec<u8, OPERAND>, operation: Operation, b: u8)
    requires { array_vec_len out.old ≡ 0 }
    ensures { out.new.items ≡ out.old.items ++ printed_immediate operation b }
{
    match operation {
        Operation::Psh(stack) | Operation::Pul(stack) => add_mask(out, stack, b),
        _ => {
            out.push(b'#');
            add_byte(out, b);
        }
    }
}

// Adds an operand with one byte after the opcode at the end.
fn add_one_byte(out: &mut ArrayVec<u8, OPERAND>, operation: Operation, mode: Mode, b: u8, next: u32)
    requires room { array_vec_len out.old ≡ 0 }
    requires next { next ≤ LAST_NEXT }
    ensures { out.new.items ≡ out.old.items ++ printed_byte operation mode b next }
{
    match mode {
        Mode::Immediate8 => add_immediate(out, operation, b),
        Mode::Direct => {
            out.push(b'<');
            add_byte(out, b);
        }
        Mode::Relative8 => add_word(out, target(next, extended(b))),
        Mode::Pair => add_pair(out, b),
        _ => {}
    }
}

// Adds an operand with a word after the opcode at the end.
fn add_one_word(out: &mut ArrayVec<u8, OPERAND>, mode: Mode, w: u16, next: u32)
    requires room { array_vec_len out.old ≡ 0 }
    requires next { next ≤ LAST_NEXT }
    ensures { out.new.items ≡ out.old.items ++ printed_word mode w next }
{
    match mode {
        Mode::Immediate16 => {
            out.push(b'#');
            add_word(out, w);
        }
        Mode::Extended => {
            out.push(b'>');
            add_word(out, w);
        }
        Mode::Relative16 => add_word(out, target(next, w)),
        _ => {}
    }
}

/// The operand of a row of the opcode map, with this postbyte and tail, before this next
/// instruction.
pub(crate) fn operand(row: Row, post: Option<u8>, tail: Tail, next: u32) -> ArrayVec<u8, OPERAND>
    requires { next ≤ LAST_NEXT }
    ensures { result.items ≡ printed_operand row post tail next }
{
    let mut out = ArrayVec::new();
    match (post, tail) {
        (Some(post), _) => add_indexing(&mut out, postbyte(post), post, tail, next),
        (None, Tail::Empty) => {}
        (None, Tail::Byte(b)) => add_one_byte(&mut out, row.0, row.1, b, next),
        (None, Tail::Word(w)) => add_one_word(&mut out, row.1, w, next),
    }
    out
}

// ---- operands without a number

// Does the form have no operand bytes?
fn has_no_bytes(form: Form) -> bool
    ensures { result ≡ is_bare_extent (extent_of_form form) }
{
    match form {
        Form::Offset8 | Form::Offset16 | Form::FromPc8 | Form::FromPc16 | Form::Absolute => false,
        _ => true,
    }
}

// Adds an indexed operand without a number at the end.
fn add_bare(out: &mut ArrayVec<u8, OPERAND>, meaning: Indexing)
    requires { array_vec_len out.old ≡ 0 }
    ensures { out.new.items
        ≡ out.old.items ++ in_brackets meaning.2 (plain_index meaning.0 meaning.1) }
{
    if meaning.2 {
        out.push(b'[');
        add_plain(out, meaning.0, meaning.1);
        out.push(b']');
    } else {
        add_plain(out, meaning.0, meaning.1);
    }
}

// Is the text an operand of this meaning, without a number and in any case of letters?
fn is_bare_index(meaning: Indexing, text: &[u8]) -> bool
    ensures { result
        ≡ same_word (in_brackets meaning.2 (plain_index meaning.0 meaning.1)) text.now }
{
    let mut out = ArrayVec::new();
    add_bare(&mut out, meaning);
    out.as_slice().eq_ignore_ascii_case(text)
}

/// Is the text the operand of this postbyte, without a number and in any case of letters?
///
/// A postbyte that is not documented, or has operand bytes, has no such text.
pub fn is_bare_operand(post: u8, text: &[u8]) -> bool
    ensures { result ≡ is_bare text.now (postbyte_model post) }
{
    match postbyte(post) {
        Some(meaning) => has_no_bytes(meaning.0) && is_bare_index(meaning, text),
        None => false,
    }
}
