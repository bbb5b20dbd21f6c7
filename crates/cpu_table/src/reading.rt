ghost use Rattle.std.specs.Prelude.{◌≡◌, ◌↔◌, ℕ, ◌≤◌, None, IfOk, [], ◌∷◌};
ghost use Rattle.cpu_model.specs.Reading as model;
ghost use Rattle.cpu_model.specs.Table as tables;
ghost use Rattle.cpu_model.specs.declared.instruction.Instr.{Instr};
ghost use Rattle.cpu_table.specs.Decoded.{BeginsWithHead, reading_of, HasItsRow};
ghost use Rattle.cpu_table.specs.Spelling.{BeginsWithInstruction, IsPlainInstr, IsBegun, IsSpelled};

use crate::table::{postbyte, row};
use cpu_model::indexing::{Form, Indexing};
use cpu_model::instruction::{DecodeFault, Instr, Page, Tail};
use cpu_model::rows::{Mode, Row};

/// What is known of an instruction before its operand bytes, and the number of bytes up to them.
#[derive(Clone, Copy)]
struct Head {
    page: Page,
    opcode: u8,
    post: Option<u8>,
    length: u8,
}

impl Head {
    /// The instruction with these operand bytes.
    #[inline(always)]
    fn instruction(self, tail: Tail) -> Instr
        ensures { result
            ≡ record { page = self.page; opcode = self.opcode; post = self.post; tail = tail } }
    {
        Instr {
            page: self.page,
            opcode: self.opcode,
            post: self.post,
            tail,
        }
    }
}

/// The instruction with no operand bytes.
#[inline(always)]
fn with_none(head: Head) -> Result<(Instr, u8), DecodeFault>
    ensures value { result
        ≡ model.read_tail head.page head.opcode head.post head.length model.none [] }
    ensures head { BeginsWithHead head result }
{
    Ok((head.instruction(Tail::Empty), head.length))
}

/// The instruction with one operand byte, the first of `rest`.
#[inline(always)]
fn with_byte(head: Head, rest: &[u8]) -> Result<(Instr, u8), DecodeFault>
    requires { head.length ≤ 3 }
    ensures value { result
        ≡ model.read_tail head.page head.opcode head.post head.length model.byte rest.now }
    ensures head { BeginsWithHead head result }
{
    match rest {
        [byte, ..] => Ok((head.instruction(Tail::Byte(*byte)), head.length + 1)),
        [] => Err(DecodeFault::Short),
    }
}

/// The instruction with two operand bytes, the first of `rest`.
#[inline(always)]
fn with_word(head: Head, rest: &[u8]) -> Result<(Instr, u8), DecodeFault>
    requires { head.length ≤ 3 }
    ensures value { result
        ≡ model.read_tail head.page head.opcode head.post head.length model.word rest.now }
    ensures head { BeginsWithHead head result }
{
    match rest {
        [high, low, ..] => {
            let word = u16::from_be_bytes([*high, *low]);
            Ok((head.instruction(Tail::Word(word)), head.length + 2))
        }
        _ => Err(DecodeFault::Short),
    }
}

/// The instruction with the operand bytes of its postbyte's form, the first of `rest`.
#[inline(always)]
fn with_form(head: Head, form: Form, rest: &[u8]) -> Result<(Instr, u8), DecodeFault>
    requires { head.length ≤ 3 }
    ensures value { result
        ≡ model.read_tail head.page head.opcode head.post head.length (model.extent_of_form form)
        rest.now }
    ensures head { BeginsWithHead head result }
{
    match form {
        Form::Offset8 | Form::FromPc8 => with_byte(head, rest),
        Form::Offset16 | Form::FromPc16 | Form::Absolute => with_word(head, rest),
        _ => with_none(head),
    }
}

/// The postbyte as it is reported: bits 6 and 5 do not matter if the offset is counted from PC.
#[inline(always)]
fn plain_postbyte(form: Form, post: u8) -> u8
    ensures { result ≡ tables.plain_postbyte form post }
{
    match form {
        Form::FromPc8 | Form::FromPc16 => 0x80 + (post & 0x1F),
        _ => post,
    }
}

/// The instruction of an indexed mode, whose postbyte is the first of `rest`.
#[inline(always)]
fn with_postbyte(head: Head, rest: &[u8]) -> Result<(Instr, u8), DecodeFault>
    requires { head.length ≤ 2 }
    ensures value { result ≡ model.read_indexed head.page head.opcode head.length rest.now }
    ensures head { BeginsWithHead head result }
{
    match rest {
        [post, after @ ..] => match postbyte(*post) {
            Some(Indexing(form, _, _)) => {
                let post = Some(plain_postbyte(form, *post));
                let length = head.length + 1;
                with_form(
                    Head {
                        post,
                        length,
                        ..head
                    },
                    form,
                    after,
                )
            }
            None => Err(DecodeFault::NotDocumented),
        },
        [] => Err(DecodeFault::Short),
    }
}

/// Do both halves of this byte name registers of one size?
#[inline(always)]
fn is_pair(post: u8) -> bool
    ensures { result ≡ tables.is_pair post }
{
    let (source, target) = (post >> 4, post & 0x0F);
    source <= 5 && target <= 5 || (8..=11).contains(&source) && (8..=11).contains(&target)
}

/// The instruction on two registers, which the first byte of `rest` names.
#[inline(always)]
fn with_pair(head: Head, rest: &[u8]) -> Result<(Instr, u8), DecodeFault>
    requires no_postbyte { head.post ≡ None }
    requires short { head.length ≤ 2 }
    ensures value { result ≡ model.read_pair head.page head.opcode head.length rest.now }
    ensures head { BeginsWithHead head result }
{
    match rest {
        [pair, ..] if is_pair(*pair) => with_byte(head, rest),
        [_, ..] => Err(DecodeFault::NotDocumented),
        [] => Err(DecodeFault::Short),
    }
}

/// The instruction of this mode, whose bytes after the opcode are the first of `rest`.
#[inline(always)]
fn with_operand(head: Head, mode: Mode, rest: &[u8]) -> Result<(Instr, u8), DecodeFault>
    requires no_postbyte { head.post ≡ None }
    requires short { head.length ≤ 2 }
    ensures value { result ≡ model.read_operand head.page head.opcode head.length mode rest.now }
    ensures head { BeginsWithHead head result }
{
    match mode {
        Mode::Inherent => with_none(head),
        Mode::Immediate8 | Mode::Direct | Mode::Relative8 => with_byte(head, rest),
        Mode::Immediate16 | Mode::Extended | Mode::Relative16 => with_word(head, rest),
        Mode::Indexed => with_postbyte(head, rest),
        Mode::Pair => with_pair(head, rest),
    }
}

/// An instruction, the number of its bytes, and its row of the opcode map.
#[derive(Clone, Copy, Debug, PartialEq, Eq)]
pub struct Decoded {
    pub instr: Instr,
    pub length: u8,
    pub row: Row,
}

/// The instruction of this row of the opcode map, whose bytes after the opcode are the first of
/// `rest`; `length` is the number of bytes up to and including the opcode.
#[inline(always)]
fn from_row(
    page: Page,
    opcode: u8,
    length: u8,
    row: Row,
    rest: &[u8],
) -> Result<Decoded, DecodeFault>
    requires { length ≤ 2 }
    ensures value { reading_of result ≡ model.read_operand page opcode length row.1 rest.now }
    ensures row { IfOk result (λ found. found.row ≡ row) }
    ensures head { IfOk result
        (λ found. (found.instr.page ≡ page) × (found.instr.opcode ≡ opcode)) }
{
    let head = Head {
        page,
        opcode,
        post: None,
        length,
    };
    let (instr, length) = with_operand(head, row.1, rest)?;
    Ok(Decoded { instr, length, row })
}

/// The instruction whose opcode, of a page with a prefix, is the first of `bytes`.
#[inline(always)]
fn from_opcode(page: Page, bytes: &[u8]) -> Result<Decoded, DecodeFault>
    ensures value { reading_of result ≡ model.read_opcode page 2 bytes.now }
    ensures row { IfOk result HasItsRow }
{
    match bytes {
        [opcode, rest @ ..] => match row(page, *opcode) {
            Some(row) => from_row(page, *opcode, 2, row, rest),
            None => Err(DecodeFault::NotDocumented),
        },
        [] => Err(DecodeFault::Short),
    }
}

/// The instruction that begins with this byte, a prefix or an undocumented opcode, and continues
/// with these bytes.
#[inline(always)]
#[tactic(auto, unfolding(cpu_model::specs::Reading::reading))]
fn from_prefix(first: u8, rest: &[u8]) -> Result<Decoded, DecodeFault>
    requires { tables.row Page.Base first ≡ None }
    ensures value { reading_of result ≡ model.reading (first ∷ rest.now) }
    ensures row { IfOk result HasItsRow }
{
    let page = match first {
        0x10 => Page::Ten,
        0x11 => Page::Eleven,
        _ => return Err(DecodeFault::NotDocumented),
    };
    from_opcode(page, rest)
}

/// The instruction that begins with this byte and continues with these.
#[inline(always)]
fn from_first(first: u8, rest: &[u8]) -> Result<Decoded, DecodeFault>
    ensures value { reading_of result ≡ model.reading (first ∷ rest.now) }
    ensures row { IfOk result HasItsRow }
{
    match row(Page::Base, first) {
        Some(row) => from_row(Page::Base, first, 1, row, rest),
        None => from_prefix(first, rest),
    }
}

/// The instruction at the front of these bytes, as [`decode`] reads it, with its row of the opcode
/// map.
#[inline(always)]
#[tactic(auto, unfolding(cpu_model::specs::Reading::reading))]
pub fn decode_with_row(bytes: &[u8]) -> Result<Decoded, DecodeFault>
    ensures value { reading_of result ≡ model.reading bytes.now }
    ensures row { IfOk result HasItsRow }
{
    match bytes {
        [] => Err(DecodeFault::Short),
        [first, rest @ ..] => from_first(*first, rest),
    }
}

/// The instruction at the front of these bytes, and the number of its bytes (MC6809 programming
/// manual, appendix B). For SWI2 that is 2: a code byte after it is not part of it.
///
/// `Short` if the bytes are the beginning of a longer spelling, and `NotDocumented` if no
/// documented instruction is spelled so, whatever follows.
pub fn decode(bytes: &[u8]) -> Result<(Instr, u8), DecodeFault>
    ensures value { result ≡ model.reading bytes.now }

    // The result is documented and spelled so, and each instruction spelled so is the result.
    ensures found { IfOk result (λ found. BeginsWithInstruction bytes.now found.0 found.1) }
    ensures plain { IfOk result (λ found. IsPlainInstr found.0) }
    ensures only { (i : Instr) (count : ℕ) → BeginsWithInstruction bytes.now i count → result
        ≡ Ok (i, count) }

    ensures short { (result ≡ Err DecodeFault.Short) ↔ IsBegun bytes.now }
    ensures not_documented { (result ≡ Err DecodeFault.NotDocumented)
        ↔ (¬ IsBegun bytes.now × ¬ IsSpelled bytes.now) }
{
    instruction_and_length(bytes)
}

fn instruction_and_length(bytes: &[u8]) -> Result<(Instr, u8), DecodeFault>
    ensures { result ≡ model.reading bytes.now }
{
    let decoded = decode_with_row(bytes)?;
    Ok((decoded.instr, decoded.length))
}
