ghost use Rattle.std.specs.Prelude.{◌≡◌, ◌+◌, ◌<◌, ◌≤◌, List, ℕ, [], ◌∷◌, ◌++◌, length, take, Ok, option_to_list};
ghost use Rattle.cpu_model.specs.Reading.{reading};
ghost use Rattle.cpu_table.specs.Spelling.{spelling, prefix, tail_bytes, IsPlainInstr};

use cpu_model::instruction::{Instr, Page, Tail};

/// The bytes of an instruction: the first `len` of `bytes`.
#[derive(Clone, Copy, Debug, PartialEq, Eq)]
pub struct Spelling {
    pub bytes: [u8; 5],
    pub len: u8,
}

/// The spelling with one more byte at its end.
fn with_byte(mut spelled: Spelling, byte: u8) -> Spelling
    requires { spelled.len < 5 }
    ensures len { result.len ≡ spelled.len + 1 }
    ensures bytes { take result.len result.bytes ≡ take spelled.len spelled.bytes ++ byte ∷ [] }
{
    spelled.bytes[spelled.len as usize] = byte;
    spelled.len += 1;
    spelled
}

/// The prefix of a page.
fn of_page(page: Page) -> Spelling
    ensures len { result.len ≡ length (prefix page) }
    ensures bytes { take result.len result.bytes ≡ prefix page }
{
    let nothing = Spelling {
        bytes: [0; 5],
        len: 0,
    };
    match page {
        Page::Base => nothing,
        Page::Ten => with_byte(nothing, 0x10),
        Page::Eleven => with_byte(nothing, 0x11),
    }
}

/// The spelling with a postbyte at its end, if there is one.
fn with_post(spelled: Spelling, post: Option<u8>) -> Spelling
    requires { spelled.len < 5 }
    ensures len { result.len ≡ spelled.len + length (option_to_list post) }
    ensures bytes { take result.len result.bytes ≡ take spelled.len spelled.bytes
        ++ option_to_list post }
{
    match post {
        Some(post) => with_byte(spelled, post),
        None => spelled,
    }
}

/// The spelling with the operand bytes at its end.
fn with_tail(spelled: Spelling, tail: Tail) -> Spelling
    requires { spelled.len < 4 }
    ensures len { result.len ≡ spelled.len + length (tail_bytes tail) }
    ensures bytes { take result.len result.bytes ≡ take spelled.len spelled.bytes
        ++ tail_bytes tail }
{
    match tail {
        Tail::Empty => spelled,
        Tail::Byte(byte) => with_byte(spelled, byte),
        Tail::Word(word) => {
            let high = with_byte(spelled, (word >> 8) as u8);
            with_byte(high, (word & 0xFF) as u8)
        }
    }
}

/// The bytes of an instruction: prefix, opcode, postbyte and operand, in this order.
///
/// Of each instruction that [`decode`](crate::decode) can return, these bytes are decoded to it
/// again, whatever follows them.
pub fn spell(i: &Instr) -> Spelling
    ensures bytes { take result.len result.bytes ≡ spelling i.now }
    ensures len { result.len ≡ length (spelling i.now) }
    ensures read_again { IsPlainInstr i.now → (rest : List ℕ)
        → reading (spelling i.now ++ rest) ≡ Ok (i.now, result.len) }
{
    let opcode = with_byte(of_page(i.page), i.opcode);
    with_tail(with_post(opcode, i.post), i.tail)
}
