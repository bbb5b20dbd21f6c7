ghost use Rattle.std.specs.Prelude.{◌≡◌, option_map, []};
ghost use Rattle.asm_model.specs.Operands.{valued as valued_model, immediate_operand as immediate_operand_model, mask_operand as mask_operand_model, immediate8 as immediate8_model, direct_operand as direct_operand_model, address_operand as address_operand_model, row_operand as row_operand_model};
ghost use Rattle.asm_text.specs.Views.{operand_of, pair_operand as pair_operand_model};

use crate::index::indexed_operand;
use crate::is_expression;
use crate::register::{register_mask, register_pair};
use asm_model::operand::{Field, Wanted};
use cpu_model::rows::{Mode, Operation, Row, Stack};

/// An operand without the value of its expression.
#[derive(Clone, Copy, Debug)]
pub struct Operand<'a> {
    /// Its postbyte.
    pub post: Option<u8>,
    /// The bytes that follow the postbyte.
    pub wanted: Wanted,
    /// The expression of their value.
    pub expression: &'a [u8],
}

/// The operand without an expression.
pub(crate) fn plain_operand(post: Option<u8>, wanted: Wanted) -> Operand<'static>
    ensures post { result.post ≡ post }
    ensures wanted { result.wanted ≡ wanted }
    ensures expression { result.expression.now ≡ [] }
{
    Operand {
        post,
        wanted,
        expression: b"",
    }
}

/// The operand with the value of this text, if the text is an expression.
pub(crate) fn valued(post: Option<u8>, field: Field, text: &[u8]) -> Option<Operand<'_>>
    ensures { option_map operand_of result ≡ valued_model post field text.now }
{
    if is_expression(text) {
        Some(Operand {
            post,
            wanted: Wanted::Value(field),
            expression: text,
        })
    } else {
        None
    }
}

// `#` and an expression.
fn immediate_operand(field: Field, text: &[u8]) -> Option<Operand<'_>>
    ensures { option_map operand_of result ≡ immediate_operand_model field text.now }
{
    match text {
        [b'#', rest @ ..] => valued(None, field, rest),
        _ => None,
    }
}

// The operand of a push or pull: registers, or `#` and the whole mask.
fn mask_operand(stack: Stack, text: &[u8]) -> Option<Operand<'_>>
    ensures { option_map operand_of result ≡ mask_operand_model stack text.now }
{
    match text {
        [] => None,
        [b'#', rest @ ..] => valued(None, Field::Byte, rest),
        _ => {
            let mask = register_mask(stack, text)?;
            Some(plain_operand(None, Wanted::Fixed(mask)))
        }
    }
}

// The operand of a row with a byte after the opcode.
fn immediate8(operation: Operation, text: &[u8]) -> Option<Operand<'_>>
    ensures { option_map operand_of result ≡ immediate8_model operation text.now }
{
    match operation {
        Operation::Psh(stack) | Operation::Pul(stack) => mask_operand(stack, text),
        _ => immediate_operand(Field::Byte, text),
    }
}

// `<` and an expression.
fn direct_operand(text: &[u8]) -> Option<Operand<'_>>
    ensures { option_map operand_of result ≡ direct_operand_model text.now }
{
    match text {
        [b'<', rest @ ..] => valued(None, Field::Direct, rest),
        _ => None,
    }
}

// An expression, with or without `>`.
fn address_operand(text: &[u8]) -> Option<Operand<'_>>
    ensures { option_map operand_of result ≡ address_operand_model text.now }
{
    match text {
        [] => None,
        [b'>', rest @ ..] => valued(None, Field::Word, rest),
        _ => valued(None, Field::Word, text),
    }
}

// Two registers of one size.
fn pair_operand(text: &[u8]) -> Option<Operand<'_>>
    ensures { option_map operand_of result ≡ pair_operand_model text.now }
{
    let pair = register_pair(text)?;
    Some(plain_operand(None, Wanted::Fixed(pair)))
}

/// The operand of a row of the opcode map, if the text is one.
#[tactic(auto, unfolding(asm_model::specs::Operands::row_operand))]
pub(crate) fn row_operand(row: Row, text: &[u8]) -> Option<Operand<'_>>
    ensures { option_map operand_of result ≡ row_operand_model row text.now }
{
    match row.1 {
        Mode::Inherent => Some(plain_operand(None, Wanted::Nothing)),
        Mode::Immediate8 => immediate8(row.0, text),
        Mode::Immediate16 => immediate_operand(Field::Word, text),
        Mode::Direct => direct_operand(text),
        Mode::Indexed => indexed_operand(text),
        Mode::Extended => address_operand(text),
        Mode::Relative8 => valued(None, Field::Target8, text),
        Mode::Relative16 => valued(None, Field::Target16, text),
        Mode::Pair => pair_operand(text),
    }
}
