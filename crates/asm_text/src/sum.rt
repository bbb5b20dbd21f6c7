ghost use Rattle.std.specs.Prelude.{◌≡◌, ◌+◌, ◌<◌, ◌≤◌, ◌^◌, ℕ, ℤ, pos, neg_ℤ, ◌≤ℤ◌, ◌+ℤ◌, ◌-ℤ◌, IfSome, option_and_then, length, [], option_map};
ghost use Rattle.asm_model.specs.Expressions as model;
ghost use Rattle.asm_model.specs.Expressions.{terms, terms_after, value_after};
ghost use Rattle.asm_text.specs.Terms.{with_part};

use crate::characters::is_sign;
use crate::term::{Meaning, read_term};

// A value with one more term.
fn add<M: Meaning>(meaning: &M, value: i128, sign: u8, part: &[u8]) -> Option<i128>
    requires low { neg_ℤ (pos (2 ^ 126)) ≤ℤ value }
    requires high { value ≤ℤ pos (2 ^ 126) }
    ensures value { result ≡ with_part (M.meaning meaning.now) value sign part.now }
    ensures low { IfSome result (λ r. (value -ℤ pos (2 ^ 63)) ≤ℤ r) }
    ensures high { IfSome result (λ r. r ≤ℤ (value +ℤ pos (2 ^ 63))) }
{
    let n = i128::from(meaning.value(read_term(part)?)?);
    if sign == b'-' {
        Some(value - n)
    } else {
        Some(value + n)
    }
}

// The value of the terms that follow a sign.
fn sum<M: Meaning>(meaning: &M, sign: u8, text: &[u8]) -> Option<i128>
    ensures { result ≡ option_and_then (value_after (M.meaning meaning.now) (pos 0))
        (terms_after sign text.now) }
{
    let mut value = 0i128;
    let mut sign = sign;
    let mut start = 0;
    for i in 0..text.len() {
        let c = text[i];
        if is_sign(c) {
            value = add(meaning, value, sign, &text[start..i])?;
            sign = c;
            start = i + 1;
        }
    }
    add(meaning, value, sign, &text[start..])
}

/// The value of an expression, if the text is one and each of its terms has a value.
///
/// The sum is a whole number and never wraps, however long the text is.
pub fn value_of<M: Meaning>(text: &[u8], meaning: &M) -> Option<i128>
    ensures { result ≡ option_and_then (model.value_of (M.meaning meaning.now)) (terms text.now) }
{
    match text {
        [] => None,
        [c, rest @ ..] => {
            if *c == b'-' {
                sum(meaning, b'-', rest)
            } else {
                sum(meaning, b'+', text)
            }
        }
    }
}
