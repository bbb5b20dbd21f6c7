ghost use Rattle.std.specs.Prelude.{◌≡◌, ℕ, option_map, true, Bool};
ghost use Rattle.std.specs.List.{list_all};
ghost use Rattle.asm_model.specs.Expressions.{Term as TermOf, terms, terms_after};
ghost use Rattle.asm_model.specs.Statements as model;
ghost use Rattle.asm_text.specs.Terms.{tested};

use crate::characters::is_sign;
use crate::term::{Numbers, Term, TermTest, read_term};

// The test that every term passes.
#[derive(Clone, Copy, Debug)]
struct Any;

impl TermTest for Any {
    ghost passes = { λ any t. true };

    fn is_passed(&self, _term: Term<'_>) -> bool {
        true
    }
}

// A test so far, with one more term; none if the text is not a term.
fn test_part<T: TermTest>(test: &T, is_passed: bool, part: &[u8]) -> Option<bool>
    ensures { result ≡ tested (T.passes test.now) is_passed part.now }
{
    let term = read_term(part)?;
    Some(is_passed && test.is_passed(term))
}

// Do the terms that follow a sign pass the test?
fn test_all<T: TermTest>(passes: &T, text: &[u8]) -> Option<bool>
    ensures { (sign : ℕ) → result ≡ option_map (list_all (λ t. T.passes passes.now t.term))
        (terms_after sign text.now) }
{
    let mut is_passed = true;
    let mut start = 0;
    for i in 0..text.len() {
        if is_sign(text[i]) {
            is_passed = test_part(passes, is_passed, &text[start..i])?;
            start = i + 1;
        }
    }
    test_part(passes, is_passed, &text[start..])
}

/// Do all terms of an expression pass the test? None if the text is not an expression.
pub fn every_term<T: TermTest>(text: &[u8], test: &T) -> Option<bool>
    ensures { result
        ≡ option_map (list_all (λ t. T.passes test.now t.term)) (terms text.now) }
{
    match text {
        [] => None,
        [c, rest @ ..] => {
            if *c == b'-' {
                test_all(test, rest)
            } else {
                test_all(test, text)
            }
        }
    }
}

/// Is the text an expression: an optional `-`, then terms joined by `+` and `-`?
pub fn is_expression(text: &[u8]) -> bool
    ensures { result ≡ model.is_expression text.now }
{
    every_term(text, &Any).is_some()
}

/// Is the text an expression of numbers alone?
pub fn is_constant_expression(text: &[u8]) -> bool
    ensures { result ≡ model.is_constant_expression text.now }
{
    every_term(text, &Numbers).unwrap_or(false)
}
