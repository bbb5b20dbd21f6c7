ghost use Rattle.std.specs.Prelude.{◌≡◌, ℤ, Option, option_map, true, false, Bool};
ghost use Rattle.asm_model.specs.Expressions as model;
ghost use Rattle.asm_model.specs.Expressions.{Term as TermOf, constant_meaning};
ghost use Rattle.asm_model.specs.Statements.{is_constant};
ghost use Rattle.asm_text.specs.Terms.{term_of};

use crate::label::is_label;
use crate::numbers::number;

/// A term of an expression.
#[derive(Clone, Copy, Debug)]
pub enum Term<'a> {
    /// A number.
    Number(u16),
    /// A label.
    Label(&'a [u8]),
    /// `*`: the offset of the statement itself.
    Here,
}

/// The values of terms.
pub trait Meaning {
    ghost meaning: { Self → TermOf → Option ℤ };

    /// The value of a term, if it has one; it fits 64 bits with a sign.
    fn value(&self, term: Term<'_>) -> Option<i64>
        ensures { result ≡ meaning self.now (term_of term.entry) };
}

/// A test of terms.
pub trait TermTest {
    ghost passes: { Self → TermOf → Bool };

    /// Does the term pass the test?
    fn is_passed(&self, term: Term<'_>) -> bool
        ensures { result ≡ passes self.now (term_of term.entry) };
}

/// Numbers alone: labels and `*` have no value and pass no test.
#[derive(Clone, Copy, Debug, Default)]
pub struct Numbers;

impl Meaning for Numbers {
    ghost meaning = { λ numbers t. constant_meaning t };

    fn value(&self, term: Term<'_>) -> Option<i64> {
        match term {
            Term::Number(n) => Some(i64::from(n)),
            _ => None,
        }
    }
}

impl TermTest for Numbers {
    ghost passes = { λ numbers t. is_constant t };

    fn is_passed(&self, term: Term<'_>) -> bool {
        matches!(term, Term::Number(_))
    }
}

/// The term that a text spells: `*`, a label or a number.
pub fn read_term(text: &[u8]) -> Option<Term<'_>>
    ensures { option_map term_of result ≡ model.term text.now }
{
    match text {
        [] => None,
        [b'*'] => Some(Term::Here),
        [b'*', ..] => None,
        _ => {
            if is_label(text) {
                Some(Term::Label(text))
            } else {
                Some(Term::Number(number(text)?))
            }
        }
    }
}
