ghost use Rattle.std.specs.Prelude.{◌≡◌, option_and_then};
ghost use Rattle.asm_model.specs.Placement as model;
ghost use Rattle.asm_lines.specs.Labels.{expression_in, is_term_in, names_in, term_in};

use crate::table::Labels;
use asm_text::{Meaning, Term, TermTest, every_term, value_of};

// A value that a label or `*` can have: one that fits 64 bits with a sign.
fn held(value: i128) -> Option<i64>
    ensures { result ≡ model.held value }
{
    if i128::from(i64::MIN) <= value && value <= i128::from(i64::MAX) {
        Some(value as i64)
    } else {
        None
    }
}

// The value of `*` at this offset.
pub(crate) fn offset_value(offset: Option<u64>) -> Option<i64>
    ensures { result ≡ model.offset_value offset }
{
    held(i128::from(offset?))
}

/// A place in a source: the labels known there, and its offset, if that is known.
#[derive(Clone, Copy)]
pub struct Place<'a, 'b> {
    pub labels: &'b Labels<'a>,
    pub offset: Option<u64>,
}

impl Meaning for Place<'_, '_> {
    ghost meaning = { λ place t. term_in place.labels.now place.offset t };

    fn value(&self, term: Term<'_>) -> Option<i64> {
        match term {
            Term::Number(n) => Some(i64::from(n)),
            Term::Label(name) => self.labels.get(name)?,
            Term::Here => offset_value(self.offset),
        }
    }
}

// Is a term not a label, or one of these labels?
#[derive(Clone, Copy)]
struct Known<'a, 'b> {
    labels: &'b Labels<'a>,
}

impl TermTest for Known<'_, '_> {
    ghost passes = { λ known t. is_term_in known.labels.now t };

    fn is_passed(&self, term: Term<'_>) -> bool {
        match term {
            Term::Label(name) => self.labels.get(name).is_some(),
            _ => true,
        }
    }
}

/// The value of an expression at a place, if its labels have values.
pub fn value_at(place: Place, text: &[u8]) -> Option<i128>
    ensures { result ≡ expression_in place.entry.labels.now place.entry.offset text.now }
{
    value_of(text, &place)
}

// The value of an expression at a place, if a label can have it.
pub(crate) fn held_at(place: Place, text: &[u8]) -> Option<i64>
    ensures { result ≡ option_and_then model.held
        (expression_in place.entry.labels.now place.entry.offset text.now) }
{
    held(value_at(place, text)?)
}

// Are all labels of an expression among these?
pub(crate) fn are_names_known(labels: &Labels, text: &[u8]) -> bool
    ensures { result ≡ names_in labels.now text.now }
{
    every_term(text, &Known { labels }).unwrap_or(true)
}
