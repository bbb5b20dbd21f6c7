ghost use Rattle.std.specs.Prelude.{◌≡◌, ◌≤◌, length, MatchOption, [], ◌∷◌, option_map};
ghost use Rattle.std.specs.List.{list_any, slice_split, position_or_len};
ghost use Rattle.asm_model.specs.Characters.{is_comma};
ghost use Rattle.asm_model.specs.Operands as model;
ghost use Rattle.asm_text.specs.Cuts.{two_of, two_as};

/// The texts before and after a comma.
#[derive(Clone, Copy, Debug)]
pub(crate) struct Parts<'a> {
    pub(crate) first: &'a [u8],
    pub(crate) rest: &'a [u8],
}

/// Does the text have a comma?
pub(crate) fn has_comma(text: &[u8]) -> bool
    ensures { result ≡ list_any is_comma text.now }
{
    text.iter().any(|c| *c == b',')
}

// The place of the first comma, or the end if there is none.
fn first_comma(text: &[u8]) -> usize
    ensures place { result ≡ position_or_len is_comma text.now }
    ensures within { result ≤ length text.now }
{
    text.iter().position(|c| *c == b',').unwrap_or(text.len())
}

// The text cut at its first comma.
fn cut(text: &[u8]) -> Option<Parts<'_>>
    ensures { MatchOption result
        (slice_split is_comma text.now ≡ text.now ∷ [])
        (λ p. slice_split is_comma text.now ≡ p.first.now ∷ slice_split is_comma p.rest.now) }
{
    let place = first_comma(text);
    if place < text.len() {
        Some(Parts {
            first: &text[..place],
            rest: &text[place + 1..],
        })
    } else {
        None
    }
}

/// The two parts of a text with one comma.
pub(crate) fn two_parts(text: &[u8]) -> Option<Parts<'_>>
    ensures { option_map two_as result ≡ two_of (slice_split is_comma text.now) }
{
    let parts = cut(text)?;
    match cut(parts.rest) {
        None => Some(parts),
        Some(_) => None,
    }
}

/// The text up to a bracket at its end.
pub(crate) fn before_bracket(text: &[u8]) -> Option<&[u8]>
    ensures { option_map (λ inner. inner.now) result ≡ model.before_bracket text.now }
{
    text.strip_suffix(b"]")
}
