ghost use Rattle.std.specs.Prelude.{◌≡◌, ◌≤◌, ◌∷◌, [], length, option_map, IfNone, IfSome};
ghost use Rattle.std.specs.List.{position_or_len, slice_split};
ghost use Rattle.asm_model.specs.Characters.{is_comma, is_quote};
ghost use Rattle.asm_model.specs.Statements as model;

// The parts of a text before and after its first comma.
#[derive(Clone, Copy, Debug)]
pub(crate) struct Cut<'a> {
    pub(crate) before: &'a [u8],
    pub(crate) behind: &'a [u8],
}

// The place of the first comma, or the end if there is none.
fn first_comma(text: &[u8]) -> usize
    ensures place { result ≡ position_or_len is_comma text.now }
    ensures within { result ≤ length text.now }
{
    text.iter().position(|c| *c == b',').unwrap_or(text.len())
}

// The place of the first quote, or the end if there is none.
fn first_quote(text: &[u8]) -> usize
    ensures place { result ≡ position_or_len is_quote text.now }
    ensures within { result ≤ length text.now }
{
    text.iter().position(|c| *c == b'"').unwrap_or(text.len())
}

// Cuts a text at its first comma, if it has one.
#[tactic(auto, using(crate::proofs::CutLemmas::split_none))]
pub(crate) fn cut_at_comma(text: &[u8]) -> Option<Cut<'_>>
    ensures whole { IfNone result (slice_split is_comma text.now ≡ text.now ∷ []) }
    ensures parts { IfSome result (λ cut. slice_split is_comma text.now
        ≡ cut.before.now ∷ slice_split is_comma cut.behind.now) }
{
    let place = first_comma(text);
    if place < text.len() {
        Some(Cut {
            before: &text[..place],
            behind: &text[place + 1..],
        })
    } else {
        None
    }
}

// Does the operand end here: at a space, or at the end of the line?
fn ends_there(text: &[u8]) -> bool
    ensures { result ≡ model.ends_there text.now }
{
    match text {
        [] => true,
        [c, ..] => *c == b' ',
    }
}

// The characters up to the next quote, if the operand ends after it.
#[tactic(auto, using(crate::proofs::CutLemmas::quoted_open, crate::proofs::CutLemmas::quoted_closed))]
fn up_to_quote(text: &[u8]) -> Option<&[u8]>
    ensures { option_map (λ chars. chars.now) result ≡ model.quoted (34 ∷ text.now) }
{
    let place = first_quote(text);
    if place < text.len() && ends_there(&text[place + 1..]) {
        Some(&text[..place])
    } else {
        None
    }
}

// The characters between quotes, if the operand ends after them.
pub(crate) fn quoted(text: &[u8]) -> Option<&[u8]>
    ensures { option_map (λ chars. chars.now) result ≡ model.quoted text.now }
{
    match text {
        [b'"', rest @ ..] => up_to_quote(rest),
        _ => None,
    }
}
