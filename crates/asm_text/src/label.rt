ghost use Rattle.std.specs.Prelude.{◌≡◌};
ghost use Rattle.std.specs.List.{list_all};
ghost use Rattle.asm_model.specs.Expressions as model;

use crate::characters::is_same_word;

/// The greatest number of characters of a label.
const LONGEST: usize = 29;

// Is it a letter or `_`?
fn is_letter(c: u8) -> bool
    ensures { result ≡ model.is_letter c }
{
    c.is_ascii_uppercase() || c.is_ascii_lowercase() || c == b'_'
}

fn is_label_character(c: u8) -> bool
    ensures { result ≡ model.is_label_character c }
{
    is_letter(c) || c.is_ascii_digit()
}

fn are_label_characters(text: &[u8]) -> bool
    ensures { result ≡ list_all model.is_label_character text.now }
{
    text.iter().all(|c| is_label_character(*c))
}

// Is it the name of a register, in any case of letters?
fn is_register_name(text: &[u8]) -> bool
    ensures { result ≡ model.is_register_name text.now }
{
    is_same_word(b"A", text)
        || is_same_word(b"B", text)
        || is_same_word(b"D", text)
        || is_same_word(b"X", text)
        || is_same_word(b"Y", text)
        || is_same_word(b"U", text)
        || is_same_word(b"S", text)
        || is_same_word(b"PC", text)
        || is_same_word(b"CC", text)
        || is_same_word(b"DP", text)
}

/// Is it a label: a letter or `_`, then letters, digits and `_`, of at most 29 characters, and not
/// the name of a register?
pub fn is_label(text: &[u8]) -> bool
    ensures { result ≡ model.is_label text.now }
{
    match text {
        [] => false,
        [c, rest @ ..] => {
            is_letter(*c)
                && are_label_characters(rest)
                && text.len() <= LONGEST
                && !is_register_name(text)
        }
    }
}
