ghost use Rattle.std.specs.Prelude.{◌≡◌, MatchOption, true, false};
ghost use Rattle.std.specs.List.{list_all};
ghost use Rattle.os9_base.specs.Name as model;
ghost use Rattle.vol_tools.specs.Path.{is_name_text};
ghost use Rattle.vol_tools.specs.Names.{IsNameOf};

use os9_base::name::{Name, parse_name};

/// The name in a text (this project's own): 1 to 29 letters, digits, `_` and `.`. None if it is
/// another text.
pub fn name_of(text: &[u8]) -> Option<Name>
    ensures { MatchOption result (is_name_text text.now ≡ false) (IsNameOf text.now) }
{
    if !has_name_characters(text) {
        return None;
    }
    match parse_name(text) {
        Ok(name) => Some(name),
        Err(_) => None,
    }
}

// Whether all bytes are letters, digits, `_` or `.`.
fn has_name_characters(text: &[u8]) -> bool
    ensures { result ≡ list_all model.is_name_character text.now }
{
    text.iter().all(|byte| is_name_character(*byte))
}

// Whether it is a letter, a digit, `_` or `.`.
fn is_name_character(byte: u8) -> bool
    ensures { result ≡ model.is_name_character byte }
{
    matches!(byte, b'a'..=b'z' | b'A'..=b'Z' | b'0'..=b'9' | b'_' | b'.')
}
