ghost use Rattle.std.specs.Prelude.{◌≡◌, Some};
ghost use Rattle.rbf_model.specs.Decides.{Decides};
ghost use Rattle.os9_base.specs.Name.{stored_name};

use os9_base::name::{Name, header_name};

// Whether the name is this text.
pub fn is_text(name: &Name, text: &[u8]) -> bool
    ensures { Decides result (name.now ≡ text.now) }
{
    if usize::from(name.len()) != text.len() {
        return false;
    }
    for i in 0..name.len() {
        if name.byte(i) != text[usize::from(i)] {
            return false;
        }
    }
    true
}

// Whether the name of an entry is this text.
pub fn spells(bytes: &[u8; 29], text: &[u8]) -> bool
    ensures { Decides result (stored_name bytes.now ≡ Some text.now) }
{
    match header_name(bytes) {
        Err(_) => false,
        Ok(name) => is_text(&name, text),
    }
}
