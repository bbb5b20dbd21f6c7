ghost use Rattle.std.specs.Prelude.{◌≡◌};
ghost use Rattle.asm_model.specs.Characters as model;
ghost use Rattle.asm_model.specs.Characters.{same_word};

/// Is it `+` or `-`?
pub(crate) fn is_sign(c: u8) -> bool
    ensures { result ≡ model.is_sign c }
{
    c == b'+' || c == b'-'
}

/// Are they the same word, in any case of letters?
pub fn is_same_word(word: &[u8], text: &[u8]) -> bool
    ensures { result ≡ same_word word.now text.now }
{
    word.eq_ignore_ascii_case(text)
}
