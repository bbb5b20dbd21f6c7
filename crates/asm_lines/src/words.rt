ghost use Rattle.std.specs.Prelude.{◌≡◌};
ghost use Rattle.asm_model.specs.Statements as model;

use asm_model::directive::Directive;
use asm_text::is_same_word;

// The directive of this word in any case of letters.
pub(crate) fn directive_of(word: &[u8]) -> Option<Directive>
    ensures { result ≡ model.directive_of word.now }
{
    if is_same_word(b"MOD", word) {
        Some(Directive::Mod)
    } else if is_same_word(b"EMOD", word) {
        Some(Directive::Emod)
    } else if is_same_word(b"EQU", word) {
        Some(Directive::Equ)
    } else if is_same_word(b"FCB", word) {
        Some(Directive::Fcb)
    } else if is_same_word(b"FDB", word) {
        Some(Directive::Fdb)
    } else if is_same_word(b"FCC", word) {
        Some(Directive::Fcc)
    } else if is_same_word(b"FCS", word) {
        Some(Directive::Fcs)
    } else if is_same_word(b"OS9", word) {
        Some(Directive::Os9)
    } else {
        None
    }
}
