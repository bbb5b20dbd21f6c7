ghost use Rattle.std.specs.Prelude.{◌≡◌, Some, option_map};
ghost use Rattle.script_text.specs.Lines.{line_words};
ghost use Rattle.os9_debug.specs.Cuts.{cut_words, of_only};

use text_values::{first_space, without_spaces};

/// A line that was cut after its first word.
#[derive(Clone, Copy)]
pub(crate) struct Cut<'a> {
    pub(crate) word: &'a [u8],
    pub(crate) rest: &'a [u8],
}

/// Cuts a line after its first word, if it has one.
pub(crate) fn cut_word(line: &[u8]) -> Option<Cut>
    ensures { cut_words result ≡ line_words line.now }
{
    let (word, rest) = {
        let line = without_spaces(line);
        line.split_at(first_space(line))
    };
    if word.is_empty() {
        None
    } else {
        Some(Cut { word, rest })
    }
}

/// The word of a line with one word.
pub(crate) fn only_word(line: &[u8]) -> Option<&[u8]>
    ensures { option_map (λ word. word.now) result ≡ of_only Some (line_words line.now) }
{
    let first = cut_word(line)?;
    match cut_word(first.rest) {
        None => Some(first.word),
        Some(_) => None,
    }
}
