ghost use Rattle.std.specs.Prelude.{◌≡◌};
ghost use Rattle.std.specs.Iterator.{YieldsFirstRef, item_count};
ghost use Rattle.script_text.specs.Lines.{line_words};

use text_values::{first_space, without_spaces};

/// The remaining words of a line: the nonempty parts between its spaces.
#[derive(Clone, Copy)]
pub(crate) struct Words<'a> {
    line: &'a [u8],
}

impl<'a> Words<'a> {
    /// The words of this line.
    pub(crate) fn of(line: &'a [u8]) -> Self
        ensures { result.line.now ≡ line.now }
    {
        Words { line }
    }
}

impl<'a> Iterator for Words<'a> {
    type Item = &'a [u8];

    ghost next_gives = { YieldsFirstRef (λ words. line_words words.line.now) };

    ghost remaining = { item_count (λ words. line_words words.line.now) };

    fn next(&mut self) -> Option<&'a [u8]> {
        let line = without_spaces(self.line);
        let (word, rest) = line.split_at(first_space(line));
        self.line = rest;
        if word.is_empty() { None } else { Some(word) }
    }
}
