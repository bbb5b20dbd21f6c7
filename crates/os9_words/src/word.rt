ghost use Rattle.std.specs.Prelude.{◌≡◌, ◌<◌, ◌^◌, ◌∷◌, [], IfOk, List, Some, length, option_map, slice_get};

use std::alloc::{AllocError, Global};
use std::marker::Model;

/// A word of a command line, which is text.
#[derive(Debug, Drop)]
pub struct Word {
    text: String,
}

impl Model for Word {
    ghost use Rattle.std.specs.Prelude.{ℕ, List, string_bytes};

    ghost Value = { List ℕ };

    ghost view = { λ word. string_bytes word.text };
}

impl Word {
    /// A word with this text.
    pub(crate) fn copy_of(alloc: Global, text: &str) -> Result<Word, AllocError>
        ensures { IfOk result (λ word. word ≡ text.now) }
    {
        Ok(Word {
            text: String::from_str(alloc, text)?,
        })
    }

    /// The word's text.
    pub fn text(&self) -> &str
        ensures { result.now ≡ self.now }
    {
        self.text.as_str()
    }
}

/// Words of a command line, fewer than 4,294,967,296.
#[derive(Debug, Drop)]
pub struct Words {
    words: Vec<Word>,
}

impl Model for Words {
    ghost use Rattle.std.specs.Prelude.{ℕ, ◌<◌, ◌^◌, List, vec_len};

    ghost Value = { List (List ℕ) };

    ghost view = { λ words. words.words.items };

    ghost invariant = { λ words. vec_len words.words < 2 ^ 32 };
}

impl Words {
    /// The word alone.
    pub(crate) fn one(alloc: Global, word: Word) -> Result<Words, AllocError>
        ensures { IfOk result (λ words. words ≡ word ∷ []) }
    {
        let mut words = Vec::new(alloc);
        words.push(word)?;
        Ok(Words { words })
    }

    /// These words.
    pub(crate) fn of(words: Vec<Word>) -> Words
        requires { length words.items < 2 ^ 32 }
        ensures { result ≡ words.items }
    {
        Words { words }
    }

    /// The number of words.
    pub fn len(&self) -> u32
        ensures { result ≡ length self.now }
    {
        self.words.len() as u32
    }

    /// The word at place `i`, which is below the number of words.
    pub fn word(&self, i: u32) -> &Word
        requires { i < length self.now }
        ensures { slice_get self.now i ≡ Some result.now }
    {
        &self.words[i as usize]
    }

    /// The word at place `i`, or nothing if there are at most `i` words.
    pub fn get(&self, i: u32) -> Option<&Word>
        ensures { option_map (λ word. word.now) result ≡ slice_get self.now i }
    {
        self.words.get(i as usize)
    }
}
