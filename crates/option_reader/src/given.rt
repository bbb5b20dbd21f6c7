ghost use Rattle.std.specs.Prelude.{◌≡◌, ◌≢◌, [], IfOk, map, option_map, slice_get, string_bytes};
ghost use Rattle.std.specs.List.{All};
ghost use Rattle.option_reader.specs.Given as model;
ghost use Rattle.option_reader.specs.Given.{value_of, words_give};

use crate::command::command_with;
use crate::dash::has_dash_value;
use clap::ArgMatches;
use clap::error::ErrorKind;
use std::alloc::{AllocError, Global};
use std::marker::Model;

/// Options with their values, and arguments.
#[derive(Debug, Drop)]
pub struct GivenWords<'a> {
    matches: ArgMatches<'a>,
}

impl<'a> Model for GivenWords<'a> {
    ghost use Rattle.std.specs.List.{All};
    ghost use Rattle.clap.specs.Words.{found_of, rows_of};
    ghost use Rattle.option_reader.specs.Given.{Given};
    ghost use Rattle.option_reader.specs.Rows.{HasOptionValue, given_of};

    ghost Value = { Given };

    ghost view = { λ words. given_of (rows_of (found_of words.matches)) };

    ghost invariant = { λ words. All HasOptionValue (rows_of (found_of words.matches)) };
}

impl<'a> GivenWords<'a> {
    /// The value of an option, or nothing if the option is not given.
    pub fn value(&self, name: &str) -> Option<&'a str>
        requires { name.now ≢ [] }
        ensures { option_map (λ value. value.now) result ≡ value_of self.now name.now }
    {
        self.matches.get_str(name)
    }

    /// The argument, or nothing if there is none or more than one.
    pub fn only_argument(&self) -> Option<&'a str>
        ensures { option_map (λ argument. argument.now) result ≡ model.only_argument self.now }
    {
        match self.argument(1) {
            Some(_) => None,
            None => self.argument(0),
        }
    }

    /// The argument at a place, from 0 in the order of the words, or nothing if there are fewer.
    pub fn argument(&self, place: usize) -> Option<&'a str>
        ensures { option_map (λ argument. argument.now) result
            ≡ slice_get self.now.arguments place }
    {
        self.matches.get_raw("")?.get(place).copied()
    }
}

/// Reads the words after a command with options of these names (this project's own).
///
/// The answer is `None` if the words are refused.
///
/// # Errors
///
/// Out of memory.
pub fn read_given<'a>(
    alloc: Global,
    names: &'a [&'a str],
    words: &'a [String],
) -> Result<Option<GivenWords<'a>>, AllocError>
    requires { All (λ name. name.now ≢ []) names.now }
    ensures { IfOk result (λ given. given
        ≡ words_give (map (λ name. name.now) names.now) (map string_bytes words.now)) }
{
    if has_dash_value(words) {
        return Ok(None);
    }
    let command = command_with(alloc, names)?;
    match command.try_get_matches_from(words) {
        Ok(matches) => Ok(Some(GivenWords { matches })),
        Err(error) => match error.kind() {
            ErrorKind::OutOfMemory => Err(AllocError),
            _ => Ok(None),
        },
    }
}
