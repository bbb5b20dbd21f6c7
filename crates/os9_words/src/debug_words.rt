//! The words of `debug`, the debugger.

ghost use Rattle.std.specs.Prelude.{◌≡◌, IfOk, None, Some, map, option_and_then, string_bytes};
ghost use Rattle.option_reader.specs.Given.{words_give};
ghost use Rattle.os9_words.specs.Command.{IsRun, OnRefused};
ghost use Rattle.os9_words.specs.Debug as model;
ghost use Rattle.os9_words.specs.Debug.{debug_options};

use crate::command::{RunWords, WordsFault, read_options, run_given};
use crate::word::Word;
use option_reader::GivenWords;
use std::alloc::Global;

/// The words of `debug`.
#[derive(Debug, Drop)]
pub struct DebugWords {
    /// The words of the run.
    pub run: RunWords,
    /// The file with the commands.
    pub commands: Word,
}

// Reads the words after `debug`.
pub(crate) fn read_debug(alloc: Global, words: &[String]) -> Result<DebugWords, WordsFault>
    ensures words { IfOk result (λ read. option_and_then model.debug_of
        (words_give debug_options (map string_bytes words.now)) ≡ Some read) }
    ensures complete { IfOk result (λ read. IsRun read.run) }
    ensures refused { OnRefused result (option_and_then model.debug_of
        (words_give debug_options (map string_bytes words.now)) ≡ None) }
{
    let names = ["slices", "commands", "script", "blocks", "time"];
    let given = read_options(alloc, &names, words)?;
    debug_of(alloc, &given)
}

// `debug MODULES --slices SLICES --commands COMMANDS`, optionally with `--script SCRIPT`,
// `--blocks N` and `--time T`.
fn debug_of(alloc: Global, given: &GivenWords<'_>) -> Result<DebugWords, WordsFault>
    ensures words { IfOk result (λ read. model.debug_of given.now ≡ Some read) }
    ensures complete { IfOk result (λ read. IsRun read.run) }
    ensures refused { OnRefused result (model.debug_of given.now ≡ None) }
{
    let run = match run_given(alloc, given) {
        Ok(run) => run,
        Err(fault) => return Err(fault),
    };
    let Some(commands) = given.value("commands") else {
        return Err(WordsFault::Refused);
    };
    match Word::copy_of(alloc, commands) {
        Ok(commands) => Ok(DebugWords { run, commands }),
        Err(_) => Err(WordsFault::OutOfMemory),
    }
}
