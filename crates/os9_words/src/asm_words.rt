//! The words of `asm`, the assembler.

ghost use Rattle.std.specs.Prelude.{◌≡◌, IfOk, None, Some, map, option_and_then, string_bytes};
ghost use Rattle.option_reader.specs.Given.{words_give};
ghost use Rattle.os9_words.specs.Command.{OnRefused};
ghost use Rattle.os9_words.specs.Asm as model;
ghost use Rattle.os9_words.specs.Asm.{asm_options};

use crate::command::{WordsFault, read_options};
use crate::word::Word;
use option_reader::GivenWords;
use std::alloc::{AllocError, Global};

/// The words of `asm`.
#[derive(Debug, Drop)]
pub struct AsmWords {
    /// The file with the source.
    pub source: Word,
    /// The file for the module.
    pub out: Word,
}

// Reads the words after `asm`.
pub(crate) fn read_asm(alloc: Global, words: &[String]) -> Result<AsmWords, WordsFault>
    ensures words { IfOk result (λ read. option_and_then model.asm_of
        (words_give asm_options (map string_bytes words.now)) ≡ Some read) }
    ensures refused { OnRefused result (option_and_then model.asm_of
        (words_give asm_options (map string_bytes words.now)) ≡ None) }
{
    let given = read_options(alloc, &[], words)?;
    asm_of(alloc, &given)
}

// `asm SOURCE OUT`.
fn asm_of(alloc: Global, given: &GivenWords<'_>) -> Result<AsmWords, WordsFault>
    ensures words { IfOk result (λ read. model.asm_of given.now ≡ Some read) }
    ensures refused { OnRefused result (model.asm_of given.now ≡ None) }
{
    let source = given.argument(0);
    let out = given.argument(1);
    let more = given.argument(2);
    let (Some(source), Some(out), None) = (source, out, more) else {
        return Err(WordsFault::Refused);
    };
    match asm_words(alloc, source, out) {
        Ok(words) => Ok(words),
        Err(_) => Err(WordsFault::OutOfMemory),
    }
}

fn asm_words(alloc: Global, source: &str, out: &str) -> Result<AsmWords, AllocError>
    ensures { IfOk result (λ words. words ≡ record { source = source.now; out = out.now }) }
{
    Ok(AsmWords {
        source: Word::copy_of(alloc, source)?,
        out: Word::copy_of(alloc, out)?,
    })
}
