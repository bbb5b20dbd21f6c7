//! The words of the console.

ghost use Rattle.std.specs.Prelude.{◌≡◌, ◌+◌, ◌∷◌, ◌++◌, None, Some, [], IfOk, map, option_map, string_bytes, take};
ghost use Rattle.os9_words.specs.Command.{most_images, IsBoot, OnRefused};
ghost use Rattle.os9_console.specs.Words.{console_of, option_words, replay_words};
ghost use Rattle.os9_console.specs.Words as model;

use boot_run::names::name_in;
use boot_run::status::Input;
use option_reader::{GivenWords, read_given};
use os9_words::command::{Command, RunWords, WordsFault, read_words};
use std::alloc::{AllocError, Global};

/// One image more than a boot takes.
const TOO_MANY_IMAGES: usize = 5;

/// The words of the console.
#[derive(Debug, Drop)]
pub struct ConsoleWords {
    /// Those of a boot over the record of the session, if it is recorded.
    pub boot: RunWords,
    /// Is the session recorded?
    pub recorded: bool,
}

/// Reads the words after the program's name: `IMAGE..`, with `--blocks N`, `--time T` and `--record
/// NAME` or not.
///
/// # Errors
///
/// `Refused` if the words are not a command line. A record that would be written over an image is
/// refused.
pub(crate) fn read_console(alloc: Global, words: &[String]) -> Result<ConsoleWords, WordsFault>
    ensures words { IfOk result (λ read. console_of (map string_bytes words.now) ≡ Some read) }
    ensures complete { IfOk result (λ read. IsBoot read.boot) }
    ensures refused { OnRefused result (console_of (map string_bytes words.now) ≡ None) }
{
    let options = ["blocks", "time", "record"];
    let given = match read_given(alloc, &options, words) {
        Ok(Some(given)) => given,
        Ok(None) => return Err(WordsFault::Refused),
        Err(_) => return Err(WordsFault::OutOfMemory),
    };
    let Ok(boot) = words_of_boot(alloc, &given) else {
        return Err(WordsFault::OutOfMemory);
    };
    let boot = match read_words(alloc, boot.as_slice()) {
        Ok(Command::Boot(boot)) => boot,
        Ok(_) => return Err(WordsFault::Refused),
        Err(fault) => return Err(fault),
    };
    let recorded = given.value("record").is_some();
    if recorded && overwrites(&boot) {
        return Err(WordsFault::Refused);
    }
    Ok(ConsoleWords { boot, recorded })
}

/// The words of a boot over the record of a session: `boot --script=NAME.script
/// --slices=NAME.slices`, with the blocks and the time that are given, and its images after `--`.
fn words_of_boot(alloc: Global, given: &GivenWords<'_>) -> Result<Vec<String>, AllocError>
    ensures { IfOk result (λ words. map string_bytes words.items ≡ replay_words given.now) }
{
    let mut words = Vec::new(alloc);
    words.push(String::from_str(alloc, "boot")?)?;
    let name = given.value("record").unwrap_or("session");
    push_option(alloc, &mut words, "--script=", name, ".script")?;
    push_option(alloc, &mut words, "--slices=", name, ".slices")?;
    push_value(alloc, &mut words, "--blocks=", given.value("blocks"))?;
    push_value(alloc, &mut words, "--time=", given.value("time"))?;
    words.push(String::from_str(alloc, "--")?)?;
    push_images(alloc, &mut words, given)?;
    Ok(words)
}

/// Appends the first arguments to these words: one more than a boot takes.
fn push_images(
    alloc: Global,
    words: &mut Vec<String>,
    given: &GivenWords<'_>,
) -> Result<(), AllocError>
    ensures { IfOk result (λ _. map string_bytes words.new.items
        ≡ map string_bytes words.old.items ++ take (most_images + 1) given.now.arguments) }
{
    for place in 0..TOO_MANY_IMAGES {
        let Some(image) = given.argument(place) else {
            return Ok(());
        };
        words.push(String::from_str(alloc, image)?)?;
    }
    Ok(())
}

/// Appends an option to these words if it has a value.
fn push_value(
    alloc: Global,
    words: &mut Vec<String>,
    option: &str,
    value: Option<&str>,
) -> Result<(), AllocError>
    ensures { IfOk result (λ _. map string_bytes words.new.items ≡ map string_bytes words.old.items
        ++ option_words option.now (option_map (λ value. value.now) value.entry)) }
{
    match value {
        Some(value) => push_option(alloc, words, option, value, ""),
        None => Ok(()),
    }
}

/// Appends an option with its value to these words.
fn push_option(
    alloc: Global,
    words: &mut Vec<String>,
    option: &str,
    value: &str,
    ending: &str,
) -> Result<(), AllocError>
    ensures { IfOk result (λ _. map string_bytes words.new.items
        ≡ map string_bytes words.old.items ++ (option.now ++ value.now ++ ending.now) ∷ []) }
{
    let mut word = String::from_str(alloc, option)?;
    word.push_str(value)?;
    word.push_str(ending)?;
    words.push(word)?;
    Ok(())
}

/// Has a file of the record the name of an image?
fn overwrites(boot: &RunWords) -> bool
    ensures { result ≡ model.overwrites boot.now }
{
    is_image(boot, name_in(boot, Input::Script)) || is_image(boot, boot.slices.text())
}

/// Has an image this name?
fn is_image(boot: &RunWords, name: &str) -> bool
    ensures { result ≡ model.is_image boot.now name.now }
{
    for place in 0..boot.files.len() {
        if name == boot.files.word(place).text() {
            return true;
        }
    }
    false
}
