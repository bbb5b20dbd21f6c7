ghost use Rattle.std.specs.Prelude.{◌≡◌, ◌≢◌, ◌<◌, ◌≤◌, ◌&&◌, nat_le, true, None, Some, IfOk, IfSome, [], ◌∷◌, codes, length, map, option_and_then, option_map, string_bytes, take};
ghost use Rattle.std.specs.List.{All};
ghost use Rattle.time_rules.specs.CivilTime.{is_time_packet};
ghost use Rattle.os9_words.specs.Command.{boot_options, command_of, check_options, most_images, stress_options, IsCommand, IsRun, OnRefused};
ghost use Rattle.os9_words.specs.Command.{boot_of as boot_of_model, check_of as check_of_model, run_of as run_of_model};
ghost use Rattle.os9_words.specs.Command.{seed_of as seed_of_model, stress_of as stress_of_model};
ghost use Rattle.os9_words.specs.Times.{time_of as time_of_model};
ghost use Rattle.os9_words.specs.Asm.{asm_of as asm_of_model, asm_options};
ghost use Rattle.os9_words.specs.Debug.{debug_of as debug_of_model, debug_options};
ghost use Rattle.os9_words.specs.Run.{blocks_of as blocks_of_model, run_options, run_words_of};
ghost use Rattle.os9_words.specs.Vol.{vol_of as vol_of_model, vol_options};
ghost use Rattle.os9_words.specs.declared.command.Command.TheVariants.{Asm, Debug, Vol};
ghost use Rattle.option_reader.specs.Given.{value_of, words_give};

use crate::asm_words::{AsmWords, read_asm};
use crate::debug_words::{DebugWords, read_debug};
use crate::vol_words::{VolWords, read_vol};
use crate::word::{Word, Words};
use option_reader::{GivenWords, read_given};
use os9_base::registers::TimePacket;
use os9_clock::read_time;
use std::alloc::{AllocError, Global};
use text_values::read_number;
use thiserror::Error;

/// The words of a command that runs programs.
#[derive(Debug, Drop)]
pub struct RunWords {
    /// The file of modules of a run, or the images of a boot, the image for D0 first.
    pub files: Words,
    /// The file with the keys of the terminals, if one is given.
    pub script: Option<Word>,
    /// The file with the list of slices.
    pub slices: Word,
    /// The number of memory blocks, from 8 to 256.
    pub blocks: u16,
    /// The date and time at the start.
    pub start: TimePacket,
    /// The file in which a boot writes the history of its record locks, if one is given.
    pub history: Option<Word>,
}

// The words for a machine that runs programs: the files with the keys of its terminals and with its
// slices, the number of its memory blocks, and its date and time at the start.
#[derive(Clone, Copy)]
struct MachineWords<'a> {
    script: Option<&'a str>,
    slices: &'a str,
    blocks: u16,
    start: TimePacket,
}

/// A command line.
#[derive(Debug, Drop)]
pub enum Command {
    /// `run MODULES --slices SLICES`, optionally with `--script SCRIPT`, `--blocks N` and
    /// `--time T`: runs the program of a file of modules.
    Run(RunWords),
    /// `boot IMAGE.. --script SCRIPT --slices SLICES`, optionally with `--blocks N`, `--time T` and
    /// `--history FILE`: runs the program of the boot file of the first of one to four images.
    Boot(RunWords),
    /// `check IMAGE`: tests the image in a file.
    Check(Word),
    /// `stress N`: runs the programs of the load with seed N, which is below 2,147,483,648.
    Stress(u32),
    /// `vol VERB IMAGE ..`, optionally with `--time T`: reads or changes the image of a disk.
    Vol(VolWords),
    /// `asm SOURCE OUT`: assembles the source in a file to the module in a file.
    Asm(AsmWords),
    /// `debug MODULES --slices SLICES --commands COMMANDS`, optionally with `--script SCRIPT`,
    /// `--blocks N` and `--time T`: stops at any event of such a run, and shows its machine there.
    Debug(DebugWords),
}

/// Why words were not read.
#[derive(Clone, Copy, Debug, PartialEq, Eq, Error)]
pub enum WordsFault {
    /// The words are not a command line.
    #[error("words")]
    Refused,
    /// Out of memory.
    #[error("no memory")]
    OutOfMemory,
}

/// The number of blocks without the option `--blocks`.
const DEFAULT_BLOCKS: u16 = 64;

/// The least number that `--blocks` takes.
const FEWEST_BLOCKS: u32 = 8;

/// The greatest number that `--blocks` takes.
const MOST_BLOCKS: u32 = 256;

/// The greatest number of images that `boot` takes.
const MOST_IMAGES: usize = 4;

/// The start without the option `--time`: the beginning of 1990.
const DEFAULT_START: TimePacket = TimePacket {
    year: 90,
    month: 1,
    day: 1,
    hour: 0,
    minute: 0,
    second: 0,
};

/// The greatest seed that `stress` takes.
const MOST_SEED: u32 = 2_147_483_647;

/// Reads the words of a command line, without the program's own name (this project's own).
///
/// # Errors
///
/// `Refused` if the words do not spell a command.
pub fn read_words(alloc: Global, words: &[String]) -> Result<Command, WordsFault>
    ensures command { IfOk result (λ command.
        command_of (map string_bytes words.now) ≡ Some command) }
    ensures complete { IfOk result IsCommand }
    ensures refused { OnRefused result (command_of (map string_bytes words.now) ≡ None) }
{
    let [command, words @ ..] = words else {
        return Err(WordsFault::Refused);
    };
    match command.as_str() {
        "run" => read_run(alloc, words),
        "boot" => read_boot(alloc, words),
        "check" => read_check(alloc, words),
        "stress" => read_stress(alloc, words),
        "vol" => read_tool(alloc, words),
        "asm" => read_source(alloc, words),
        "debug" => read_session(alloc, words),
        _ => Err(WordsFault::Refused),
    }
}

// Reads the words after `run`.
fn read_run(alloc: Global, words: &[String]) -> Result<Command, WordsFault>
    ensures command { IfOk result (λ read. option_and_then run_of_model
        (words_give run_options (map string_bytes words.now)) ≡ Some read) }
    ensures complete { IfOk result IsCommand }
    ensures refused { OnRefused result (option_and_then run_of_model
        (words_give run_options (map string_bytes words.now)) ≡ None) }
{
    let names = ["slices", "script", "blocks", "time"];
    let given = read_options(alloc, &names, words)?;
    run_of(alloc, &given)
}

// Reads the words after `boot`.
fn read_boot(alloc: Global, words: &[String]) -> Result<Command, WordsFault>
    ensures command { IfOk result (λ read. option_and_then boot_of_model
        (words_give boot_options (map string_bytes words.now)) ≡ Some read) }
    ensures complete { IfOk result IsCommand }
    ensures refused { OnRefused result (option_and_then boot_of_model
        (words_give boot_options (map string_bytes words.now)) ≡ None) }
{
    let options = ["slices", "script", "blocks", "time", "history"];
    let given = read_options(alloc, &options, words)?;
    boot_of(alloc, &given)
}

// Reads the words after `check`.
fn read_check(alloc: Global, words: &[String]) -> Result<Command, WordsFault>
    ensures command { IfOk result (λ read. option_and_then check_of_model
        (words_give check_options (map string_bytes words.now)) ≡ Some read) }
    ensures complete { IfOk result IsCommand }
    ensures refused { OnRefused result (option_and_then check_of_model
        (words_give check_options (map string_bytes words.now)) ≡ None) }
{
    let given = read_options(alloc, &[], words)?;
    check_of(alloc, &given)
}

// Reads the words after `stress`.
fn read_stress(alloc: Global, words: &[String]) -> Result<Command, WordsFault>
    ensures command { IfOk result (λ read. option_and_then stress_of_model
        (words_give stress_options (map string_bytes words.now)) ≡ Some read) }
    ensures complete { IfOk result IsCommand }
    ensures refused { OnRefused result (option_and_then stress_of_model
        (words_give stress_options (map string_bytes words.now)) ≡ None) }
{
    stress_of(&read_options(alloc, &[], words)?)
}

// Reads the words after `vol`.
fn read_tool(alloc: Global, words: &[String]) -> Result<Command, WordsFault>
    ensures command { IfOk result (λ read. option_map Vol (option_and_then vol_of_model
        (words_give vol_options (map string_bytes words.now))) ≡ Some read) }
    ensures complete { IfOk result IsCommand }
    ensures refused { OnRefused result (option_map Vol (option_and_then vol_of_model
        (words_give vol_options (map string_bytes words.now))) ≡ None) }
{
    match read_vol(alloc, words) {
        Ok(vol) => Ok(Command::Vol(vol)),
        Err(fault) => Err(fault),
    }
}

// Reads the words after `asm`.
fn read_source(alloc: Global, words: &[String]) -> Result<Command, WordsFault>
    ensures command { IfOk result (λ read. option_map Asm (option_and_then asm_of_model
        (words_give asm_options (map string_bytes words.now))) ≡ Some read) }
    ensures complete { IfOk result IsCommand }
    ensures refused { OnRefused result (option_map Asm (option_and_then asm_of_model
        (words_give asm_options (map string_bytes words.now))) ≡ None) }
{
    match read_asm(alloc, words) {
        Ok(asm) => Ok(Command::Asm(asm)),
        Err(fault) => Err(fault),
    }
}

// Reads the words after `debug`.
fn read_session(alloc: Global, words: &[String]) -> Result<Command, WordsFault>
    ensures command { IfOk result (λ read. option_map Debug (option_and_then debug_of_model
        (words_give debug_options (map string_bytes words.now))) ≡ Some read) }
    ensures complete { IfOk result IsCommand }
    ensures refused { OnRefused result (option_map Debug (option_and_then debug_of_model
        (words_give debug_options (map string_bytes words.now))) ≡ None) }
{
    match read_debug(alloc, words) {
        Ok(debug) => Ok(Command::Debug(debug)),
        Err(fault) => Err(fault),
    }
}

// Reads the words after a command with options of these names.
pub(crate) fn read_options<'a>(
    alloc: Global,
    names: &'a [&'a str],
    words: &'a [String],
) -> Result<GivenWords<'a>, WordsFault>
    requires { All (λ name. name.now ≢ []) names.now }
    ensures given { IfOk result (λ given. words_give (map (λ name. name.now) names.now)
        (map string_bytes words.now) ≡ Some given) }
    ensures refused { OnRefused result (words_give (map (λ name. name.now) names.now)
        (map string_bytes words.now) ≡ None) }
{
    match read_given(alloc, names, words) {
        Ok(Some(given)) => Ok(given),
        Ok(None) => Err(WordsFault::Refused),
        Err(_) => Err(WordsFault::OutOfMemory),
    }
}

// `run MODULES --slices SLICES`, optionally with `--script SCRIPT`, `--blocks N` and `--time T`.
fn run_of(alloc: Global, given: &GivenWords<'_>) -> Result<Command, WordsFault>
    ensures command { IfOk result (λ read. run_of_model given.now ≡ Some read) }
    ensures complete { IfOk result IsCommand }
    ensures refused { OnRefused result (run_of_model given.now ≡ None) }
{
    match run_given(alloc, given) {
        Ok(run) => Ok(Command::Run(run)),
        Err(fault) => Err(fault),
    }
}

// The words of a run.
pub(crate) fn run_given(alloc: Global, given: &GivenWords<'_>) -> Result<RunWords, WordsFault>
    ensures words { IfOk result (λ run. run_words_of given.now ≡ Some run) }
    ensures complete { IfOk result IsRun }
    ensures refused { OnRefused result (run_words_of given.now ≡ None) }
{
    let modules = given.only_argument();
    let slices = given.value("slices");
    let blocks = blocks_of(given);
    let start = time_of(given);
    let (Some(modules), Some(slices), Some(blocks), Some(start)) = (modules, slices, blocks, start)
    else {
        return Err(WordsFault::Refused);
    };
    let machine = MachineWords {
        script: given.value("script"),
        slices,
        blocks,
        start,
    };
    match run_words(alloc, modules, machine) {
        Ok(run) => Ok(run),
        Err(_) => Err(WordsFault::OutOfMemory),
    }
}

// `boot IMAGE.. --script SCRIPT --slices SLICES`, optionally with `--blocks N`, `--time T` and
// `--history FILE`.
fn boot_of(alloc: Global, given: &GivenWords<'_>) -> Result<Command, WordsFault>
    ensures command { IfOk result (λ read. boot_of_model given.now ≡ Some read) }
    ensures complete { IfOk result IsCommand }
    ensures refused { OnRefused result (boot_of_model given.now ≡ None) }
{
    let script = given.value("script");
    let slices = given.value("slices");
    let blocks = blocks_of(given);
    let start = time_of(given);
    let (Some(script), Some(slices), Some(blocks), Some(start)) = (script, slices, blocks, start)
    else {
        return Err(WordsFault::Refused);
    };
    if !has_images(given) {
        return Err(WordsFault::Refused);
    }
    let machine = MachineWords {
        script: Some(script),
        slices,
        blocks,
        start,
    };
    match boot_words(alloc, given, machine) {
        Ok(boot) => Ok(Command::Boot(boot)),
        Err(_) => Err(WordsFault::OutOfMemory),
    }
}

// Are there one to four arguments?
fn has_images(given: &GivenWords<'_>) -> bool
    ensures { result ≡ (nat_le 1 (length given.now.arguments)
        && nat_le (length given.now.arguments) most_images) }
{
    given.argument(0).is_some() && given.argument(MOST_IMAGES).is_none()
}

fn boot_words(
    alloc: Global,
    given: &GivenWords<'_>,
    machine: MachineWords<'_>,
) -> Result<RunWords, AllocError>
    ensures { IfOk result (λ run. run ≡ record {
      files = take most_images given.now.arguments;
      script = option_map (λ script. script.now) machine.entry.script;
      slices = machine.entry.slices.now;
      blocks = machine.entry.blocks;
      start = machine.entry.start;
      history = value_of given.now (codes "history");
    }) }
{
    Ok(RunWords {
        files: image_words(alloc, given)?,
        script: copy_if_given(alloc, machine.script)?,
        slices: Word::copy_of(alloc, machine.slices)?,
        blocks: machine.blocks,
        start: machine.start,
        history: copy_if_given(alloc, given.value("history"))?,
    })
}

// The first four arguments.
fn image_words(alloc: Global, given: &GivenWords<'_>) -> Result<Words, AllocError>
    ensures { IfOk result (λ words. words ≡ take most_images given.now.arguments) }
{
    let mut words = Vec::new(alloc);
    for place in 0..MOST_IMAGES {
        let Some(argument) = given.argument(place) else {
            break;
        };
        words.push(Word::copy_of(alloc, argument)?)?;
    }
    Ok(Words::of(words))
}

// `check IMAGE`.
fn check_of(alloc: Global, given: &GivenWords<'_>) -> Result<Command, WordsFault>
    ensures command { IfOk result (λ read. check_of_model given.now ≡ Some read) }
    ensures complete { IfOk result IsCommand }
    ensures refused { OnRefused result (check_of_model given.now ≡ None) }
{
    let Some(image) = given.only_argument() else {
        return Err(WordsFault::Refused);
    };
    match Word::copy_of(alloc, image) {
        Ok(image) => Ok(Command::Check(image)),
        Err(_) => Err(WordsFault::OutOfMemory),
    }
}

// `stress N`.
fn stress_of(given: &GivenWords<'_>) -> Result<Command, WordsFault>
    ensures command { IfOk result (λ read. stress_of_model given.now ≡ Some read) }
    ensures complete { IfOk result IsCommand }
    ensures refused { OnRefused result (stress_of_model given.now ≡ None) }
{
    let Some(number) = given.only_argument() else {
        return Err(WordsFault::Refused);
    };
    match seed_of(number) {
        Some(seed) => Ok(Command::Stress(seed)),
        None => Err(WordsFault::Refused),
    }
}

fn run_words(
    alloc: Global,
    modules: &str,
    machine: MachineWords<'_>,
) -> Result<RunWords, AllocError>
    ensures { IfOk result (λ run. run ≡ record {
      files = modules.now ∷ [];
      script = option_map (λ script. script.now) machine.entry.script;
      slices = machine.entry.slices.now;
      blocks = machine.entry.blocks;
      start = machine.entry.start;
      history = None;
    }) }
{
    let modules = Word::copy_of(alloc, modules)?;
    Ok(RunWords {
        files: Words::one(alloc, modules)?,
        script: copy_if_given(alloc, machine.script)?,
        slices: Word::copy_of(alloc, machine.slices)?,
        blocks: machine.blocks,
        start: machine.start,
        history: None,
    })
}

// The word with this text, if there is one.
fn copy_if_given(alloc: Global, text: Option<&str>) -> Result<Option<Word>, AllocError>
    ensures { IfOk result (λ word. word ≡ option_map (λ text. text.now) text.entry) }
{
    match text {
        Some(text) => Ok(Some(Word::copy_of(alloc, text)?)),
        None => Ok(None),
    }
}

// The number of blocks: 64 without `--blocks`.
fn blocks_of(given: &GivenWords<'_>) -> Option<u16>
    ensures number { result ≡ blocks_of_model given.now }
    ensures least { IfSome result (λ blocks. 8 ≤ blocks) }
    ensures most { IfSome result (λ blocks. blocks ≤ 256) }
{
    let Some(number) = given.value("blocks") else {
        return Some(DEFAULT_BLOCKS);
    };
    let blocks = read_number(number.as_bytes(), FEWEST_BLOCKS, MOST_BLOCKS)?;
    Some(blocks as u16)
}

// The date and time at the start: the beginning of 1990 without `--time`.
pub(crate) fn time_of(given: &GivenWords<'_>) -> Option<TimePacket>
    ensures time { result ≡ time_of_model given.now }
    ensures civil { IfSome result (λ start. is_time_packet start ≡ true) }
{
    match given.value("time") {
        Some(text) => read_time(text.as_bytes()),
        None => Some(DEFAULT_START),
    }
}

// The seed that a number spells.
fn seed_of(number: &str) -> Option<u32>
    ensures seed { result ≡ seed_of_model number.now }
    ensures most { IfSome result (λ seed. seed < 2147483648) }
{
    read_number(number.as_bytes(), 0, MOST_SEED)
}
