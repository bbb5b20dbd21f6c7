ghost use Rattle.std.specs.Prelude.{◌≡◌, ◌≤◌, ◌<◌, ◌++◌, Ok, Err, IfOk, IfSome, Option, false, map};
ghost use Rattle.script_text.specs.Fault.{OnRefusedLine};
ghost use Rattle.script_text.specs.Lines.{line_words};
ghost use Rattle.script_text.specs.Script as model;
ghost use Rattle.script_text.specs.Script.{terminal_of, byte_of, bytes_of, tick_of, key_at, keys_of, line_keys, AreKeys};
ghost use Rattle.script_text.specs.Reached.{read_keys, count_up_to, reached_with, IsReachable};

use crate::fault::LineFault;
use crate::words::Words;
use std::alloc::{AllocError, Global};
use text_values::{hex_digit, read_number};

/// A key of the script.
#[derive(Clone, Copy, Debug, PartialEq, Eq)]
pub struct ScriptKey {
    /// The number of the terminal at which it arrives: 0 for `TERM`, and 1 to 3 for `T1` to `T3`.
    pub term: u8,
    /// The tick at which it arrives.
    pub tick: u32,
    /// The byte that the key sends.
    pub byte: u8,
}

/// The greatest tick of a script.
const LAST_TICK: u32 = 1_000_000;

/// The greatest number of keys of a script.
const MOST_KEYS: u32 = 1_000_000;

/// The number of terminals that a machine can have.
const MOST_TERMINALS: u8 = 4;

/// Reads a script for a machine with all four terminals, as [`read_script_for`].
///
/// # Errors
///
/// `Line` with the first line that breaks a rule, if and only if one does.
pub fn read_script(alloc: Global, text: &[u8]) -> Result<Vec<ScriptKey>, LineFault>
    ensures keys { IfOk result (λ keys. keys_of 4 text.now ≡ Ok keys.items) }
    ensures limits { IfOk result (λ keys. AreKeys 4 keys.items) }
    ensures line { OnRefusedLine result (λ line. keys_of 4 text.now ≡ Err line) }
{
    read_script_for(alloc, text, MOST_TERMINALS)
}

/// Reads the script for a machine with this number of terminals: the keys in order, each with its
/// tick and its terminal.
///
/// Each line of a text ends with a line feed; the last line may lack it. Empty lines, and lines
/// that begin with `#`, are skipped. Every other line has words separated by one or more spaces:
/// a tick from 0 to 1,000,000 in decimal digits, a terminal `TERM`, `T1`, `T2` or `T3` of the
/// machine, and one or more bytes as two hexadecimal digits of either case, each a key. Ticks
/// never fall, and there are at most 1,000,000 keys (this project's own).
///
/// # Errors
///
/// `Line` with the first line that breaks a rule, if and only if one does. A refused line takes
/// no memory.
pub fn read_script_for(
    alloc: Global,
    text: &[u8],
    terminals: u8,
) -> Result<Vec<ScriptKey>, LineFault>
    ensures keys { IfOk result (λ keys. keys_of terminals text.now ≡ Ok keys.items) }
    ensures limits { IfOk result (λ keys. AreKeys terminals keys.items) }
    ensures line { OnRefusedLine result (λ line. keys_of terminals text.now ≡ Err line) }
{
    let mut keys = Vec::new(alloc);
    let mut reached = Reached { tick: 0, keys: 0 };
    let mut number = 0;
    for line in text.split(|byte| *byte == b'\n') {
        number += 1;
        let Some(with_line) = add_line(reached, terminals, line) else {
            return Err(LineFault::Line(number));
        };
        reached = with_line;
        match push_line(&mut keys, terminals, line) {
            Ok(()) => {}
            Err(_) => return Err(LineFault::OutOfMemory),
        }
    }
    Ok(keys)
}

// A line read up to its bytes: its keys arrive at one tick at one terminal.
#[derive(Clone, Copy)]
struct KeyLine<'a> {
    tick: u32,
    term: u8,
    bytes: Words<'a>,
}

// What lines of a script reach: the last tick, or 0, and the number of their keys.
#[derive(Clone, Copy)]
struct Reached {
    tick: u32,
    keys: u32,
}

// What is reached after the keys of a line, if the line is not refused.
fn add_line(reached: Reached, terminals: u8, line: &[u8]) -> Option<Reached>
    requires { IsReachable reached }
    ensures reached { result ≡ reached_with reached (line_keys terminals line.now) }
    ensures reachable { IfSome result IsReachable }
{
    if is_skipped(line) {
        return Some(reached);
    }
    let read = read_line(terminals, line)?;
    let keys = count_bytes(read.bytes, MOST_KEYS - reached.keys)?;
    if read.tick < reached.tick {
        return None;
    }
    Some(Reached {
        tick: read.tick,
        keys: reached.keys + keys,
    })
}

// Adds the keys of a line at the end of these, if the line is not refused.
fn push_line(keys: &mut Vec<ScriptKey>, terminals: u8, line: &[u8]) -> Result<(), AllocError>
    ensures { IfOk result (λ _. IfSome (line_keys terminals line.now) (λ added.
        keys.new.items ≡ keys.old.items ++ added)) }
{
    if is_skipped(line) {
        return Ok(());
    }
    match read_line(terminals, line) {
        Some(read) => push_bytes(keys, read),
        None => Ok(()),
    }
}

// Adds the keys of a line at the end of these, without the words that do not spell a byte.
fn push_bytes(keys: &mut Vec<ScriptKey>, line: KeyLine) -> Result<(), AllocError>
    ensures { IfOk result (λ _. IfSome (bytes_of (line_words line.entry.bytes.line.now)) (λ bytes.
        keys.new.items ≡ keys.old.items ++ map (key_at line.entry.tick line.entry.term) bytes)) }
{
    let KeyLine { tick, term, bytes } = line;
    for word in bytes {
        if let Some(byte) = read_byte(word) {
            keys.push(ScriptKey { term, tick, byte })?;
        }
    }
    Ok(())
}

// Reads a line that is not skipped, up to its bytes, if it is not refused there.
fn read_line<'a>(terminals: u8, line: &'a [u8]) -> Option<KeyLine<'a>>
    requires { model.is_skipped line.now ≡ false }
    ensures keys { read_keys result ≡ line_keys terminals line.now }
    ensures early { IfSome result (λ read. read.tick ≤ 1000000) }
    ensures terminal { IfSome result (λ read. read.term < terminals) }
{
    if line.starts_with(b" ") || line.ends_with(b" ") {
        return None;
    }
    let mut words = Words::of(line);
    let tick = read_tick(words.next()?)?;
    let term = read_terminal(words.next()?, terminals)?;
    Some(KeyLine {
        tick,
        term,
        bytes: words,
    })
}

// The number of bytes that the words spell, if each spells one, and there are from one to `most`.
fn count_bytes(words: Words, most: u32) -> Option<u32>
    ensures count { result ≡ count_up_to most (bytes_of (line_words words.entry.line.now)) }
    ensures most { IfSome result (λ count. count ≤ most) }
{
    let mut count = 0;
    for word in words {
        read_byte(word)?;
        if count == most {
            return None;
        }
        count += 1;
    }
    if count == 0 { None } else { Some(count) }
}

// Is the line skipped? It is empty, or begins with `#`.
fn is_skipped(line: &[u8]) -> bool
    ensures { result ≡ model.is_skipped line.now }
{
    match line {
        [] => true,
        [byte, ..] => *byte == b'#',
    }
}

// The tick that the digits spell.
fn read_tick(digits: &[u8]) -> Option<u32>
    ensures tick { result ≡ tick_of digits.now }
    ensures last { IfSome result (λ tick. tick ≤ 1000000) }
{
    read_number(digits, 0, LAST_TICK)
}

// The number of the terminal of this name, if it is below the number of terminals.
fn read_terminal(name: &[u8], terminals: u8) -> Option<u8>
    ensures terminal { result ≡ terminal_of terminals name.now }
    ensures within { IfSome result (λ number. number < terminals) }
{
    let number = match name {
        b"TERM" => 0,
        b"T1" => 1,
        b"T2" => 2,
        b"T3" => 3,
        _ => return None,
    };
    if number < terminals {
        Some(number)
    } else {
        None
    }
}

// The byte that two hexadecimal digits spell.
fn read_byte(word: &[u8]) -> Option<u8>
    ensures { result ≡ byte_of word.now }
{
    match word {
        [high, low] => {
            let high = hex_digit(*high)?;
            let low = hex_digit(*low)?;
            Some(16 * high + low)
        }
        _ => None,
    }
}
