ghost use Rattle.std.specs.Prelude.{◌≡◌, ◌≤◌, ◌*◌, ◌++◌, Ok, Err, IfOk, IfSome, Option, [], length, is_none, option_map, replicate, unwrap_or};
ghost use Rattle.std.specs.List.{flat_map, position_or_len};
ghost use Rattle.script_text.specs.Fault.{OnRefusedLine};
ghost use Rattle.script_text.specs.Lines.{line_words};
ghost use Rattle.script_text.specs.Slices as model;
ghost use Rattle.script_text.specs.Slices.{slices_of, word_slices, line_slices, is_asterisk, AreSlices};
ghost use Rattle.script_text.specs.Totals.{total_with, IsWithinLimits};

use crate::fault::LineFault;
use crate::words::Words;
use std::alloc::{AllocError, Global};
use text_values::read_number;

/// The greatest number in the slice text.
const MOST: u32 = 1_000_000;

/// The greatest number of slices of a text.
const MOST_SLICES: u32 = 1_000_000;

/// The greatest number of instructions of a text.
const MOST_INSTRUCTIONS: u32 = 10_000_000;

/// What lines of a text give so far.
#[derive(Clone, Copy)]
struct Total {
    slices: u32,
    instructions: u32,
}

/// What a word gives: a number of slices, each of the same number of instructions.
#[derive(Clone, Copy)]
struct Repeat {
    instructions: u32,
    times: u32,
}

/// Reads the list of slices: the number of instructions of each slice.
///
/// A text has words, separated by one or more spaces, in lines. Each line ends with a line feed;
/// the last line may lack it. Empty lines are skipped. A word `n` is a slice of n instructions,
/// and `n*k` is k such slices, with n and k from 1 to 1,000,000 in decimal digits. A text has at
/// most 1,000,000 slices and 10,000,000 instructions (this project's own).
///
/// # Errors
///
/// `Line` with the first line that breaks a rule, if and only if one does. A refused line takes
/// no memory.
pub fn read_slices(alloc: Global, text: &[u8]) -> Result<Vec<u32>, LineFault>
    ensures slices { IfOk result (λ slices. slices_of text.now ≡ Ok slices.items) }
    ensures limits { IfOk result (λ slices. AreSlices slices.items) }
    ensures line { OnRefusedLine result (λ line. slices_of text.now ≡ Err line) }
{
    let mut slices = Vec::new(alloc);
    let mut total = Total {
        slices: 0,
        instructions: 0,
    };
    let mut number = 0;
    for line in text.split(|byte| *byte == b'\n') {
        number += 1;
        let Some(with_line) = add_line(total, line) else {
            return Err(LineFault::Line(number));
        };
        total = with_line;
        match push_line(&mut slices, line) {
            Ok(()) => {}
            Err(_) => return Err(LineFault::OutOfMemory),
        }
    }
    Ok(slices)
}

// The total with the slices of a line, if the line is not refused.
fn add_line(total: Total, line: &[u8]) -> Option<Total>
    requires { IsWithinLimits total }
    ensures total { result ≡ total_with total (line_slices line.now) }
    ensures limits { IfSome result IsWithinLimits }
{
    if line.starts_with(b" ") || line.ends_with(b" ") {
        return None;
    }
    let mut total = total;
    for word in Words::of(line) {
        total = add_word(total, word)?;
    }
    Some(total)
}

// The total with the slices of a word, if the word is not refused.
fn add_word(total: Total, word: &[u8]) -> Option<Total>
    requires { IsWithinLimits total }
    ensures total { result ≡ total_with total (word_slices word.now) }
    ensures limits { IfSome result IsWithinLimits }
{
    let repeat = read_word(word)?;
    let slices = total.slices + repeat.times;
    let added = u64::from(repeat.instructions) * u64::from(repeat.times);
    let instructions = u64::from(total.instructions) + added;
    if slices > MOST_SLICES || instructions > u64::from(MOST_INSTRUCTIONS) {
        return None;
    }
    Some(Total {
        slices,
        instructions: instructions as u32,
    })
}

// Adds the slices of a line at the end of these, without those of refused words.
fn push_line(slices: &mut Vec<u32>, line: &[u8]) -> Result<(), AllocError>
    ensures { IfOk result (λ _. slices.new.items ≡ slices.old.items
        ++ flat_map (λ word. unwrap_or (word_slices word) []) (line_words line.now)) }
{
    for word in Words::of(line) {
        if let Some(repeat) = read_word(word) {
            push_repeat(slices, repeat)?;
        }
    }
    Ok(())
}

// Adds the slices of a word at the end of these.
fn push_repeat(slices: &mut Vec<u32>, repeat: Repeat) -> Result<(), AllocError>
    ensures { IfOk result (λ _. slices.new.items ≡ slices.old.items
        ++ replicate repeat.times repeat.instructions) }
{
    for _ in 0..repeat.times {
        slices.push(repeat.instructions)?;
    }
    Ok(())
}

// What a word gives, if it is not refused.
fn read_word(word: &[u8]) -> Option<Repeat>
    ensures slices { option_map (λ repeat. replicate repeat.times repeat.instructions) result
        ≡ word_slices word.now }
    ensures instructions { IfSome result (λ repeat. repeat.instructions ≤ 1000000) }
    ensures times { IfSome result (λ repeat. repeat.times ≤ 1000000) }
{
    let end = first_asterisk(word);
    let (instructions, times) = word.split_at(end);
    let instructions = slice_number(instructions)?;
    let times = match times {
        [] => 1,
        [_, times @ ..] => slice_number(times)?,
    };
    Some(Repeat {
        instructions,
        times,
    })
}

// The place of the first asterisk, or the end if there is none.
fn first_asterisk(word: &[u8]) -> usize
    ensures place { result ≡ position_or_len is_asterisk word.now }
    ensures within { result ≤ length word.now }
{
    word.iter()
        .position(|byte| *byte == b'*')
        .unwrap_or(word.len())
}

// The number that the digits spell, if it is from 1 to 1,000,000.
fn slice_number(digits: &[u8]) -> Option<u32>
    ensures number { result ≡ model.slice_number digits.now }
    ensures most { IfSome result (λ number. number ≤ 1000000) }
{
    read_number(digits, 1, MOST)
}
