ghost use Rattle.std.specs.Prelude.{◌≡◌, Ok, Err, IfOk};
ghost use Rattle.script_text.specs.Fault.{OnRefusedLine};
ghost use Rattle.script_text.specs.Lines.{line_words};
ghost use Rattle.os9_debug.specs.Commands.{command_of, commands_of, line_command};
ghost use Rattle.os9_debug.specs.Cuts.{span_in};

use crate::command::{Command, Span};
use crate::cut::{cut_word, only_word};
use crate::words::{read_address, read_count, read_position};
use script_text::fault::LineFault;
use std::alloc::Global;

/// Reads the commands of a debugger.
///
/// A text has lines that end with a line feed, which may be missing from the last; empty lines are
/// skipped. Every other line is a command, its words with one or more spaces between them: `to K`,
/// `back N`, `regs`, `mem A N` or `dis A N`. K is any decimal number, N one from 1 to 256, and A
/// has four hexadecimal digits of either case (this project's own).
///
/// # Errors
///
/// `Line` with the first line that is none of these, exactly if one is not.
pub fn read_commands(alloc: Global, text: &[u8]) -> Result<Vec<Command>, LineFault>
    ensures commands { IfOk result (λ commands. commands_of text.now ≡ Ok commands.items) }
    ensures line { OnRefusedLine result (λ line. commands_of text.now ≡ Err line) }
{
    let mut commands = Vec::new(alloc);
    let mut number = 0;
    for line in text.split(|byte| *byte == b'\n') {
        number += 1;
        if line.is_empty() {
            continue;
        }
        let Some(command) = read_line(line) else {
            return Err(LineFault::Line(number));
        };
        match commands.push(command) {
            Ok(()) => {}
            Err(_) => return Err(LineFault::OutOfMemory),
        }
    }
    Ok(commands)
}

// The command of a line.
fn read_line(line: &[u8]) -> Option<Command>
    ensures { result ≡ line_command line.now }
{
    if line.starts_with(b" ") || line.ends_with(b" ") {
        return None;
    }
    read_command(line)
}

// The command that the words of a line spell.
fn read_command(line: &[u8]) -> Option<Command>
    ensures { result ≡ command_of (line_words line.now) }
{
    let first = cut_word(line)?;
    match first.word {
        b"to" => Some(Command::To(read_position(only_word(first.rest)?)?)),
        b"back" => Some(Command::Back(read_count(only_word(first.rest)?)?)),
        b"regs" => match cut_word(first.rest) {
            None => Some(Command::Regs),
            Some(_) => None,
        },
        b"mem" => Some(Command::Mem(read_span(first.rest)?)),
        b"dis" => Some(Command::Dis(read_span(first.rest)?)),
        _ => None,
    }
}

// An address and a count: the words of a line that has these two.
fn read_span(line: &[u8]) -> Option<Span>
    ensures { result ≡ span_in (line_words line.now) }
{
    let first = cut_word(line)?;
    let second = only_word(first.rest)?;
    let at = read_address(first.word)?;
    let count = read_count(second)?;
    Some(Span { at, count })
}
