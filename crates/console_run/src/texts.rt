//! The texts of a session: its keys as a script, and its slices.

ghost use Rattle.std.specs.Prelude.{◌≡◌, ◌++◌, ◌<◌, ◌+◌, ◌-◌, length, All, IfOk, IsFalse, IsTrue, OnOk, decimal};
ghost use Rattle.std.specs.List.{flat_map};
ghost use Rattle.script_text.specs.Script.{AreKeys};
ghost use Rattle.console_run.specs.Texts.{byte_word, script_line, script_text, slice_text, FitsTexts, HasTypedBytes, IsByte};
ghost use Rattle.console_run.specs.Texts as model;
ghost use Rattle.console_run.specs.Typed.{keys_of_parts};

use crate::typed::{SLICE, Typed, TypedPart};
use itoa::Buffer;
use std::alloc::{AllocError, Global};

/// The most slices of a slice text.
const MOST_SLICES: u32 = 1_000_000;

/// The most keys of a script.
const MOST_KEYS: u64 = 1_000_000;

/// The last tick of a script.
const LAST_TICK: u32 = 1_000_000;

/// Can a script give the keys of a session, and a slice text its slices?
pub fn fits_texts(typed: &Typed) -> bool
    ensures fits { IsTrue result → FitsTexts typed.now }
    ensures other { IsFalse result → ¬ FitsTexts typed.now }
{
    // With slices of 10 instructions the limit on instructions is the limit on slices.
    if typed.slices > MOST_SLICES {
        return false;
    }
    lines_fit(typed.parts.as_slice())
}

/// Can a script give the keys of these parts?
fn lines_fit(lines: &[TypedPart]) -> bool
    ensures fits { IsTrue result → AreKeys 4 (keys_of_parts lines.now) }
    ensures other { IsFalse result → ¬ AreKeys 4 (keys_of_parts lines.now) }
{
    let mut room = MOST_KEYS;
    let mut last = 0;
    for line in lines {
        if !line_fits(line, room, last) {
            return false;
        }
        room = room_after(line, room);
        last = line.tick;
    }
    true
}

/// Can a script give the keys of a part after others, if it has room for this number of keys, and
/// the last of the others is due in this tick?
fn line_fits(line: &TypedPart, room: u64, last: u32) -> bool
    ensures { result ≡ model.line_fits line.now room last }
{
    (line.bytes.len() as u64) < room && last <= line.tick && line.tick <= LAST_TICK
}

/// The room that is left after a part.
fn room_after(line: &TypedPart, room: u64) -> u64
    requires { length line.now.bytes.items < room }
    ensures { result ≡ room - (length line.now.bytes.items + 1) }
{
    room - 1 - line.bytes.len() as u64
}

/// The script of a session: a line for each of its parts.
pub fn script_of(alloc: Global, typed: &Typed) -> Result<Vec<u8>, AllocError>
    ensures text { IfOk result (λ text. text.items ≡ script_text typed.now) }
    ensures bytes { OnOk result (All HasTypedBytes typed.now.parts.items) }
{
    let mut text = Vec::new(alloc);
    push_lines(&mut text, typed.parts.as_slice())?;
    Ok(text)
}

/// Appends the lines of a script for these parts.
fn push_lines(text: &mut Vec<u8>, lines: &[TypedPart]) -> Result<(), AllocError>
    ensures lines { OnOk result
        (text.new.items ≡ text.old.items ++ flat_map script_line lines.now) }
    ensures bytes { OnOk result (All HasTypedBytes lines.now) }
{
    for line in lines {
        push_line(text, line)?;
    }
    Ok(())
}

/// Appends the line of a script for a part.
fn push_line(text: &mut Vec<u8>, line: &TypedPart) -> Result<(), AllocError>
    ensures line { OnOk result (text.new.items ≡ text.old.items ++ script_line line.now) }
    ensures bytes { OnOk result (HasTypedBytes line.now) }
{
    push_number(text, line.tick)?;
    text.extend_from_slice(b" TERM")?;
    push_bytes(text, line.bytes.as_slice())?;
    push_byte(text, line.last)?;
    text.push(b'\n')?;
    Ok(())
}

/// Appends a space and two digits for each byte.
fn push_bytes(text: &mut Vec<u8>, bytes: &[u8]) -> Result<(), AllocError>
    ensures words { OnOk result (text.new.items ≡ text.old.items ++ flat_map byte_word bytes.now) }
    ensures bytes { OnOk result (All IsByte bytes.now) }
{
    for byte in bytes {
        push_byte(text, *byte)?;
    }
    Ok(())
}

/// Appends a space and the two digits of a byte.
fn push_byte(text: &mut Vec<u8>, byte: u8) -> Result<(), AllocError>
    ensures word { OnOk result (text.new.items ≡ text.old.items ++ byte_word byte) }
    ensures byte { OnOk result (IsByte byte) }
{
    text.push(b' ')?;
    text.push(hex_digit(byte / 16))?;
    text.push(hex_digit(byte % 16))?;
    Ok(())
}

/// A hexadecimal digit.
fn hex_digit(value: u8) -> u8
    requires { value < 16 }
    ensures { result ≡ model.hex_digit value }
{
    if value < 10 {
        b'0' + value
    } else {
        b'A' - 10 + value
    }
}

/// Appends a number in decimal digits.
fn push_number(text: &mut Vec<u8>, number: u32) -> Result<(), AllocError>
    ensures { OnOk result (text.new.items ≡ text.old.items ++ decimal number) }
{
    let mut digits = Buffer::new();
    text.extend_from_slice(digits.format(number).as_bytes())?;
    Ok(())
}

/// The slice text of a session.
pub fn slices_of(alloc: Global, typed: &Typed) -> Result<Vec<u8>, AllocError>
    ensures { IfOk result (λ text. text.items ≡ slice_text typed.now) }
{
    let mut text = Vec::new(alloc);
    if typed.slices == 0 {
        return Ok(text);
    }
    push_number(&mut text, SLICE)?;
    text.push(b'*')?;
    push_number(&mut text, typed.slices)?;
    text.push(b'\n')?;
    Ok(text)
}
