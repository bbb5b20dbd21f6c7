ghost use Rattle.std.specs.Prelude.{◌≡◌, ◌++◌, [], decimal, IfOk, OnOk};
ghost use Rattle.record_locks.specs.Parts.{file_text, range_text, subject_text};
ghost use Rattle.lock_model.specs.Lines as model;
ghost use Rattle.lock_model.specs.Lines.{bytes_text, end_text, entry_line, spaced};

use crate::hex::{push_bytes, push_hex};
use itoa::Buffer;
use lock_model::history::Entry;
use lock_model::lock::{EntryKind, Range};
use lock_model::place::FilePlace;
use std::alloc::{AllocError, Global};

/// The digits of a descriptor's number.
const NUMBER_DIGITS: u32 = 6;

/// The digits of a position in a file.
const POSITION_DIGITS: u32 = 8;

/// The text of a history: a line for each entry, oldest first (this project's own).
///
/// A line has a letter (`G`, `P` or `D`), the process, the system path, the drive and the descriptor
/// of the file, the start and the end of the range, and the bytes, separated by single spaces.
///
/// # Errors
///
/// Out of memory.
pub fn history_text(alloc: Global, history: &[Entry]) -> Result<Vec<u8>, AllocError>
    ensures { IfOk result (λ text. text.items ≡ model.history_text history.now) }
{
    let mut text = Vec::new(alloc);
    for entry in history {
        push_line(&mut text, entry)?;
    }
    Ok(text)
}

/// Appends the line of an entry.
fn push_line(text: &mut Vec<u8>, entry: &Entry) -> Result<(), AllocError>
    ensures { OnOk result (text.new.items ≡ text.old.items ++ entry_line entry.now) }
{
    push_subject(text, entry)?;
    push_file(text, entry.file)?;
    push_range(text, entry.range)?;
    push_read(text, entry.bytes.bytes())?;
    text.push(b'\n')?;
    Ok(())
}

/// Appends the letter of an entry, its process and its system path.
fn push_subject(text: &mut Vec<u8>, entry: &Entry) -> Result<(), AllocError>
    ensures { OnOk result (text.new.items ≡ text.old.items ++ subject_text entry.now) }
{
    text.push(letter(entry.kind))?;
    text.push(b' ')?;
    push_decimal(text, entry.process)?;
    push_decimal(text, entry.path)
}

/// Appends a file's drive and descriptor.
fn push_file(text: &mut Vec<u8>, file: FilePlace) -> Result<(), AllocError>
    ensures { OnOk result (text.new.items ≡ text.old.items ++ file_text file) }
{
    let mut digits = Buffer::new();
    text.extend_from_slice(digits.format(file.drive).as_bytes())?;
    text.push(b':')?;
    push_hex(text, file.number, NUMBER_DIGITS)?;
    text.push(b' ')?;
    Ok(())
}

/// Appends the start and the end of a range.
fn push_range(text: &mut Vec<u8>, range: Range) -> Result<(), AllocError>
    ensures { OnOk result (text.new.items ≡ text.old.items ++ range_text range) }
{
    push_hex(text, range.start, POSITION_DIGITS)?;
    text.push(b' ')?;
    push_end(text, range.end)?;
    text.push(b' ')?;
    Ok(())
}

/// Appends the end of a range, or `--------` if it has none.
fn push_end(text: &mut Vec<u8>, end: Option<u32>) -> Result<(), AllocError>
    ensures { OnOk result (text.new.items ≡ text.old.items ++ end_text end) }
{
    match end {
        None => text.extend_from_slice(b"--------"),
        Some(end) => push_hex(text, end, POSITION_DIGITS),
    }
}

/// Appends an entry's bytes, or `-` if it has none.
fn push_read(text: &mut Vec<u8>, bytes: &[u8]) -> Result<(), AllocError>
    ensures { OnOk result (text.new.items ≡ text.old.items ++ bytes_text bytes.now) }
{
    if bytes.is_empty() {
        text.push(b'-')?;
        return Ok(());
    }
    push_bytes(text, bytes)
}

/// Appends a number in decimal digits, and a space.
fn push_decimal(text: &mut Vec<u8>, number: u8) -> Result<(), AllocError>
    ensures { OnOk result (text.new.items ≡ text.old.items ++ spaced (decimal number) []) }
{
    let mut digits = Buffer::new();
    text.extend_from_slice(digits.format(number).as_bytes())?;
    text.push(b' ')?;
    Ok(())
}

/// The letter of an entry.
fn letter(kind: EntryKind) -> u8
    ensures { result ≡ model.letter kind }
{
    match kind {
        EntryKind::Get => b'G',
        EntryKind::Put => b'P',
        EntryKind::Drop => b'D',
    }
}
