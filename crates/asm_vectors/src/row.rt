use hex::{FromHexError, decode};
use std::alloc::{AllocError, Global};
use thiserror::Error;

/// Why a line is not a row.
#[derive(Clone, Copy, Debug, PartialEq, Eq, Error)]
pub(crate) enum RowError {
    #[error("a row is bad")]
    BadRow,
    #[error("no memory")]
    OutOfMemory,
}

impl From<AllocError> for RowError {
    fn from(_error: AllocError) -> RowError {
        RowError::OutOfMemory
    }
}

/// A line at an offset, with the bytes of its instruction.
#[derive(Drop)]
pub(crate) struct Line {
    pub(crate) at: u16,
    pub(crate) bytes: Vec<u8>,
    pub(crate) text: String,
}

/// What a source makes.
#[derive(Drop)]
pub(crate) enum Outcome {
    /// A module.
    Module(Vec<u8>),
    /// A fault: its line and its number.
    Fault(u64, u64),
}

/// A source, and what it makes.
#[derive(Drop)]
pub(crate) struct Source {
    pub(crate) text: Vec<u8>,
    pub(crate) outcome: Outcome,
}

/// A row of what an assembler does.
#[derive(Drop)]
pub(crate) enum Row {
    /// A line that is read, and refused if there are no bytes.
    Read(Line),
    /// An instruction that is printed.
    Print(Line),
    /// A source that is assembled.
    Source(Source),
}

/// The row of a line: `read` or `print`, the offset, the bytes and the text; or `source`, a number,
/// the bytes of the module or `line L error K`, and the source. Tabs separate the fields. Bytes and
/// sources are hexadecimal digits, or `-` for none.
pub(crate) fn parse(alloc: Global, line: &str) -> Result<Row, RowError> {
    let (kind, fields) = split(line)?;
    match kind {
        "read" => Ok(Row::Read(line_of(alloc, fields)?)),
        "print" => Ok(Row::Print(line_of(alloc, fields)?)),
        "source" => Ok(Row::Source(source_of(alloc, fields)?)),
        _ => Err(RowError::BadRow),
    }
}

/// The first field and those behind it.
fn split(fields: &str) -> Result<(&str, &str), RowError> {
    fields.split_once('\t').ok_or(RowError::BadRow)
}

/// The line of an offset, bytes and a text.
fn line_of(alloc: Global, fields: &str) -> Result<Line, RowError> {
    let (at, fields) = split(fields)?;
    let (digits, text) = split(fields)?;
    Ok(Line {
        at: u16::from_str_radix(at, 16).map_err(|_| RowError::BadRow)?,
        bytes: bytes(alloc, digits)?,
        text: String::from_str(alloc, text)?,
    })
}

/// The source of a number, an outcome and a text.
fn source_of(alloc: Global, fields: &str) -> Result<Source, RowError> {
    let (_number, fields) = split(fields)?;
    let (outcome, text) = split(fields)?;
    Ok(Source {
        text: bytes(alloc, text)?,
        outcome: match fault(outcome) {
            Some(fault) => fault,
            None => Outcome::Module(bytes(alloc, outcome)?),
        },
    })
}

/// The fault that `line L error K` names.
fn fault(text: &str) -> Option<Outcome> {
    let mut words = text.split(' ');
    if words.next()? != "line" {
        return None;
    }
    let line = words.next()?.parse::<u64>().ok()?;
    if words.next()? != "error" {
        return None;
    }
    let k = words.next()?.parse::<u64>().ok()?;
    Some(Outcome::Fault(line, k))
}

/// Bytes as hexadecimal digits, or `-` for none.
fn bytes(alloc: Global, text: &str) -> Result<Vec<u8>, RowError> {
    let digits = if text == "-" { "" } else { text };
    match decode(alloc, digits) {
        Ok(bytes) => Ok(bytes),
        Err(FromHexError::OutOfMemory) => Err(RowError::OutOfMemory),
        Err(_) => Err(RowError::BadRow),
    }
}
