use crate::disk::SECTOR;
use hex::{FromHexError, decode};
use std::alloc::{AllocError, AllocFailed, Global};
use thiserror::Error;

/// The bytes of the longest image that a row may have: those of a volume of the most sectors.
const MOST_BYTES: usize = 134_217_728;

/// The greatest number of times that bytes are repeated in a field.
const MOST_TIMES: usize = 1_000_001;

/// Why a line is not a row.
#[derive(Clone, Copy, Debug, PartialEq, Eq, Error)]
pub(crate) enum RowError {
    #[error("a heading is bad")]
    BadHeading,
    #[error("a row is above the first heading")]
    NoHeading,
    #[error("a field is missing")]
    Missing,
    #[error("a field is left over")]
    LeftOver,
    #[error("a number is bad")]
    BadNumber,
    #[error("hexadecimal digits are bad")]
    BadDigits,
    #[error("the image is bad")]
    BadImage,
    #[error("a failing call is bad")]
    BadCall,
    #[error("no memory")]
    OutOfMemory,
}

impl From<AllocError> for RowError {
    fn from(_error: AllocError) -> RowError {
        RowError::OutOfMemory
    }
}

impl<T: Drop> From<AllocFailed<T>> for RowError {
    fn from(_error: AllocFailed<T>) -> RowError {
        RowError::OutOfMemory
    }
}

/// The fields of a line, which are separated by single tabs, and taken from its front. `-` is an
/// empty field.
#[derive(Drop)]
pub(crate) struct Fields<'a> {
    rest: Option<&'a str>,
}

impl<'a> Fields<'a> {
    pub(crate) fn of(line: &'a str) -> Fields<'a> {
        Fields { rest: Some(line) }
    }

    /// The next field as a text.
    pub(crate) fn text(&mut self) -> Result<&'a str, RowError> {
        let rest = self.rest.take().ok_or(RowError::Missing)?;
        let field = match rest.split_once('\t') {
            None => rest,
            Some((field, behind)) => {
                self.rest = Some(behind);
                field
            }
        };
        Ok(if field == "-" { "" } else { field })
    }

    /// The next field as a text, which is empty if the line has no more.
    pub(crate) fn last_text(&mut self) -> Result<&'a str, RowError> {
        if self.rest.is_none() {
            return Ok("");
        }
        self.text()
    }

    /// The same as a string.
    pub(crate) fn string(&mut self, alloc: Global) -> Result<String, RowError> {
        Ok(String::from_str(alloc, self.text()?)?)
    }

    /// The next field as a decimal number below 256.
    pub(crate) fn byte(&mut self) -> Result<u8, RowError> {
        number(self.text()?.parse::<u8>().ok())
    }

    /// The next field as a decimal number below 65,536.
    pub(crate) fn short(&mut self) -> Result<u16, RowError> {
        number(self.text()?.parse::<u16>().ok())
    }

    /// The next field as bytes (`pieces`).
    pub(crate) fn bytes(&mut self, alloc: Global) -> Result<Vec<u8>, RowError> {
        pieces(alloc, self.text()?)
    }

    /// The same of a field that may be missing.
    pub(crate) fn last_bytes(&mut self, alloc: Global) -> Result<Vec<u8>, RowError> {
        pieces(alloc, self.last_text()?)
    }

    /// The next field as lines with `;` between them. Each gets a line feed at its end.
    pub(crate) fn lines(&mut self, alloc: Global) -> Result<Vec<u8>, RowError> {
        let field = self.text()?;
        let mut all = Vec::new(alloc);
        if field.is_empty() {
            return Ok(all);
        }
        for byte in field.as_bytes() {
            all.push(if *byte == b';' { b'\n' } else { *byte })?;
        }
        all.push(b'\n')?;
        Ok(all)
    }

    /// The same of a field that may be missing.
    pub(crate) fn last_lines(&mut self, alloc: Global) -> Result<Vec<u8>, RowError> {
        if self.rest.is_none() {
            return Ok(Vec::new(alloc));
        }
        self.lines(alloc)
    }

    /// The next field, which may be missing, as decimal numbers such as `5,2`.
    pub(crate) fn last_numbers(&mut self, alloc: Global) -> Result<Vec<u64>, RowError> {
        let field = self.last_text()?;
        let mut numbers = Vec::new(alloc);
        if field.is_empty() {
            return Ok(numbers);
        }
        for word in field.split(',') {
            numbers.push(number(word.parse::<u64>().ok())?)?;
        }
        Ok(numbers)
    }

    /// The next field as an image, if it is not empty.
    pub(crate) fn image(&mut self, alloc: Global) -> Result<Option<Vec<u8>>, RowError> {
        let field = self.text()?;
        if field.is_empty() {
            return Ok(None);
        }
        Ok(Some(image(alloc, field)?))
    }

    /// Ends the line: no field is left over.
    pub(crate) fn end(&self) -> Result<(), RowError> {
        if self.rest.is_some() {
            return Err(RowError::LeftOver);
        }
        Ok(())
    }
}

/// The number, if there is one.
fn number<T: Drop>(parsed: Option<T>) -> Result<T, RowError> {
    parsed.ok_or(RowError::BadNumber)
}

/// The bytes of a field. Its pieces are separated by commas; a piece `DIGITS*N` is its bytes N times.
fn pieces(alloc: Global, field: &str) -> Result<Vec<u8>, RowError> {
    let mut all = Vec::new(alloc);
    for piece in field.split(',') {
        let (digits, times) = match piece.split_once('*') {
            Some((digits, times)) => (digits, number(times.parse::<usize>().ok())?),
            None => (piece, 1),
        };
        push_times(&mut all, &bytes(alloc, digits)?, times)?;
    }
    Ok(all)
}

/// Appends bytes to others this number of times.
fn push_times(all: &mut Vec<u8>, bytes: &[u8], times: usize) -> Result<(), RowError> {
    if times > MOST_TIMES {
        return Err(RowError::BadNumber);
    }
    for _ in 0..times {
        all.extend_from_slice(bytes)?;
    }
    Ok(())
}

/// The bytes of hexadecimal digits.
fn bytes(alloc: Global, digits: &str) -> Result<Vec<u8>, RowError> {
    match decode(alloc, digits) {
        Ok(bytes) => Ok(bytes),
        Err(FromHexError::OutOfMemory) => Err(RowError::OutOfMemory),
        Err(_) => Err(RowError::BadDigits),
    }
}

/// The image of a field: its length, and then for each sector that is not all zero `;`, its number,
/// `:` and its bytes, without the zeros at its end.
fn image(alloc: Global, field: &str) -> Result<Vec<u8>, RowError> {
    let mut parts = field.split(';');
    let length = parts.next().ok_or(RowError::Missing)?;
    let length = number(length.parse::<usize>().ok())?;
    if length > MOST_BYTES {
        return Err(RowError::BadImage);
    }
    let mut image = vec![in alloc; 0u8; length]?;
    for part in parts {
        put_sector(alloc, &mut image, part)?;
    }
    Ok(image)
}

/// Puts a sector into an image. The one after the last whole sector is shorter.
fn put_sector(alloc: Global, image: &mut Vec<u8>, part: &str) -> Result<(), RowError> {
    let (lsn, digits) = part.split_once(':').ok_or(RowError::BadImage)?;
    let lsn = number(lsn.parse::<u32>().ok())?;
    let bytes = bytes(alloc, digits)?;
    let start = SECTOR * lsn as usize;
    let end = start + bytes.len();
    if bytes.len() > SECTOR || end > image.len() {
        return Err(RowError::BadImage);
    }
    image[start..end].copy_from_slice(&bytes);
    Ok(())
}
