use os9_base::name::{Name, parse_name};
use std::alloc::{AllocError, AllocFailed, Global};
use thiserror::Error;

/// Why a line is not a row.
#[derive(Clone, Copy, Debug, PartialEq, Eq, Error)]
pub(crate) enum RowError {
    #[error("a word or a field is missing")]
    Missing,
    #[error("a word is left over")]
    LeftOver,
    #[error("a number is bad")]
    BadNumber,
    #[error("a path is bad")]
    BadPath,
    #[error("no such call")]
    NoSuchCall,
    #[error("no such way")]
    NoSuchWay,
    #[error("no such fault")]
    NoSuchFault,
    #[error("the image is bad")]
    BadImage,
    #[error("no memory")]
    OutOfMemory,
}

impl From<AllocError> for RowError {
    fn from(_error: AllocError) -> RowError {
        RowError::OutOfMemory
    }
}

impl<T: Drop> From<AllocFailed<T>> for RowError {
    fn from(_error: AllocFailed<T>) -> RowError {
        RowError::OutOfMemory
    }
}

/// The words of a field, separated by single spaces, which are taken from its front.
#[derive(Drop)]
pub(crate) struct Words<'a> {
    rest: Option<&'a str>,
}

impl<'a> Words<'a> {
    pub(crate) fn of(field: &'a str) -> Words<'a> {
        Words { rest: Some(field) }
    }

    /// The next word.
    pub(crate) fn word(&mut self) -> Result<&'a str, RowError> {
        let rest = self.rest.take().ok_or(RowError::Missing)?;
        match rest.split_once(' ') {
            None => Ok(rest),
            Some((word, behind)) => {
                self.rest = Some(behind);
                Ok(word)
            }
        }
    }

    /// The next word as a decimal number below 256.
    pub(crate) fn byte(&mut self) -> Result<u8, RowError> {
        number(self.word()?.parse::<u8>().ok())
    }

    /// The next word as attributes, two hexadecimal digits.
    pub(crate) fn attributes(&mut self) -> Result<u8, RowError> {
        number(u8::from_str_radix(self.word()?, 16).ok())
    }

    /// The next word as a decimal number below 65,536.
    pub(crate) fn short(&mut self) -> Result<u16, RowError> {
        number(self.word()?.parse::<u16>().ok())
    }

    /// The next word as a decimal number below 4,294,967,296.
    pub(crate) fn long(&mut self) -> Result<u32, RowError> {
        number(self.word()?.parse::<u32>().ok())
    }

    /// The next word as a path.
    pub(crate) fn path(&mut self, alloc: Global) -> Result<Vec<Name>, RowError> {
        path(alloc, self.word()?)
    }

    /// Ends the field: no word is left over.
    pub(crate) fn end(&self) -> Result<(), RowError> {
        if self.rest.is_some() {
            return Err(RowError::LeftOver);
        }
        Ok(())
    }
}

/// The number, if there is one.
pub(crate) fn number<T: Drop>(parsed: Option<T>) -> Result<T, RowError> {
    parsed.ok_or(RowError::BadNumber)
}

// The names of a path, which begins with `/`; the path `/` has none.
fn path(alloc: Global, text: &str) -> Result<Vec<Name>, RowError> {
    let mut names = Vec::new(alloc);
    let Some(behind) = text.strip_prefix('/') else {
        return Err(RowError::BadPath);
    };
    if behind.is_empty() {
        return Ok(names);
    }
    for part in behind.split('/') {
        match parse_name(part.as_bytes()) {
            Ok(name) if usize::from(name.len()) == part.len() => names.push(name)?,
            _ => return Err(RowError::BadPath),
        }
    }
    Ok(names)
}
