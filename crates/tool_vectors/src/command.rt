use crate::fields::{RowError, number};
use crate::files::Files;
use crate::used::{Answer, use_tool};
use crate::words::Words;
use std::alloc::{AllocError, Global};
use std::fmt::Write;

/// Whether a command answers or leaves something other than the known result. None if it is only
/// known that its words are refused, or that a file is not there.
pub(crate) fn differs(
    alloc: Global,
    field: &str,
    files: &mut Files,
) -> Result<Option<bool>, RowError> {
    let (words, behind) = field.split_once('|').ok_or(RowError::Missing)?;
    let (bytes, expected) = behind.split_once('|').ok_or(RowError::Missing)?;
    if expected.starts_with("1|") || expected.starts_with("2|") {
        return Ok(None);
    }
    let words = Words::parse(alloc, words)?;
    let bytes = file_of(alloc, bytes)?;
    let answer = use_tool(alloc, &words, &bytes, files.image.as_ref())?;
    let found = told(alloc, &words, answer, files)?;
    Ok(Some(found.as_str() != expected))
}

// The file of `put`, given by its length and the number from which its bytes follow.
fn file_of(alloc: Global, field: &str) -> Result<Vec<u8>, RowError> {
    let Some((length, seed)) = field.split_once('*') else {
        return Ok(Vec::new(alloc));
    };
    let length = number(length.parse::<u32>().ok())?;
    let seed = number(seed.parse::<u32>().ok())?;
    let mut bytes = Vec::new(alloc);
    for n in 0..length {
        let byte = u64::from(seed) + 37 * u64::from(n) + u64::from(n / 256);
        bytes.push((byte % 256) as u8)?;
    }
    Ok(bytes)
}

// What a row says of a command: its status, its lines, and the file that it has changed.
fn told(
    alloc: Global,
    words: &Words<'_>,
    answer: Answer,
    files: &mut Files,
) -> Result<String, AllocError> {
    let image = words.at(1);
    match answer {
        Answer::Fault(fault) => format!(in alloc; "6|-|os9: {image}: {}|-", fault.as_str()),
        Answer::Number(number) => format!(in alloc; "11|-|os9: {image}: error {number}|-"),
        Answer::Printed(lines) => {
            let mut text = String::from_str(alloc, "0|")?;
            write_lines(&lines, &mut text)?;
            text.push_str("|-|-")?;
            Ok(text)
        }
        Answer::Written { lines, name, bytes } => {
            let mut text = String::from_str(alloc, "0|")?;
            write_lines(&lines, &mut text)?;
            let change = files.write(alloc, name.as_str(), bytes)?;
            write!(text, "|-|{}", change.as_str())?;
            Ok(text)
        }
    }
}

// Lines, joined by `;`, or `-` if there are none.
fn write_lines(lines: &[u8], text: &mut String) -> Result<(), AllocError> {
    let Some((_, front)) = lines.split_last() else {
        return text.push('-');
    };
    for byte in front {
        match byte {
            b'\n' => text.push(';')?,
            _ => text.push(char::from(*byte))?,
        }
    }
    Ok(())
}
