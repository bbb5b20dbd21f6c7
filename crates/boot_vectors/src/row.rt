use crate::disk::Disk;
use crate::failing::Failing;
use crate::fields::{Fields, RowError};
use crate::section::Sort;
use crate::terminals::{TerminalCall, terminal_calls};
use os9_outer::host_file::HostFile;
use std::alloc::Global;

/// The names that the words of a row give the files of its images.
const IMAGES: [&str; 2] = ["d0.img", "d1.img"];

/// The word before the name of the file of a history, and that name.
const HISTORY_OPTION: &str = "--history";

pub(crate) const HISTORY: &str = "history";

/// A command line with its files, and the program's answer to it.
#[derive(Drop)]
pub(crate) struct Row {
    /// The words, separated by single spaces. They name the files `modules`, `slices`, `script`,
    /// `commands` and `history`, and the images `d0.img` and `d1.img`.
    pub(crate) words: String,
    /// The files that the run leaves as they are.
    pub(crate) files: Vec<HostFile>,
    pub(crate) status: u8,
    pub(crate) out: Vec<u8>,
    /// The line on the error stream, without its line feed; none if it is empty.
    pub(crate) err: String,
    /// The images, as they are before the run, with the trees after it.
    pub(crate) disks: Vec<Disk>,
    /// The file of the history after a complete run, if the words name one.
    pub(crate) history: Option<Vec<u8>>,
    /// The failing calls of drives.
    pub(crate) drives: Failing,
    /// The failing calls of terminals.
    pub(crate) terminals: Vec<TerminalCall>,
    /// The numbers of the failing calls of the host, from 1.
    pub(crate) host: Vec<u64>,
}

impl Row {
    /// The row of a line. Its fields are separated by tabs, and `-` is an empty one.
    pub(crate) fn parse(alloc: Global, sort: Sort, line: &str) -> Result<Row, RowError> {
        let mut fields = Fields::of(line);
        let row = match sort {
            Sort::Programs => program(alloc, &mut fields)?,
            Sort::Trees => program_with_trees(alloc, &mut fields)?,
            Sort::Sessions => session(alloc, &mut fields)?,
        };
        fields.end()?;
        Ok(row)
    }
}

/// The row of a guest program: the words, the file of modules, the number of zero bytes after it,
/// the slice text, the script of keys, the status, the bytes written and the line on the error
/// stream; and then fields that may be missing, the failing calls of terminals (`terminal_calls`),
/// two images, and the numbers of the failing calls of the host.
fn program(alloc: Global, fields: &mut Fields<'_>) -> Result<Row, RowError> {
    let words = fields.string(alloc)?;
    let mut files = files(alloc, fields)?;
    let status = fields.byte()?;
    let out = fields.bytes(alloc)?;
    let err = fields.string(alloc)?;
    let terminals = terminal_calls(alloc, fields.last_text()?)?;
    push_images(alloc, &mut files, fields)?;
    Ok(Row {
        words,
        files,
        status,
        out,
        err,
        disks: Vec::new(alloc),
        history: None,
        drives: Failing::nothing(alloc),
        terminals,
        host: fields.last_numbers(alloc)?,
    })
}

/// The row of a guest program whose images are compared: the words, the file of modules, the number
/// of zero bytes after it, the slice text, the script of keys, the status, the bytes written, the
/// line on the error stream, for each of two images what it holds before the run, and its tree after
/// it; and two fields that may be missing, what fails (`Failing::parse`), and the lines of the
/// history with `;` between them. If a drive stops, all this is of the run in which it does not.
fn program_with_trees(alloc: Global, fields: &mut Fields<'_>) -> Result<Row, RowError> {
    let words = fields.string(alloc)?;
    let has_history = words.as_str().contains(HISTORY_OPTION);
    Ok(Row {
        words,
        files: files(alloc, fields)?,
        status: fields.byte()?,
        out: fields.bytes(alloc)?,
        err: fields.string(alloc)?,
        disks: disks(alloc, fields)?,
        drives: Failing::parse(alloc, fields.last_text()?)?,
        history: history(alloc, has_history, fields)?,
        terminals: Vec::new(alloc),
        host: Vec::new(alloc),
    })
}

/// The lines of the history, if there is to be one.
fn history(
    alloc: Global,
    is_asked: bool,
    fields: &mut Fields<'_>,
) -> Result<Option<Vec<u8>>, RowError> {
    let lines = fields.last_lines(alloc)?;
    Ok(if is_asked { Some(lines) } else { None })
}

/// The row of a session of the debugger: the words, the file of modules, the number of zero bytes
/// after it, the slice text, the script of keys, the commands, the status, the lines written with
/// `;` between them, the line on the error stream, and two fields that may be missing, the failing
/// calls of terminals and the numbers of the failing calls of the host.
fn session(alloc: Global, fields: &mut Fields<'_>) -> Result<Row, RowError> {
    let words = fields.string(alloc)?;
    let mut files = files(alloc, fields)?;
    files.push(file(alloc, "commands", fields.bytes(alloc)?)?)?;
    Ok(Row {
        words,
        files,
        status: fields.byte()?,
        out: fields.lines(alloc)?,
        err: fields.string(alloc)?,
        disks: Vec::new(alloc),
        history: None,
        drives: Failing::nothing(alloc),
        terminals: terminal_calls(alloc, fields.last_text()?)?,
        host: fields.last_numbers(alloc)?,
    })
}

/// The files of four fields: the modules with the zeros after them, the slice text and the script.
fn files(alloc: Global, fields: &mut Fields<'_>) -> Result<Vec<HostFile>, RowError> {
    let mut files = Vec::new(alloc);
    files.push(file(alloc, "modules", modules(alloc, fields)?)?)?;
    files.push(file(alloc, "slices", fields.bytes(alloc)?)?)?;
    files.push(file(alloc, "script", fields.bytes(alloc)?)?)?;
    Ok(files)
}

/// The file of modules of two fields: its bytes, and the number of zeros after them.
fn modules(alloc: Global, fields: &mut Fields<'_>) -> Result<Vec<u8>, RowError> {
    let mut modules = fields.bytes(alloc)?;
    for _ in 0..fields.short()? {
        modules.push(0)?;
    }
    Ok(modules)
}

/// Appends the images of two fields that may be missing. One without bytes does not exist.
fn push_images(
    alloc: Global,
    files: &mut Vec<HostFile>,
    fields: &mut Fields<'_>,
) -> Result<(), RowError> {
    for name in IMAGES {
        let image = fields.last_bytes(alloc)?;
        if !image.is_empty() {
            files.push(file(alloc, name, image)?)?;
        }
    }
    Ok(())
}

/// The images of four fields: for each its contents, and its tree.
fn disks(alloc: Global, fields: &mut Fields<'_>) -> Result<Vec<Disk>, RowError> {
    let mut disks = Vec::new(alloc);
    for name in IMAGES {
        let image = fields.image(alloc)?;
        let tree = fields.text()?;
        if let Some(image) = image {
            disks.push(Disk {
                name: String::from_str(alloc, name)?,
                image,
                tree: String::from_str(alloc, tree)?,
            })?;
        }
    }
    Ok(disks)
}

fn file(alloc: Global, name: &str, bytes: Vec<u8>) -> Result<HostFile, RowError> {
    Ok(HostFile {
        name: String::from_str(alloc, name)?,
        bytes,
    })
}
