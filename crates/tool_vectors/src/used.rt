ghost use Rattle.std.specs.Prelude.{Some};
ghost use Rattle.rbf_access.specs.Mounted.{IsMounted, IsSoundMedia};

use crate::fields::{RowError, number};
use crate::words::Words;
use os9_outer::drive::BlockDriver;
use os9_outer::ram_drive::RamDrive;
use rbf_access::Volume;
use rbf_check::{CheckError, Tree, check};
use std::alloc::{AllocError, Global};
use vol_tools::{NewFile, ToolFault, format as format_disk, get, list, mkdir, put, remove, repair};

/// The answer of a command.
#[derive(Drop)]
pub(crate) enum Answer {
    /// The image is not well formed.
    Fault(String),
    Number(u8),
    Printed(Vec<u8>),
    /// Lines are printed, and a file of this name is written.
    Written {
        lines: Vec<u8>,
        name: String,
        bytes: Vec<u8>,
    },
}

/// Does what the words say, with the image `i` if they name one.
pub(crate) fn use_tool(
    alloc: Global,
    words: &Words<'_>,
    bytes: &[u8],
    image: Option<&Vec<u8>>,
) -> Result<Answer, RowError> {
    if words.at(0) == "format" {
        return formatted(alloc, words);
    }
    let image = image.ok_or(RowError::BadImage)?;
    match check(alloc, image) {
        Err(CheckError::OutOfMemory) => Err(RowError::OutOfMemory),
        Err(CheckError::Fault(fault)) => Ok(Answer::Fault(format!(in alloc; "{fault}")?)),
        Ok(tree) => match words.at(0) {
            "check" => Ok(Answer::Printed(counts(alloc, &tree)?)),
            "repair" => repaired(alloc, words, image),
            _ => on_image(alloc, words, bytes, image),
        },
    }
}

// The image of a new disk.
fn formatted(alloc: Global, words: &Words<'_>) -> Result<Answer, RowError> {
    let sectors = number(words.at(2).parse::<u32>().ok())?;
    if sectors < 16 || sectors > 524_280 {
        return Err(RowError::BadNumber);
    }
    match words.cluster {
        1 | 2 | 4 | 8 | 16 | 32 | 64 => {}
        _ => return Err(RowError::BadNumber),
    }
    match format_disk(alloc, sectors, words.cluster, words.now) {
        Ok(bytes) => written(alloc, Vec::new(alloc), words.at(1), bytes),
        Err(_) => Err(RowError::OutOfMemory),
    }
}

fn written(alloc: Global, lines: Vec<u8>, name: &str, bytes: Vec<u8>) -> Result<Answer, RowError> {
    let name = String::from_str(alloc, name)?;
    Ok(Answer::Written { lines, name, bytes })
}

// The line of a check.
fn counts(alloc: Global, tree: &Tree) -> Result<Vec<u8>, AllocError> {
    let (files, directories) = (tree.files(), tree.directories());
    let line = format!(in alloc;
        "files {files} dirs {directories} free {} lost {}\n",
        tree.free, tree.lost
    )?;
    line.as_bytes().to_vec(alloc)
}

fn repaired(alloc: Global, words: &Words<'_>, image: &Vec<u8>) -> Result<Answer, RowError> {
    match repair(alloc, image.to_vec(alloc)?) {
        Err(_) => Err(RowError::OutOfMemory),
        Ok(repaired) => {
            let line = format!(in alloc; "freed {}\n", repaired.freed)?;
            written(
                alloc,
                line.as_bytes().to_vec(alloc)?,
                words.at(1),
                repaired.image,
            )
        }
    }
}

// Uses a tool on a copy of a well formed image in a drive.
fn on_image(
    alloc: Global,
    words: &Words<'_>,
    bytes: &[u8],
    image: &[u8],
) -> Result<Answer, RowError>
    requires { IsSoundMedia (Some image.now) }
{
    let mut drive = RamDrive::new(Vec::new(alloc));
    let answer = on_drive(alloc, words, bytes, image, &mut drive)?;
    let left = drive.eject().ok_or(RowError::Device)?;
    match answer {
        Done::Number(number) => Ok(Answer::Number(number)),
        Done::Printed(lines) => Ok(Answer::Printed(lines)),
        Done::Got(bytes) => written(alloc, Vec::new(alloc), words.at(3), bytes),
        Done::Changed => written(alloc, Vec::new(alloc), words.at(1), left),
    }
}

// The answer of a tool that was used on a drive.
#[derive(Drop)]
enum Done {
    Number(u8),
    Printed(Vec<u8>),
    Got(Vec<u8>),
    Changed,
}

fn on_drive(
    alloc: Global,
    words: &Words<'_>,
    bytes: &[u8],
    image: &[u8],
    d: &mut dyn BlockDriver,
) -> Result<Done, RowError>
    requires { IsSoundMedia (Some image.now) }
{
    let copy = image.to_vec(alloc)?;
    let Ok(()) = d.insert(copy) else {
        return Err(RowError::Device);
    };
    let mut volume = Volume::mount(alloc, d)?;
    match use_verb(alloc, words, bytes, &mut volume, d) {
        Ok(done) => Ok(done),
        Err(ToolFault::Number(number)) => Ok(Done::Number(number)),
        Err(ToolFault::Device(_)) => Err(RowError::Device),
        Err(ToolFault::OutOfMemory) => Err(RowError::OutOfMemory),
    }
}

fn use_verb(
    alloc: Global,
    words: &Words<'_>,
    bytes: &[u8],
    volume: &mut Volume,
    d: &mut dyn BlockDriver,
) -> Result<Done, ToolFault>
    requires { IsMounted volume.old (media d.old) }
{
    let path = words.at(2).as_bytes();
    match words.at(0) {
        "put" => {
            put(alloc, volume, d, &NewFile { path, bytes }, words.now)?;
            Ok(Done::Changed)
        }
        "mkdir" => {
            mkdir(alloc, volume, d, path, words.now)?;
            Ok(Done::Changed)
        }
        "delete" => {
            remove(alloc, volume, d, path)?;
            Ok(Done::Changed)
        }
        "get" => Ok(Done::Got(get(alloc, volume, d, path)?)),
        _ => Ok(Done::Printed(list(alloc, volume, d, path)?)),
    }
}
