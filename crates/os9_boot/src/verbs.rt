//! The results of the verbs of `vol` on an image.

ghost use Rattle.std.specs.Prelude.{◌≡◌, ◌≢◌, IfErr, IfOk, OnOk, Some};
ghost use Rattle.file_drives.specs.Drives.{drives_seen};
ghost use Rattle.os9_words.specs.Vol.{IsVol};
ghost use Rattle.boot_run.specs.BootFile.{IsVolume};
ghost use Rattle.boot_run.specs.Drives.{HaveRoom};
ghost use Rattle.vol_tools.specs.Uses.{tool_of as tool_used};
ghost use Rattle.vol_tools.specs.Tool.{freed_line as freed_line_model, repair as repair_tool};
ghost use Rattle.os9_boot.specs.VolSteps.{DrivesAfter, MakesOf, RefusesImage, FormatsDisk, RepairsImage};
ghost use Rattle.os9_boot.specs.Vol.{path_of as path_of_model, tool_of};

use crate::drive::use_on_image;
use crate::files::VolFiles;
use crate::made::Made;
use crate::vol_names::path_of;
use boot_run::status::End;
use device_table::devices::Devices;
use itoa::Buffer;
use os9_outer::drive::BlockDriver;
use os9_words::vol_words::{Verb, VolWords};
use rbf_check::{CheckError, check};
use std::alloc::{AllocError, Global};
use vol_tools::{NewFile, ToolUse, format, repair};

/// Makes the image of a disk.
///
/// # Errors
///
/// The end of the command: out of memory.
pub fn format_disk(alloc: Global, vol: &VolWords) -> Result<Made, End>
    requires words { IsVol vol.now }
    requires verb { vol.now.verb ≡ Verb.Format }
    ensures { FormatsDisk vol.now result }
{
    match format(alloc, vol.sectors, vol.cluster, vol.start) {
        Ok(image) => Ok(Made {
            answer: Vec::new(alloc),
            image,
        }),
        Err(_) => Err(End::NoMemory),
    }
}

/// Does what the verb says with an image and the bytes of FILE.
///
/// # Errors
///
/// The end of the command: the image is not well formed, the tool is refused, the drive fails, or
/// out of memory.
pub fn make_of(
    alloc: Global,
    vol: &VolWords,
    files: VolFiles,
    devices: &mut Devices,
) -> Result<Made, End>
    requires verb { vol.now.verb ≢ Verb.Format }
    requires room { HaveRoom 1 (drives_seen BlockDriver-box devices.old) }
    ensures made { MakesOf vol.now files.image.items files.file.items result }
    ensures drives { DrivesAfter result (drives_seen BlockDriver-box devices.old)
        (drives_seen BlockDriver-box devices.new) }
    ensures terms_kept { devices.new.terms ≡ devices.old.terms }
{
    let VolFiles { image, file } = files;
    match vol.verb {
        Verb::Repair => repair_image(alloc, image),
        _ => use_verb(alloc, vol, image, &file, devices),
    }
}

/// Uses the tool of a verb on an image, if that is well formed.
fn use_verb(
    alloc: Global,
    vol: &VolWords,
    image: Vec<u8>,
    file: &[u8],
    devices: &mut Devices,
) -> Result<Made, End>
    requires no_disk { vol.now.verb ≢ Verb.Format }
    requires no_repair { vol.now.verb ≢ Verb.Repair }
    requires room { HaveRoom 1 (drives_seen BlockDriver-box devices.old) }
    ensures made { MakesOf vol.now image.items file.now result }
    ensures drives { DrivesAfter result (drives_seen BlockDriver-box devices.old)
        (drives_seen BlockDriver-box devices.new) }
    ensures terms_kept { devices.new.terms ≡ devices.old.terms }
{
    match check_image(alloc, &image) {
        Ok(()) => {}
        Err(end) => return Err(end),
    }
    let tool = tool_for(vol, file);
    use_on_image(alloc, vol, image, &tool, devices)
}

/// Returns an end if the image is not well formed.
fn check_image(alloc: Global, image: &[u8]) -> Result<(), End>
    ensures well_formed { OnOk result (IsVolume image.now) }
    ensures refused { IfErr result (RefusesImage image.now) }
{
    match check(alloc, image) {
        Ok(_) => Ok(()),
        Err(CheckError::Fault(fault)) => Err(End::BadImage(0, fault)),
        Err(CheckError::OutOfMemory) => Err(End::NoMemory),
    }
}

/// The tool of a verb that is used on a mounted volume.
fn tool_for<'a>(vol: &'a VolWords, file: &'a [u8]) -> ToolUse<'a>
    requires no_disk { vol.now.verb ≢ Verb.Format }
    requires no_repair { vol.now.verb ≢ Verb.Repair }
    ensures { tool_of vol.now.verb (path_of_model vol.now) file.now ≡ Some (tool_used result) }
{
    let path = path_of(vol).as_bytes();
    match vol.verb {
        Verb::Put => ToolUse::Put(NewFile { path, bytes: file }),
        Verb::Get => ToolUse::Get(path),
        Verb::Mkdir => ToolUse::Mkdir(path),
        Verb::Delete => ToolUse::Remove(path),
        Verb::Dir => ToolUse::List(path),
        Verb::Format | Verb::Repair => unreachable!(),
    }
}

/// Frees the lost clusters of an image.
fn repair_image(alloc: Global, image: Vec<u8>) -> Result<Made, End>
    ensures { RepairsImage image.items result }
{
    let repaired = match repair(alloc, image) {
        Ok(repaired) => repaired,
        Err(CheckError::Fault(fault)) => return Err(End::BadImage(0, fault)),
        Err(CheckError::OutOfMemory) => return Err(End::NoMemory),
    };
    match freed_line(alloc, repaired.freed) {
        Ok(answer) => Ok(Made {
            answer,
            image: repaired.image,
        }),
        Err(_) => Err(End::NoMemory),
    }
}

/// The line with the number of clusters that have become free.
fn freed_line(alloc: Global, freed: u32) -> Result<Vec<u8>, AllocError>
    ensures { IfOk result (λ line. line.items ≡ freed_line_model freed) }
{
    let mut number = Buffer::new();
    let mut line = Vec::from_slice(alloc, b"freed ")?;
    line.extend_from_slice(number.format(freed).as_bytes())?;
    line.push(b'\n')?;
    Ok(line)
}
