//! Writing a file as a whole.

use crate::new_file::create_beside;
use std::fs::{Metadata, OpenFile, OpenOptions};
use std::io::{ErrorKind, Read, Write};
use std::os::unix::fs::FileTypeExt;
use std::path::Path;
use std::rt::Runtime;
use std::{fs, io};

/// The number of bytes of a file that are compared at a time.
const PART: usize = 8192;

// Sets the bytes of the file of this name to these.
//
// A plain file that has these bytes is left alone. Any other is replaced by a whole new one, so
// that a run which ends in the middle leaves the old bytes. A disk is written in place, and
// anything else that is not a plain file is refused.
pub(crate) fn write_whole<R: Runtime + AllocGlobal>(
    rt: &R,
    name: &str,
    bytes: &[u8],
) -> io::Result<()> {
    match fs::metadata(rt, name) {
        Ok(old) if old.is_file() => write_plain(rt, name, &old, bytes),
        Ok(old) if old.file_type().is_block_device() => write_in_place(rt, name, bytes),
        Ok(_) => Err(io::Error::from(ErrorKind::InvalidInput)),
        Err(error) if error.kind() == ErrorKind::NotFound => {
            replace(rt, Path::new(name), None, bytes)
        }
        Err(error) => Err(error),
    }
}

// Sets the bytes of a plain file to these.
fn write_plain<R: Runtime + AllocGlobal>(
    rt: &R,
    name: &str,
    old: &Metadata,
    bytes: &[u8],
) -> io::Result<()> {
    if old.len() == bytes.len() as u64 && matches!(begins_with(rt, name, bytes), Ok(true)) {
        return Ok(());
    }
    // (a file that may not be written is not replaced either)
    OpenOptions::new().write(true).open(rt, name)?;
    // (a link is followed: the file it names is replaced, not the link)
    let place = fs::canonicalize(rt, name)?;
    replace(rt, place.as_path(), Some(old), bytes)
}

// Does the file begin with these bytes?
fn begins_with<R: Runtime>(rt: &R, name: &str, bytes: &[u8]) -> io::Result<bool> {
    let mut file = fs::open(rt, name)?;
    let mut space = [0; PART];
    for part in bytes.chunks(PART) {
        let read = &mut space[..part.len().min(PART)];
        file.read_exact(read)?;
        if &*read != part {
            return Ok(false);
        }
    }
    Ok(true)
}

fn write_in_place<R: Runtime>(rt: &R, name: &str, bytes: &[u8]) -> io::Result<()> {
    let mut file = OpenOptions::new().write(true).open(rt, name)?;
    file.write_all(bytes)?;
    file.sync_all()
}

// Writes a new file next to the place, syncs it to the disk, and gives it the place. If that fails
// the new file is removed.
fn replace<R: Runtime + AllocGlobal>(
    rt: &R,
    place: Path<'_>,
    old: Option<&Metadata>,
    bytes: &[u8],
) -> io::Result<()> {
    let mut new = create_beside(rt, place, old)?;
    let kept = match old {
        Some(old) => new.take_after(rt, old),
        None => Ok(()),
    };
    let written = kept
        .and_then(|()| new.fill(bytes))
        .and_then(|()| new.rename(rt, place));
    match written {
        Ok(()) => sync_folder(rt, place),
        Err(error) => {
            new.remove(rt);
            Err(error)
        }
    }
}

// Syncs the names in the folder of this place to the disk, if the system does that for this folder.
fn sync_folder<R: Runtime>(rt: &R, place: Path<'_>) -> io::Result<()> {
    let folder = match place.parent() {
        Some(folder) if !folder.as_str().is_empty() => folder,
        _ => Path::new("."),
    };
    let Ok(folder) = fs::open(rt, folder) else {
        return Ok(());
    };
    match folder.sync_all() {
        Err(error) if error.kind() == ErrorKind::InvalidInput => Ok(()),
        synced => synced,
    }
}
