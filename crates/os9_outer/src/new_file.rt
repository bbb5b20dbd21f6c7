//! A new file next to another one, which it is to replace.

use std::fs::{File, Metadata, OpenFile, OpenOptions, Permissions};
use std::io::{ErrorKind, Write};
use std::os::unix::fs::{MetadataExt, OpenOptionsExt, PermissionsExt, lchown};
use std::path::{Path, PathBuf};
use std::rt::Runtime;
use std::{fs, io};

/// The mode of a new file: only its owner has access, until it has the mode of the old one.
const OWNER_ALONE: u32 = 0o600;

/// The mode of a new file that replaces none. The umask takes away from it.
const ANYONE: u32 = 0o666;

/// The bits of a mode that are not given to another owner: that programs run as the owner.
const OF_OWNER: u32 = 0o4000;

/// The bits of a mode that are not given to another group: what the group may do, and that programs
/// run as the group.
const OF_GROUP: u32 = 0o2070;

/// A file that this run has made, under a name that was free.
#[derive(Drop)]
pub(crate) struct NewFile<F: Drop> {
    path: PathBuf,
    file: F,
}

// Makes a file next to the one of this place: its name, `.os9-` and the first free number from 1.
pub(crate) fn create_beside<R: Runtime + AllocGlobal>(
    rt: &R,
    place: Path<'_>,
    old: Option<&Metadata>,
) -> io::Result<NewFile<R::File>> {
    let mode = if old.is_some() { OWNER_ALONE } else { ANYONE };
    for number in 1..u32::MAX {
        let name = format!(in rt.alloc(); "{}.os9-{number}", place.as_str())?;
        match OpenOptions::new()
            .write(true)
            .create_new(true)
            .mode(mode)
            .open(rt, &name)
        {
            Ok(file) => {
                return Ok(NewFile {
                    path: PathBuf::from(name),
                    file,
                });
            }
            Err(error) if error.kind() == ErrorKind::AlreadyExists => {}
            Err(error) => return Err(error),
        }
    }
    Err(io::Error::from(ErrorKind::AlreadyExists))
}

impl<F: Write + OpenFile + Drop> NewFile<F> {
    // Gives the file the owner, the group and the mode of the old one. An owner or a group that the
    // system does not let this user give is not kept, and then no other gets its bits of the mode.
    pub(crate) fn take_after<R: Runtime>(&self, rt: &R, old: &Metadata) -> io::Result<()> {
        let path = self.path.as_path();
        let mut mode = old.permissions().mode();
        if lchown(rt, path, Some(old.uid()), Some(old.gid())).is_err() {
            mode &= !OF_OWNER;
            if lchown(rt, path, None, Some(old.gid())).is_err() {
                mode &= !OF_GROUP;
            }
        }
        self.file.set_permissions(Permissions::from_mode(mode))
    }

    // Writes these bytes, and syncs them to the disk.
    pub(crate) fn fill(&mut self, bytes: &[u8]) -> io::Result<()> {
        self.file.write_all(bytes)?;
        self.file.sync_all()
    }

    // Gives the file this name, and replaces any file of that name.
    pub(crate) fn rename<R: Runtime>(&self, rt: &R, place: Path<'_>) -> io::Result<()> {
        if !self.has_its_name(rt) {
            return Err(io::Error::from(ErrorKind::NotFound));
        }
        fs::rename(rt, self.path.as_path(), place)
    }

    // Removes the file. If it cannot be removed it stays there, and the caller need not know that.
    pub(crate) fn remove<R: Runtime>(&self, rt: &R) {
        if self.has_its_name(rt) {
            let _ = fs::remove_file(rt, self.path.as_path());
        }
    }

    // Does its name still lead to this file, and not to one that was put there since?
    fn has_its_name<R: Runtime>(&self, rt: &R) -> bool {
        match (
            self.file.metadata(),
            fs::symlink_metadata(rt, self.path.as_path()),
        ) {
            (Ok(made), Ok(named)) => made.dev() == named.dev() && made.ino() == named.ino(),
            _ => false,
        }
    }
}
