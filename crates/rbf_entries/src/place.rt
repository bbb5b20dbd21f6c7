ghost use Rattle.std.specs.Prelude.{◌≡◌, IfOk};
ghost use Rattle.os9_base.specs.Name.{IsName};
ghost use Rattle.rbf_model.specs.File.{DiskFile};
ghost use Rattle.rbf_change.specs.Names as model;
ghost use Rattle.rbf_access.specs.Drive.{Counts};
ghost use Rattle.rbf_access.specs.Mounted.{mounted_part, HasFile, IsMounted};
ghost use Rattle.rbf_access.specs.Reading.{IsFdOf, OnFile};
ghost use Rattle.rbf_walk.specs.Walk.{directory_fault};
ghost use Rattle.rbf_entries.specs.Places.{AnswersPlace, IsFoundFor, place_calls, place_found};

use os9_base::name::Name;
use os9_outer::drive::BlockDriver;
use rbf_access::Volume;
use rbf_sector::Fd;
use rbf_walk::{DirError, Searched, Searcher, is_open, may, search};
use rbf_write::{Loaded, load_file};

const WRITE: u8 = 2;

/// The place of a new entry in a directory whose descriptor has been read, and the user for whom it
/// was found, who searched to read or to execute.
#[derive(Clone, Copy, Debug)]
pub struct NewPlace {
    pub dir: Loaded,
    pub place: u32,
    pub by: Searcher,
}

/// Finds the place in a directory of a new entry with a name, for a user: the first free one, or
/// the one after the last (OS-9 Technical Reference, I$Create and I$MakDir). It makes one call of
/// the drive for the directory's descriptor, which is returned too, and at most one more for each
/// sector of the directory up to the one with the name.
///
/// # Errors
///
/// In this order: `BadPath` for the names `.` and `..`, before any access of the drive;
/// `NotAllowed` if the user may not search or may not write the directory, before any access of its
/// sectors; `Exists` if the name is there. `Device` if an access of the drive fails. Then nothing
/// has changed.
pub fn find_place(
    v: &mut Volume,
    d: &mut dyn BlockDriver,
    dir: u32,
    name: &Name,
    by: Searcher,
) -> Result<NewPlace, DirError>
    requires mounted { IsMounted v.old (media d.old) }
    requires file { HasFile (media d.old) dir }
    ensures answer { OnFile (media d.old) dir (λ file.
        AnswersPlace file name.now by.user by.execute (place_found result)) }
    ensures read { IfOk result (IsFoundFor (media d.old) dir by.user by.execute) }
    ensures mounted { IsMounted v.new (media d.new) }
    ensures media_kept { media d.new ≡ media d.old }
    ensures volume_kept { mounted_part v.new ≡ mounted_part v.old }
    ensures counts { OnFile (media d.old) dir (λ file. Counts BlockDriver-dyn
        (directory_fault result) (place_calls file name.now by.user by.execute) d.old d.new) }
{
    if is_dots(name) {
        return Err(DirError::BadPath);
    }
    let loaded = load_file(v, d, dir)?;
    if !may_change(&loaded.file, by) {
        return Err(DirError::NotAllowed);
    }
    match search(v, d, &loaded.file, name)? {
        Searched::Found { .. } => Err(DirError::Exists),
        Searched::Absent { free } => Ok(NewPlace {
            dir: loaded,
            place: free,
            by,
        }),
    }
}

// Whether it is `.` or `..`, which every directory has.
fn is_dots(name: &Name) -> bool
    ensures value { result ≡ model.is_dots name.now }
    ensures name { IsName name.now }
{
    match name.len() {
        1 => name.byte(0) == b'.',
        2 => name.byte(0) == b'.' && name.byte(1) == b'.',
        _ => false,
    }
}

// Whether it is a directory that a user may search and change.
fn may_change(fd: &Fd, by: Searcher) -> bool
    ensures { (file : DiskFile) → IsFdOf file fd.now
        → result ≡ model.may_change file by.user by.execute }
{
    is_open(fd, by) && may(fd, by.user, WRITE)
}
