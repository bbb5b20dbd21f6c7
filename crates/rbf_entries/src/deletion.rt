ghost use Rattle.std.specs.Prelude.{◌≡◌, IfOk, OnOk, OnErr, Some};
ghost use Rattle.rbf_model.specs.File.{DiskFile};
ghost use Rattle.rbf_change.specs.Names as model;
ghost use Rattle.rbf_change.specs.Names.{deletion_end};
ghost use Rattle.rbf_access.specs.Drive.{Counts};
ghost use Rattle.rbf_access.specs.Mounted.{mounted_part, HasFile, IsMounted};
ghost use Rattle.rbf_access.specs.Reading.{IsFdOf, OnFile, OnVolumeFile};
ghost use Rattle.rbf_walk.specs.Walk.{AnswersWalk, directory_fault};
ghost use Rattle.rbf_entries.specs.Becomes.{Becomes};
ghost use Rattle.rbf_entries.specs.Deletions.{FreesName, FreesOn, IsDeletable, deletion_calls, freeing_calls, descriptor_found};

use crate::freed::free_entry;
use os9_base::name::Name;
use os9_outer::drive::BlockDriver;
use rbf_access::Volume;
use rbf_sector::Fd;
use rbf_walk::{DirError, Searched, Searcher, is_open, may, search};

const WRITE: u8 = 2;

/// An entry that may be deleted: its place in the directory, the sector that has it, and the
/// descriptor that it names, with the fields of that descriptor.
#[derive(Clone, Copy, Debug)]
pub struct Deletable {
    pub place: u32,
    pub lsn: u32,
    pub descriptor: u32,
    pub file: Fd,
}

/// Deletes the name of a file from a directory, for a user, and returns what was found of the file.
/// The file is then removed from the volume, and its whole clusters are lost until they are given
/// back. One call of the drive is made for its descriptor, and one for that of the directory.
///
/// # Errors
///
/// `NotAllowed` if the user may not search or may not write the directory, and for a directory or a
/// file that the user may not write; `NotFound` if the name is not there; `Device` if an access of
/// the drive fails. Then the media is unchanged.
pub fn delete_name(
    v: &mut Volume,
    d: &mut dyn BlockDriver,
    dir: u32,
    name: &Name,
    by: Searcher,
) -> Result<Deletable, DirError>
    requires mounted { IsMounted v.old (media d.old) }
    requires file { HasFile (media d.old) dir }
    ensures answer { OnVolumeFile (media d.old) dir (λ on file. AnswersWalk
        (deletion_end on.files file name.now by.user by.execute) (descriptor_found result)) }
    ensures ok { OnOk result (Becomes (media d.old) (media d.new) (λ old new.
        FreesName old new dir name.now)) }
    ensures written { IfOk result (FreesOn (media d.old) (media d.new) dir name.now) }
    ensures media_kept { OnErr result (media d.new ≡ media d.old) }
    ensures mounted { IsMounted v.new (media d.new) }
    ensures volume_kept { mounted_part v.new ≡ mounted_part v.old }
    ensures counts { OnVolumeFile (media d.old) dir (λ on f. Counts BlockDriver-dyn
        (directory_fault result) (freeing_calls on f name.now by.user by.execute) d.old d.new) }
{
    let found = find_deletable(v, d, dir, name, by)?;
    free_entry(v, d, &found)?;
    Ok(found)
}

/// The entry of a directory that has a name, if a user may delete it: an entry of a file, not of a
/// directory (OS-9 Technical Reference, I$Delete). It makes one call of the drive for each of the
/// two descriptors, and at most one more for each sector of the directory up to the one with the
/// name.
///
/// # Errors
///
/// `NotAllowed` if the user may not search or may not write the directory, before any access of its
/// sectors; `NotFound` if the name is not there; `NotAllowed` for a directory or a file that the
/// user may not write; `Device` if an access of the drive fails. The media is unchanged.
pub fn find_deletable(
    v: &mut Volume,
    d: &mut dyn BlockDriver,
    dir: u32,
    name: &Name,
    by: Searcher,
) -> Result<Deletable, DirError>
    requires mounted { IsMounted v.old (media d.old) }
    requires file { HasFile (media d.old) dir }
    ensures answer { OnVolumeFile (media d.old) dir (λ on file. AnswersWalk
        (deletion_end on.files file name.now by.user by.execute) (descriptor_found result)) }
    ensures ok { IfOk result (IsDeletable (media d.old) dir name.now) }
    ensures mounted { IsMounted v.new (media d.new) }
    ensures media_kept { media d.new ≡ media d.old }
    ensures volume_kept { mounted_part v.new ≡ mounted_part v.old }
    ensures counts { OnFile (media d.old) dir (λ file. Counts BlockDriver-dyn
        (directory_fault result) (deletion_calls file name.now by.user by.execute) d.old d.new) }
{
    let fd = v.fd(d, dir)?;
    if !may_change(&fd, by) {
        return Err(DirError::NotAllowed);
    }
    match search(v, d, &fd, name)? {
        Searched::Absent { .. } => Err(DirError::NotFound),
        Searched::Found { place, descriptor } => {
            let file = v.fd(d, descriptor)?;
            if !may_delete(&file, by.user) {
                return Err(DirError::NotAllowed);
            }
            let lsn = fd.segs.lsn_of(place / 8).unwrap();
            Ok(Deletable {
                place,
                lsn,
                descriptor,
                file,
            })
        }
    }
}

// Whether it is a directory that a user may search and change.
fn may_change(fd: &Fd, by: Searcher) -> bool
    ensures { (file : DiskFile) → IsFdOf file fd.now
        → result ≡ model.may_change file by.user by.execute }
{
    is_open(fd, by) && may(fd, by.user, WRITE)
}

// Whether it is a file, not a directory, that a user may delete.
fn may_delete(fd: &Fd, user: u16) -> bool
    ensures { (file : DiskFile) → IsFdOf file fd.now → result ≡ model.may_delete (Some file) user }
{
    fd.attr >> 7 == 0 && may(fd, user, WRITE)
}
