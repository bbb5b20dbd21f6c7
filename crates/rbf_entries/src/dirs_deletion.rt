ghost use Rattle.std.specs.Prelude.{◌≡◌, ℕ, OnOk, OnErr, IsNone};
ghost use Rattle.rbf_model.specs.Volume.{DiskVolume};
ghost use Rattle.rbf_change.specs.Names.{deletion_end};
ghost use Rattle.rbf_access.specs.Drive.{Counts};
ghost use Rattle.rbf_access.specs.Mounted.{HasFile, IsMounted, RepresentsVolume};
ghost use Rattle.rbf_access.specs.Reading.{OnVolumeFile};
ghost use Rattle.rbf_walk.specs.Walk.{directory_fault};
ghost use Rattle.rbf_entries.specs.Deleted.{AnswersDeletion, DeletionStops, IsDeletedBy, deletion_total};

use crate::find_deletable;
use crate::found::delete_at;
use os9_base::name::Name;
use os9_outer::drive::BlockDriver;
use rbf_access::Volume;
use rbf_walk::{DirError, Searcher};

/// Deletes a file by its name in a directory, for a user (OS-9 Technical Reference, I$Delete): its
/// entry is made free, and then its clusters are. It makes at most these calls of the drive: those
/// of the search up to the name, one for the descriptor that is found, a read and a write of the
/// entry's sector, and one for each sector of the map that has a mark of the file's clusters.
///
/// # Errors
///
/// `NotAllowed` if the user may not search or may not write the directory, and for a directory or a
/// file that the user may not write; `NotFound` if the name is not there: then nothing has changed.
/// `Device` if an access of the drive fails: then nothing has changed, or the file, which the user
/// may delete, is removed, and some of its clusters may be lost.
pub fn delete(
    v: &mut Volume,
    d: &mut dyn BlockDriver,
    dir: u32,
    name: &Name,
    by: Searcher,
) -> Result<(), DirError>
    requires mounted { IsMounted v.old (media d.old) }
    requires file { HasFile (media d.old) dir }
    ensures answer { OnVolumeFile (media d.old) dir (λ on file.
        AnswersDeletion (deletion_end on.files file name.now by.user by.execute) result) }
    ensures ok { (on : DiskVolume) → RepresentsVolume (media d.old) on
        → OnOk result (IsDeletedBy on dir name.now (media d.old) (media d.new)) }
    ensures fault { (on : DiskVolume) → RepresentsVolume (media d.old) on → OnErr result
        (DeletionStops on dir name.now by.user by.execute (media d.old) (media d.new)) }
    ensures refused { OnErr result (IsNone (directory_fault result) → media d.new ≡ media d.old) }
    ensures mounted { IsMounted v.new (media d.new) }
    ensures counts { OnVolumeFile (media d.old) dir (λ on f. Counts BlockDriver-dyn
        (directory_fault result) (deletion_total on f name.now by.user by.execute) d.old d.new) }
{
    let found = find_deletable(v, d, dir, name, by)?;
    delete_at(v, d, &found)?;
    Ok(())
}
