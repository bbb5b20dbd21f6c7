ghost use Rattle.std.specs.Prelude.{◌≡◌, ℕ, List};
ghost use Rattle.rbf_model.specs.Volume.{DiskVolume};
ghost use Rattle.rbf_access.specs.Drive.{Counts};
ghost use Rattle.rbf_access.specs.Faults.{file_fault};
ghost use Rattle.rbf_access.specs.Mounted.{IsMounted, RepresentsVolume};
ghost use Rattle.rbf_access.specs.Reading.{OnVolumeFile};
ghost use Rattle.rbf_entries.specs.Deletions.{IsDeletable};
ghost use Rattle.rbf_entries.specs.Deleted.{AnswersDeletionOf, MayBeDeleted, file_deletion_calls};

use crate::{Deletable, free_entry};
use os9_outer::drive::BlockDriver;
use rbf_access::{FileFault, Volume};
use rbf_alloc::{OwnSectors, drop_own};

/// Deletes the file whose entry [`crate::find_deletable`] has found, for the user for whom it
/// was found (OS-9 Technical Reference, I$Delete): its entry is made free, and then its clusters
/// are. It makes at most these calls of the drive: a read and a write of the entry's sector, and
/// one for each sector of the map that has a mark of the file's clusters.
///
/// # Errors
///
/// `Device` if an access of the drive fails: then nothing has changed, or the file is removed, and
/// some of its clusters may be lost.
pub fn delete_at(
    v: &mut Volume,
    d: &mut dyn BlockDriver,
    found: &Deletable,
) -> Result<(), FileFault>
    requires mounted { IsMounted v.old (media d.old) }
    requires found { MayBeDeleted (media d.old) found.now }
    ensures answer { (dir : ℕ) (name : List ℕ) (on : DiskVolume)
        → IsDeletable (media d.old) dir name found.now → RepresentsVolume (media d.old) on
        → AnswersDeletionOf on dir found.now.descriptor name (media d.old) (media d.new) result }
    ensures mounted { IsMounted v.new (media d.new) }
    ensures counts { OnVolumeFile (media d.old) found.now.descriptor (λ on file.
        Counts BlockDriver-dyn (file_fault result)
        (file_deletion_calls on found.now.descriptor file) d.old d.new) }
{
    free_entry(v, d, found)?;
    // `found` has the fields read from the file's descriptor, which is not read again.
    let own = OwnSectors {
        fd: found.descriptor,
        segs: found.file.segs,
    };
    drop_own(v, d, &own)?;
    Ok(())
}
