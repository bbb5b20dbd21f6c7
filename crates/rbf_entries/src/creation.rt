ghost use Rattle.std.specs.Prelude.{◌≡◌, ◌+◌, ◌<◌};
ghost use Rattle.rbf_access.specs.Drive.{Counts};
ghost use Rattle.rbf_access.specs.Mounted.{HasFile, IsMounted};
ghost use Rattle.rbf_access.specs.Reading.{OnVolumeFile};
ghost use Rattle.rbf_walk.specs.Walk.{directory_fault};
ghost use Rattle.rbf_entries.specs.Entering.{AnswersEntering, entering_calls};
ghost use Rattle.rbf_entries.specs.Places.{place_calls};
ghost use Rattle.rbf_entries.specs.Creating.{request};

use crate::placed::create_at;
use crate::{NewEntry, find_place};
use os9_outer::drive::BlockDriver;
use rbf_access::Volume;
use rbf_walk::{DirError, Searcher};

/// Creates a file without contents in a directory, for a user, and returns the number of its
/// descriptor (OS-9 Technical Reference, I$Create). Its entry is put into the first free place of
/// the directory, or after the last entry, by the last sector write. All conditions are checked
/// before anything is taken.
///
/// # Errors
///
/// In this order: `BadPath` for the names `.` and `..`, before any access of the drive;
/// `NotAllowed` if the user may not search or may not write the directory; `Exists` if the name is
/// there; `NoCluster` if fewer clusters are free than the file and its entry need; `TooManyRuns` if
/// the directory needs a cluster and already has all its segments. Then nothing has changed.
/// `Device` if an access of the drive fails: then the tree is unchanged, and clusters may be lost.
/// If the call would have been refused for any of these causes, a drive fault changes nothing.
pub fn create(
    v: &mut Volume,
    d: &mut dyn BlockDriver,
    dir: u32,
    file: &NewEntry,
    by: Searcher,
) -> Result<u32, DirError>
    requires mounted { IsMounted v.old (media d.old) }
    requires file { HasFile (media d.old) dir }
    requires attributes { file.now.attr < 128 }
    ensures answer { OnVolumeFile (media d.old) dir (λ on folder. AnswersEntering on folder
        (request dir file.now.name file.now.attr by.user by.execute file.now.date)
        (media d.old) (media d.new) result) }
    ensures mounted { IsMounted v.new (media d.new) }
    ensures counts { OnVolumeFile (media d.old) dir (λ on folder.
        Counts BlockDriver-dyn (directory_fault result)
        (place_calls folder file.now.name by.user by.execute + entering_calls on folder 2 result)
        d.old d.new) }
{
    let found = find_place(v, d, dir, &file.name, by)?;
    let n = create_at(v, d, &found, file)?;
    Ok(n)
}
