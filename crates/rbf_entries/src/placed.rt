ghost use Rattle.std.specs.Prelude.{◌≡◌, ◌<◌};
ghost use Rattle.rbf_access.specs.Drive.{Counts};
ghost use Rattle.rbf_access.specs.Faults.{file_fault};
ghost use Rattle.rbf_access.specs.Mounted.{IsMounted};
ghost use Rattle.rbf_access.specs.Reading.{OnVolumeFile};
ghost use Rattle.rbf_entries.specs.Entering.{AnswersEntering, entering_calls, widened};
ghost use Rattle.rbf_entries.specs.Places.{IsPlaceForName};
ghost use Rattle.rbf_entries.specs.Creating.{request};

use crate::{NewEntry, NewPlace, check_room, create_fd, enter_file, new_entry};
use os9_outer::drive::BlockDriver;
use rbf_access::{FileFault, Volume};

/// Creates a file without contents, by a name that is not in the directory, and returns the number
/// of its descriptor (OS-9 Technical Reference, I$Create). Its entry is put into the place that
/// [`crate::find_place`] has returned for this name and user. All conditions are checked before
/// anything is taken, and the last sector write puts the entry there.
///
/// # Errors
///
/// In this order: `NoCluster` if fewer clusters are free than the file and its entry need,
/// `TooManyRuns` if the directory needs a cluster and already has all its segments: then nothing
/// has changed, and no call of the drive was made. `Device` if an access of the drive fails: then
/// the tree is unchanged, and clusters may be lost.
pub fn create_at(
    v: &mut Volume,
    d: &mut dyn BlockDriver,
    found: &NewPlace,
    file: &NewEntry,
) -> Result<u32, FileFault>
    requires mounted { IsMounted v.old (media d.old) }
    requires place { IsPlaceForName (media d.old) file.now.name found.now }
    requires attributes { file.now.attr < 128 }
    ensures answer { OnVolumeFile (media d.old) found.now.dir.number (λ on dir.
        AnswersEntering on dir (request found.now.dir.number file.now.name file.now.attr
        found.now.by.user found.now.by.execute file.now.date)
        (media d.old) (media d.new) (widened result)) }
    ensures mounted { IsMounted v.new (media d.new) }
    ensures counts { OnVolumeFile (media d.old) found.now.dir.number (λ on dir.
        Counts BlockDriver-dyn (file_fault result)
        (entering_calls on dir 2 (widened result)) d.old d.new) }
{
    check_room(v, &found.dir.file, found.place, 1)?;
    let n = create_fd(v, d, file.attr, found.by.user, file.date)?;
    enter_file(v, d, found, &new_entry(&file.name, n), file.date)?;
    Ok(n)
}
