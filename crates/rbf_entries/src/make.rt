ghost use Rattle.std.specs.Prelude.{◌≡◌, ◌+◌, false};
ghost use Rattle.rbf_access.specs.Drive.{Counts};
ghost use Rattle.rbf_access.specs.Faults.{file_fault};
ghost use Rattle.rbf_access.specs.Mounted.{HasFile, IsMounted};
ghost use Rattle.rbf_access.specs.Reading.{OnVolumeFile};
ghost use Rattle.rbf_walk.specs.Walk.{directory_fault};
ghost use Rattle.rbf_entries.specs.Entering.{AnswersEntering, entering_calls, widened};
ghost use Rattle.rbf_entries.specs.Places.{IsPlaceForName, place_calls};
ghost use Rattle.rbf_entries.specs.Asked.{folder_request};
ghost use Rattle.rbf_entries.specs.FolderMade.{folder_calls};

use crate::folder::{NewFolder, create_folder};
use crate::folder_parts::new_clusters;
use crate::{NewEntry, NewPlace, check_room, enter_file, find_place, new_entry};
use os9_outer::drive::BlockDriver;
use rbf_access::{FileFault, Volume};
use rbf_walk::{DirError, Searcher};

/// Makes a directory in another one, for a user, and returns the number of its descriptor (OS-9
/// Technical Reference, I$MakDir). Its entry is put into the first free place of its parent, or
/// after the last entry, by the last sector write. All conditions are checked before anything is
/// taken.
///
/// # Errors
///
/// In this order: `BadPath` for the names `.` and `..`, before any access of the drive;
/// `NotAllowed` if the user may not read or may not write the parent; `Exists` if the name is
/// there; `NoCluster` if fewer clusters are free than the directory and its entry need;
/// `TooManyRuns` if the parent needs a cluster and already has all its segments. Then nothing has
/// changed. `Device` if an access of the drive fails: then the tree is unchanged, and clusters may
/// be lost. If the call would have been refused for any of these causes, a drive fault changes
/// nothing.
pub fn make_dir(
    v: &mut Volume,
    d: &mut dyn BlockDriver,
    dir: u32,
    file: &NewEntry,
    user: u16,
) -> Result<u32, DirError>
    requires mounted { IsMounted v.old (media d.old) }
    requires file { HasFile (media d.old) dir }
    ensures answer { OnVolumeFile (media d.old) dir (λ on parent. AnswersEntering on parent
        (folder_request dir file.now.name file.now.attr user file.now.date)
        (media d.old) (media d.new) result) }
    ensures mounted { IsMounted v.new (media d.new) }
    ensures counts { OnVolumeFile (media d.old) dir (λ on parent.
        Counts BlockDriver-dyn (directory_fault result)
        (place_calls parent file.now.name user false
        + entering_calls on parent (folder_calls on (media d.new) result) result) d.old d.new) }
{
    let by = Searcher {
        user,
        execute: false,
    };
    let found = find_place(v, d, dir, &file.name, by)?;
    let n = make_dir_at(v, d, &found, file)?;
    Ok(n)
}

/// Makes a directory by a name that is not in its parent, and returns the number of its descriptor
/// (OS-9 Technical Reference, I$MakDir). Its entry is put into the place that
/// [`crate::find_place`] has returned to a user who searched to read.
///
/// # Errors
///
/// As [`make_dir`] from `NoCluster` on; a refusal makes no call of the drive.
pub fn make_dir_at(
    v: &mut Volume,
    d: &mut dyn BlockDriver,
    found: &NewPlace,
    file: &NewEntry,
) -> Result<u32, FileFault>
    requires mounted { IsMounted v.old (media d.old) }
    requires place { IsPlaceForName (media d.old) file.now.name found.now }
    requires reading { found.now.by.execute ≡ false }
    ensures answer { OnVolumeFile (media d.old) found.now.dir.number (λ on parent.
        AnswersEntering on parent (folder_request
        found.now.dir.number file.now.name file.now.attr found.now.by.user file.now.date)
        (media d.old) (media d.new) (widened result)) }
    ensures mounted { IsMounted v.new (media d.new) }
    ensures counts { OnVolumeFile (media d.old) found.now.dir.number (λ on parent.
        Counts BlockDriver-dyn (file_fault result)
        (entering_calls on parent (folder_calls on (media d.new) result) (widened result))
        d.old d.new) }
{
    let clusters = new_clusters(v.ident.cluster);
    check_room(v, &found.dir.file, found.place, clusters)?;
    let folder = NewFolder {
        attr: file.attr,
        owner: found.by.user,
        parent: found.dir.number,
        date: file.date,
    };
    let n = create_folder(v, d, folder)?;
    enter_file(v, d, found, &new_entry(&file.name, n), file.date)?;
    Ok(n)
}
