ghost use Rattle.std.specs.Prelude.{◌≡◌, ℕ, ◌<◌, OnErr, IsNone};
ghost use Rattle.rbf_model.specs.Volume.{DiskVolume};
ghost use Rattle.rbf_change.specs.NewFiles.{directory_plan};
ghost use Rattle.rbf_access.specs.Drive.{Counts};
ghost use Rattle.rbf_access.specs.Faults.{file_fault};
ghost use Rattle.rbf_access.specs.Mounted.{IsMounted, RepresentsVolume};
ghost use Rattle.rbf_entries.specs.FolderMade.{MakesFolder, folder_calls};

use crate::descriptor;
use crate::folder_parts::{first_segs, new_clusters, new_directory};
use crate::listing::listing;
use os9_base::registers::TimePacket;
use os9_outer::drive::BlockDriver;
use rbf_access::{FileFault, Volume};
use rbf_alloc::grow;
use rbf_segs::Segs;

/// A directory that is to be made, before it has a name: its attributes, its owner, the number of
/// its parent's descriptor and the date of its creation.
#[derive(Clone, Copy, Debug)]
pub struct NewFolder {
    pub attr: u8,
    pub owner: u16,
    pub parent: u32,
    pub date: TimePacket,
}

/// Makes a directory without a name in a parent directory, and returns the number of its
/// descriptor, which is the first sector of a free cluster. The directory holds two entries, `..`
/// and `.`; their sector is the next one, or a cluster of its own if clusters have one sector. The
/// clusters are lost until an entry names the directory (OS-9 Technical Reference, Random Block
/// File Manager, "File Descriptors" and "Directories").
///
/// # Errors
///
/// `NoCluster` if and only if fewer clusters are free than that: then nothing has changed. `Device`
/// if a write of the drive fails: then the descriptor is not written, and clusters may be lost.
pub fn create_folder(
    volume: &mut Volume,
    d: &mut dyn BlockDriver,
    folder: NewFolder,
) -> Result<u32, FileFault>
    requires mounted { IsMounted volume.old (media d.old) }
    requires parent { folder.parent < 16777216 }
    ensures makes { (v : DiskVolume) → RepresentsVolume (media d.old) v
        → MakesFolder v folder.parent
        (directory_plan folder.attr folder.owner folder.date folder.parent)
        (media d.old) (media d.new) result }
    ensures refused { OnErr result (IsNone (file_fault result) → media d.new ≡ media d.old) }
    ensures mounted { IsMounted volume.new (media d.new) }
    ensures counts { (v : DiskVolume) → RepresentsVolume (media d.old) v
        → Counts BlockDriver-dyn (file_fault result)
        (folder_calls v (media d.new) result) d.old d.new }
{
    let k = volume.ident.cluster;
    let space = grow(volume, d, &Segs::empty(), new_clusters(k))?;
    let n = space.lsn_of(0).unwrap();
    let first = space.lsn_of(1).unwrap();
    volume.store(d, first, &listing(n, folder.parent))?;
    let file = new_directory(
        folder.attr,
        folder.owner,
        &folder.date,
        first_segs(k, first),
    );
    volume.store(d, n, &descriptor(&file))?;
    Ok(n)
}
