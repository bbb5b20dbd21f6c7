ghost use Rattle.std.specs.Prelude.{◌≡◌, ℕ, ◌+◌, List, OnOk, OnErr, IsSome};
ghost use Rattle.os9_outer.specs.Drive.{sector_at};
ghost use Rattle.rbf_model.specs.Fields.{segments_field};
ghost use Rattle.rbf_model.specs.File.{DiskFile};
ghost use Rattle.rbf_model.specs.Space.{has_cluster};
ghost use Rattle.rbf_model.specs.Volume.{DiskVolume};
ghost use Rattle.rbf_access.specs.Drive.{Counts};
ghost use Rattle.rbf_access.specs.Faults.{file_fault};
ghost use Rattle.rbf_access.specs.MapMarks.{marking_sectors};
ghost use Rattle.rbf_access.specs.Mounted.{IsMounted};
ghost use Rattle.rbf_change.specs.Calls.{shape};
ghost use Rattle.rbf_alloc.specs.Dropped.{DropEnds, FileHasGone, IsDropped, IsGone};

use crate::own::OwnSectors;
use crate::release::release_in;
use os9_outer::drive::BlockDriver;
use rbf_access::{FileFault, Volume};
use rbf_sector::{read_fd, system_sectors};

/// Gives back the clusters of a removed file: its descriptor, which is read, is still in its
/// sector, and no entry names it (OS-9 Technical Reference, Random Block File Manager, "Disk
/// Allocation Map").
///
/// # Errors
///
/// `Device` if an access of the drive fails; then some of the clusters may still be lost.
pub fn drop_fd(volume: &mut Volume, d: &mut dyn BlockDriver, fd: u32) -> Result<(), FileFault>
    requires mounted { IsMounted volume.old (media d.old) }
    requires gone { FileHasGone (media d.old) fd }
    ensures ok { (v : DiskVolume) (file : DiskFile) → IsGone (media d.old) v fd file
        → OnOk result (IsDropped v fd file (media d.old) (media d.new)) }
    ensures fault { (v : DiskVolume) (file : DiskFile) → IsGone (media d.old) v fd file
        → OnErr result (DropEnds v fd file (media d.old) (media d.new)) }
    ensures device { OnErr result (IsSome (file_fault result)) }
    ensures mounted { IsMounted volume.new (media d.new) }
    ensures counts { (v : DiskVolume) (file : DiskFile) → IsGone (media d.old) v fd file
        → Counts BlockDriver-dyn (file_fault result)
        (1 + marking_sectors (shape v) (has_cluster (shape v) fd file)) d.old d.new }
{
    let bytes = volume.load(d, fd)?;
    let own = OwnSectors {
        fd,
        segs: read_fd(&bytes).segs,
    };
    drop_own(volume, d, &own)?;
    Ok(())
}

/// The same for a descriptor that has been read: it is not read again. Each sector of the map that
/// has a mark of the clusters is written once.
///
/// # Errors
///
/// `Device` if a write of the drive fails; then some of the clusters may still be lost.
pub fn drop_own(
    volume: &mut Volume,
    d: &mut dyn BlockDriver,
    own: &OwnSectors,
) -> Result<(), FileFault>
    requires mounted { IsMounted volume.old (media d.old) }
    requires gone { FileHasGone (media d.old) own.now.fd }
    requires list { own.now.segs ≡ segments_field (sector_at (media d.old) own.now.fd) }
    ensures ok { (v : DiskVolume) (file : DiskFile) → IsGone (media d.old) v own.now.fd file
        → OnOk result (IsDropped v own.now.fd file (media d.old) (media d.new)) }
    ensures fault { (v : DiskVolume) (file : DiskFile) → IsGone (media d.old) v own.now.fd file
        → OnErr result (DropEnds v own.now.fd file (media d.old) (media d.new)) }
    ensures device { OnErr result (IsSome (file_fault result)) }
    ensures mounted { IsMounted volume.new (media d.new) }
    ensures counts { (v : DiskVolume) (file : DiskFile) → IsGone (media d.old) v own.now.fd file
        → Counts BlockDriver-dyn (file_fault result)
        (marking_sectors (shape v) (has_cluster (shape v) own.now.fd file)) d.old d.new }
{
    let end = system_sectors(&volume.ident) - 1;
    for place in 0..end {
        release_in(volume, d, own, place)?;
    }
    Ok(())
}
