ghost use Rattle.std.specs.Prelude.{◌≡◌, ℕ, ◌<◌, OnErr, IsNone};
ghost use Rattle.rbf_model.specs.Volume.{DiskVolume};
ghost use Rattle.rbf_change.specs.NewFiles.{file_plan};
ghost use Rattle.rbf_access.specs.Drive.{Counts};
ghost use Rattle.rbf_access.specs.Faults.{file_fault};
ghost use Rattle.rbf_access.specs.Mounted.{IsMounted, RepresentsVolume};
ghost use Rattle.rbf_entries.specs.Made.{MakesNewFile};

use crate::parts::{descriptor, first_segs, new_file};
use os9_base::registers::TimePacket;
use os9_outer::drive::BlockDriver;
use rbf_access::{FileFault, Volume};
use rbf_alloc::grow;
use rbf_segs::Segs;

/// Makes a file without contents and without a name, and returns the number of its descriptor,
/// which is the first sector of a free cluster. The other sectors of that cluster are the file's
/// first segment. The cluster is lost until an entry names the file (OS-9 Technical Reference,
/// Random Block File Manager, "File Descriptors").
///
/// # Errors
///
/// `NoCluster` if and only if no cluster is free: then nothing has changed. `Device` if a write of
/// the drive fails: then the cluster may be lost.
pub fn create_fd(
    volume: &mut Volume,
    d: &mut dyn BlockDriver,
    attr: u8,
    owner: u16,
    now: TimePacket,
) -> Result<u32, FileFault>
    requires mounted { IsMounted volume.old (media d.old) }
    requires file { attr < 128 }
    ensures makes { (v : DiskVolume) → RepresentsVolume (media d.old) v
        → MakesNewFile v (file_plan attr owner now) (media d.old) (media d.new) result }
    ensures refused { OnErr result (IsNone (file_fault result) → media d.new ≡ media d.old) }
    ensures mounted { IsMounted volume.new (media d.new) }
    ensures counts { Counts BlockDriver-dyn (file_fault result) 2 d.old d.new }
{
    let space = grow(volume, d, &Segs::empty(), 1)?;
    let n = space.lsn_of(0).unwrap();
    let segs = first_segs(volume.ident.cluster, n);
    let file = new_file(attr, owner, &now, segs);
    volume.store(d, n, &descriptor(&file))?;
    Ok(n)
}
