ghost use Rattle.std.specs.Prelude.{◌≡◌, ◌↔◌, ℕ, ◌<◌, ◌≤◌, true, false, length, None, IfOk, IfSome, OnErr, IsErrOf, IsNone};
ghost use Rattle.rbf_model.specs.Volume.{DiskVolume};
ghost use Rattle.rbf_access.specs.Drive.{Counts};
ghost use Rattle.rbf_access.specs.Faults.{file_fault};
ghost use Rattle.rbf_access.specs.Mounted.{IsMounted, RepresentsVolume, OnVolume};
ghost use Rattle.rbf_alloc.specs.Grown.{Grows, AreTaken, NoFault, growth_calls};

use crate::marks::write_marks;
use crate::returned::{ClusterRange, give_back};
use crate::taken::gain;
use os9_outer::drive::BlockDriver;
use rbf_access::{FileFault, Volume};
use rbf_segs::Segs;

/// Takes clusters for a file with these segments, on the media too, and returns its segments
/// followed by the sectors of those clusters. In the volume the clusters are lost until a
/// descriptor has them (OS-9 Technical Reference, Random Block File Manager, "Disk Allocation
/// Map"). Which ones are taken is our choice: the file's next cluster if that is free, otherwise
/// the first of the first run that has all clusters still needed, and if there is none, of the
/// longest run.
///
/// # Errors
///
/// `NoCluster` if and only if fewer are free, and `TooManyRuns` if a chosen one does not fit the
/// list: then nothing has changed. `Device` if a write of the drive fails: then some of the
/// clusters may be lost.
pub fn grow(
    volume: &mut Volume,
    d: &mut dyn BlockDriver,
    segs: &Segs,
    count: u32,
) -> Result<Segs, FileFault>
    requires mounted { IsMounted volume.old (media d.old) }
    requires few { length segs.now ≤ 48 }
    requires apart { AreTaken (media d.old) segs.now }
    ensures grows { (v : DiskVolume) → RepresentsVolume (media d.old) v
        → Grows v count segs.now (media d.old) (media d.new) result }
    ensures refused { OnErr result (IsNone (file_fault result) → media d.new ≡ media d.old) }
    ensures refused_calls { OnErr result (NoFault result → drive_calls d.new ≡ drive_calls d.old) }
    ensures mounted { IsMounted volume.new (media d.new) }
    ensures counts { Counts BlockDriver-dyn (file_fault result) count d.old d.new }
    ensures marks { OnVolume (media d.old) (λ v. Counts BlockDriver-dyn
        (file_fault result) (growth_calls v count segs.now result) d.old d.new) }
{
    if count == 0 {
        return Ok(*segs);
    }
    let k = volume.ident.cluster;
    let longer = gain(&mut volume.map, k, segs, count)?;
    let gained = ClusterRange {
        first: segs.sectors(),
        count,
    };
    let mut written = [false; 256];
    match write_marks(volume, d, &longer, gained, &mut written) {
        Ok(()) => Ok(longer),
        Err(fault) => {
            give_back(&mut volume.map, k, &longer, gained, &written);
            Err(fault)
        }
    }
}
