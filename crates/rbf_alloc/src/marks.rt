ghost use Rattle.std.specs.Prelude.{◌≡◌, ℕ, List, ◌+◌, ◌*◌, ◌/◌, ◌<◌, ◌≤◌, min, set, Bool, true, length, if◌then◌else◌, OnOk, OnErr, IsSome};
ghost use Rattle.os9_outer.specs.Drive.{sector_count, with_sector};
ghost use Rattle.rbf_model.specs.ClusterMap.{IsSectorOf};
ghost use Rattle.rbf_access.specs.Cached.{IsCacheOf};
ghost use Rattle.rbf_access.specs.Drive.{Counts};
ghost use Rattle.rbf_access.specs.Faults.{file_fault};
ghost use Rattle.rbf_access.specs.Mounted.{mounted_part, IsSoundMedia};
ghost use Rattle.rbf_alloc.specs.Gained.{AreMapped, AreSizes, is_written, clusters_from};
ghost use Rattle.rbf_alloc.specs.Marked.{WritesMapSector, NewMarks, IsMarking, AllWritten, AreWanted, unwritten};

use crate::returned::{ClusterRange, cluster_of};
use os9_outer::drive::BlockDriver;
use rbf_access::{FileFault, Volume};
use rbf_segs::Segs;

// Writes the sectors of the map that have a mark of these clusters, each once.
pub fn write_marks(
    v: &mut Volume,
    d: &mut dyn BlockDriver,
    segs: &Segs,
    range: ClusterRange,
    written: &mut [bool; 256],
) -> Result<(), FileFault>
    requires marking { IsMarking (mounted_part v.old) (media d.old) written.old }
    requires places { AreMapped v.old.ident.cluster v.old.map segs.now range.first range.count }
    requires cached { IsCacheOf (media d.old) v.old.cache }
    ensures on { NewMarks (media d.old) (media d.new) (mounted_part v.old) written.old written.new }
    ensures all { OnOk result (AllWritten
        (clusters_from v.old.ident.cluster segs.now range.first range.count) written.new) }
    ensures device { OnErr result (IsSome (file_fault result)) }
    ensures volume_kept { mounted_part v.new ≡ mounted_part v.old }
    ensures cached { IsCacheOf (media d.new) v.new.cache }
    ensures counts { (wanted : ℕ → Bool) (n : ℕ) → AreWanted v.old.ident.cluster segs.now
        range.first range.count wanted n → Counts BlockDriver-dyn (file_fault result)
        (min range.count (unwritten wanted written.old n)) d.old d.new }
{
    let k = v.ident.cluster;
    for i in 0..range.count {
        let cluster = cluster_of(segs, k, range.first + i * u32::from(k));
        write_mark(v, d, cluster, written)?;
    }
    Ok(())
}

// Writes the sector of the map that has the mark of a cluster, unless it was written.
fn write_mark(
    volume: &mut Volume,
    d: &mut dyn BlockDriver,
    cluster: u32,
    written: &mut [bool; 256],
) -> Result<(), FileFault>
    requires marking { IsMarking (mounted_part volume.old) (media d.old) written.old }
    requires in_map { cluster < volume.old.map.whole }
    requires cached { IsCacheOf (media d.old) volume.old.cache }
    ensures on { NewMarks (media d.old) (media d.new)
        (mounted_part volume.old) written.old written.new }
    ensures there { OnOk result (is_written written.new cluster ≡ true) }
    ensures marked { OnOk result (written.new ≡ set written.old (cluster / 2048) true) }
    ensures device { OnErr result (IsSome (file_fault result)) }
    ensures volume_kept { mounted_part volume.new ≡ mounted_part volume.old }
    ensures cached { IsCacheOf (media d.new) volume.new.cache }
    ensures counts { Counts BlockDriver-dyn (file_fault result)
        (if is_written written.old cluster then 0 else 1) d.old d.new }
{
    let place = cluster / 2048;
    if written[place as usize] {
        return Ok(());
    }
    write_map_sector(volume, d, place as u16)?;
    written[place as usize] = true;
    Ok(())
}

// Writes a sector of the map, counted from 0.
fn write_map_sector(volume: &mut Volume, d: &mut dyn BlockDriver, n: u16) -> Result<(), FileFault>
    requires on { 1 + n < sector_count (media d.old) }
    requires cached { IsCacheOf (media d.old) volume.old.cache }
    requires sound { (bytes : List ℕ) → IsSectorOf volume.old.map.bytes n bytes
        → IsSoundMedia (with_sector (media d.old) (1 + n) bytes) }
    ensures written { OnOk result
        (WritesMapSector volume.old.map n (media d.old) (media d.new)) }
    ensures media_kept { OnErr result (media d.new ≡ media d.old) }
    ensures device { OnErr result (IsSome (file_fault result)) }
    ensures volume_kept { mounted_part volume.new ≡ mounted_part volume.old }
    ensures cached { IsCacheOf (media d.new) volume.new.cache }
    ensures counts { Counts BlockDriver-dyn (file_fault result) 1 d.old d.new }
{
    let mut bytes = [0; 256];
    volume.map.sector(n, &mut bytes);
    volume.store(d, 1 + u32::from(n), &bytes)
}
