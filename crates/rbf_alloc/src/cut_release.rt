ghost use Rattle.std.specs.Prelude.{◌≡◌, ℕ, List, OnErr, IsSome};
ghost use Rattle.rbf_model.specs.Volume.{DiskVolume};
ghost use Rattle.rbf_access.specs.Cached.{IsCacheOf};
ghost use Rattle.rbf_access.specs.Drive.{Counts};
ghost use Rattle.rbf_access.specs.Faults.{file_fault};
ghost use Rattle.rbf_access.specs.MapMarks.{marking_sectors};
ghost use Rattle.rbf_access.specs.Mounted.{mounted_part};
ghost use Rattle.rbf_alloc.specs.Own.{NoneHere};
ghost use Rattle.rbf_alloc.specs.Cleared.{AnswersClearing, MayGoOn};
ghost use Rattle.rbf_alloc.specs.Rest.{in_rest};
ghost use Rattle.rbf_alloc.specs.Release.{AnswersRelease, IsReleasing, MayRelease};

use crate::cut_bits::clear_rest;
use crate::cut_marks::free_rest;
use crate::rest::CutSectors;
use os9_outer::drive::BlockDriver;
use rbf_access::{FileFault, Volume};
use rbf_sector::system_sectors;

/// Gives back the clusters of a file that no longer have any of its sectors after a cut: each
/// sector of the map that has a mark of them is written once (OS-9 Technical Reference, Random
/// Block File Manager, "Disk Allocation Map").
///
/// # Errors
///
/// `Device` if a write of the drive fails; then some of the clusters may still be lost.
pub fn release_rest(
    volume: &mut Volume,
    d: &mut dyn BlockDriver,
    cut: &CutSectors,
) -> Result<(), FileFault>
    requires may { MayRelease volume.old.ident.cluster cut.now (media d.old)
        (mounted_part volume.old) }
    requires cached { IsCacheOf (media d.old) volume.old.cache }
    ensures answer { (v : DiskVolume) (old : List ℕ)
        → IsReleasing v old volume.old.ident.cluster cut.now (media d.old) (mounted_part volume.old)
        → AnswersRelease v old (in_rest volume.old.ident.cluster cut.now)
        (media d.new) (mounted_part volume.new) result }
    ensures device { OnErr result (IsSome (file_fault result)) }
    ensures cached { IsCacheOf (media d.new) volume.new.cache }
    ensures counts { Counts BlockDriver-dyn (file_fault result)
        (marking_sectors (mounted_part volume.old).sizes (in_rest volume.old.ident.cluster cut.now))
        d.old d.new }
{
    let end = system_sectors(&volume.ident) - 1;
    for place in 0..end {
        release_in(volume, d, cut, place)?;
    }
    Ok(())
}

// Gives back those of the clusters that have their marks in the map's sector `place`, if there are
// any: the sector is written without the marks, and then the kept map no longer has them.
fn release_in(
    volume: &mut Volume,
    d: &mut dyn BlockDriver,
    cut: &CutSectors,
    place: u16,
) -> Result<(), FileFault>
    requires go { MayGoOn (in_rest volume.old.ident.cluster cut.now) place (media d.old)
        (mounted_part volume.old) }
    requires cached { IsCacheOf (media d.old) volume.old.cache }
    ensures answer { AnswersClearing (in_rest volume.old.ident.cluster cut.now) place
        (media d.old) (media d.new) (mounted_part volume.old) (mounted_part volume.new) result }
    ensures device { OnErr result (IsSome (file_fault result)) }
    ensures cached { IsCacheOf (media d.new) volume.new.cache }
    ensures sizes { (mounted_part volume.new).sizes ≡ (mounted_part volume.old).sizes }
    ensures counts { Counts BlockDriver-dyn (file_fault result) 1 d.old d.new }
    ensures none { NoneHere (in_rest volume.old.ident.cluster cut.now) place
        → Counts BlockDriver-dyn (file_fault result) 0 d.old d.new }
{
    let k = volume.ident.cluster;
    if cut.first_in(k, place).is_none() {
        return Ok(());
    }
    let mut bytes = [0; 256];
    volume.map.sector(place, &mut bytes);
    clear_rest(&mut bytes, cut, k, place);
    volume.store(d, 1 + u32::from(place), &bytes)?;
    free_rest(&mut volume.map, cut, k, place);
    Ok(())
}
