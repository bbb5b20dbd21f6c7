ghost use Rattle.std.specs.Prelude.{◌≡◌, OnErr, IsSome};
ghost use Rattle.rbf_access.specs.Cached.{IsCacheOf};
ghost use Rattle.rbf_access.specs.Drive.{Counts};
ghost use Rattle.rbf_access.specs.Faults.{file_fault};
ghost use Rattle.rbf_access.specs.Mounted.{mounted_part};
ghost use Rattle.rbf_alloc.specs.Own.{in_own, NoneHere};
ghost use Rattle.rbf_alloc.specs.Cleared.{AnswersClearing, MayGoOn};

use crate::bits::clear_own;
use crate::drop_marks::free_own;
use crate::own::OwnSectors;
use os9_outer::drive::BlockDriver;
use rbf_access::{FileFault, Volume};

// Gives back those clusters of a file that have their marks in the map's sector `place`, if there
// are any: the sector is written without the marks, and then the kept map no longer has them.
pub fn release_in(
    volume: &mut Volume,
    d: &mut dyn BlockDriver,
    own: &OwnSectors,
    place: u16,
) -> Result<(), FileFault>
    requires go { MayGoOn (in_own volume.old.ident.cluster own.now) place (media d.old)
        (mounted_part volume.old) }
    requires cached { IsCacheOf (media d.old) volume.old.cache }
    ensures answer { AnswersClearing (in_own volume.old.ident.cluster own.now) place
        (media d.old) (media d.new) (mounted_part volume.old) (mounted_part volume.new) result }
    ensures device { OnErr result (IsSome (file_fault result)) }
    ensures cached { IsCacheOf (media d.new) volume.new.cache }
    ensures sizes { (mounted_part volume.new).sizes ≡ (mounted_part volume.old).sizes }
    ensures counts { Counts BlockDriver-dyn (file_fault result) 1 d.old d.new }
    ensures none { NoneHere (in_own volume.old.ident.cluster own.now) place
        → Counts BlockDriver-dyn (file_fault result) 0 d.old d.new }
{
    let k = volume.ident.cluster;
    if own.first_in(k, place).is_none() {
        return Ok(());
    }
    let mut bytes = [0; 256];
    volume.map.sector(place, &mut bytes);
    clear_own(&mut bytes, own, k, place);
    volume.store(d, 1 + u32::from(place), &bytes)?;
    free_own(&mut volume.map, own, k, place);
    Ok(())
}
