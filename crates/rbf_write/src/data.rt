ghost use Rattle.std.specs.Prelude.{◌≡◌, ℕ, List, Option, ◌+◌, ◌-◌, ◌*◌, ◌/◌, ◌^◌, ◌<◌, ◌≤◌, length, min, OnOk, OnErr, IsSome};
ghost use Rattle.os9_outer.specs.Drive.{sector_count, sector_at};
ghost use Rattle.rbf_model.specs.File.{DiskFile, segment_bytes};
ghost use Rattle.rbf_model.specs.Segments.{sectors_of};
ghost use Rattle.rbf_model.specs.Volume.{DiskVolume};
ghost use Rattle.rbf_change.specs.Contents.{sector_span};
ghost use Rattle.rbf_access.specs.Cached.{IsCacheOf};
ghost use Rattle.rbf_access.specs.Drive.{Counts};
ghost use Rattle.rbf_access.specs.Faults.{file_fault};
ghost use Rattle.rbf_access.specs.Mounted.{IsMounted, IsSoundMedia, RepresentsVolume, mounted_part};
ghost use Rattle.rbf_write.specs.Laid.{MayLay, IsDataOf, Fills, LaysSector};

use crate::NewBytes;
use crate::sector::{is_zeros, lay, whole_sector};
use os9_outer::drive::BlockDriver;
use rbf_access::{FileFault, Volume};
use rbf_segs::Segs;

/// A file over whose bytes others are laid: its segments, followed by those of lost clusters that
/// it will gain, if any, and its size, which is unchanged.
#[derive(Clone, Copy, Debug)]
pub struct FileData<'a> {
    pub segs: &'a Segs,
    pub size: u32,
}

// A sector of a file: its number on the drive, and the place of its first byte in the file.
#[derive(Clone, Copy)]
struct FileSector {
    lsn: u32,
    start: u32,
}

/// Lays bytes over those of a file, and zeros from its size up to their place, sector by sector
/// upwards. Bytes past the size are not seen yet.
///
/// # Errors
///
/// `Device` if a call of the drive fails: then the sectors before some place have their bytes.
pub fn fill(
    volume: &mut Volume,
    d: &mut dyn BlockDriver,
    file: FileData<'_>,
    write: NewBytes<'_>,
) -> Result<(), FileFault>
    requires mounted { IsMounted volume.old (media d.old) }
    requires may { MayLay (media d.old) file.segs.now file.size write.at write.bytes.now }
    ensures fills { (u : DiskVolume) (n : ℕ) (old : DiskFile) → RepresentsVolume (media d.old) u
        → IsDataOf u n old file.entry.segs.now file.entry.size
        → Fills u n old file.entry.segs.now file.entry.size write.entry.at write.entry.bytes.now
        (media d.old) (media d.new) result }
    ensures device { OnErr result (IsSome (file_fault result)) }
    ensures mounted { IsMounted volume.new (media d.new) }
    ensures volume_kept { mounted_part volume.new ≡ mounted_part volume.old }
    ensures counts { Counts BlockDriver-dyn (file_fault result)
        (2 * sector_span (min file.entry.size write.entry.at)
        (write.entry.at + length write.entry.bytes.now)) d.old d.new }
{
    let first = file.size.min(write.at) / 256;
    let end = (write.at as usize + write.bytes.len()).div_ceil(256) as u32;
    for place in first..end {
        let sector = FileSector {
            lsn: file.segs.lsn_of(place).unwrap(),
            start: 256 * place,
        };
        fill_sector(volume, d, sector, file.size, write)?;
    }
    Ok(())
}

// Lays bytes over those of one sector of a file of this size. A sector is not read if all of its
// bytes are laid, or are zeros then.
fn fill_sector(
    volume: &mut Volume,
    d: &mut dyn BlockDriver,
    sector: FileSector,
    size: u32,
    write: NewBytes<'_>,
) -> Result<(), FileFault>
    requires on { sector.lsn < sector_count (media d.old) }
    requires cached { IsCacheOf (media d.old) volume.old.cache }
    requires sound { (after : Option (List ℕ))
        → LaysSector size write.at write.bytes.now sector.start sector.lsn (media d.old) after
        → IsSoundMedia after }
    ensures lays { OnOk result (LaysSector size write.entry.at write.entry.bytes.now
        sector.start sector.lsn (media d.old) (media d.new)) }
    ensures media_kept { OnErr result (media d.new ≡ media d.old) }
    ensures device { OnErr result (IsSome (file_fault result)) }
    ensures volume_kept { mounted_part volume.new ≡ mounted_part volume.old }
    ensures cached { IsCacheOf (media d.new) volume.new.cache }
    ensures counts { Counts BlockDriver-dyn (file_fault result) 2 d.old d.new }
{
    if is_zeros(sector.start, size, write.at) {
        return volume.store(d, sector.lsn, &[0; 256]);
    }
    if let Some(whole) = whole_sector(sector.start, write.at, write.bytes) {
        return volume.store(d, sector.lsn, &whole);
    }
    volume.bring(d, sector.lsn)?;
    let held = volume.sector(sector.lsn);
    let mut bytes = *held;
    lay(&mut bytes, sector.start, size, write.at, write.bytes);
    volume.store(d, sector.lsn, &bytes)?;
    Ok(())
}
