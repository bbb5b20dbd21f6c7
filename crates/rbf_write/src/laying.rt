ghost use Rattle.std.specs.Prelude.{◌≡◌, ◌+◌, ◌*◌, ◌^◌, ◌<◌, ◌≤◌, nat_lt, length, min, if◌then◌else◌, OnOk, OnErr, IsSome};
ghost use Rattle.rbf_access.specs.Cached.{IsCacheOf};
ghost use Rattle.rbf_access.specs.Drive.{Counts};
ghost use Rattle.rbf_access.specs.Faults.{file_fault};
ghost use Rattle.rbf_access.specs.Mounted.{IsMounted, mounted_part};
ghost use Rattle.rbf_write.specs.Files.{HasDataFile, IsClusterCount, IsDescriptorLoaded, IsLoadedFile, OnVolumeFile};
ghost use Rattle.rbf_write.specs.Finished.{IsFinished, MayFinish};
ghost use Rattle.rbf_write.specs.Laying.{AnswersLaying, laying_of};
ghost use Rattle.rbf_write.specs.Outcomes.{IsRefusal, OnMarked, laying_calls};

use crate::clusters::clusters_for;
use crate::new_fields::{NewFields, store_fields};
use crate::resized::resize;
use crate::{FileData, Loaded, NewBytes, fill};
use os9_outer::drive::BlockDriver;
use rbf_access::{FileFault, Volume};
use rbf_alloc::grow;

/// Lays bytes over those of a file, with zeros between its end and their place. The file gains the
/// clusters that it needs, then its sectors are written upwards, and its descriptor is written
/// last, if its size has changed.
///
/// # Errors
///
/// As for [`crate::write_at`].
pub fn lay_over(
    volume: &mut Volume,
    d: &mut dyn BlockDriver,
    loaded: &Loaded,
    write: NewBytes<'_>,
) -> Result<(), FileFault>
    requires mounted { IsMounted volume.old (media d.old) }
    requires file { HasDataFile (media d.old) loaded.now.number }
    requires loaded { IsDescriptorLoaded (media d.old) loaded.now.number loaded.now }
    requires some { min loaded.now.file.size write.at < write.at + length write.bytes.now }
    ensures answer { OnVolumeFile (media d.old) loaded.now.number (λ v file. AnswersLaying v file
        (laying_of loaded.now.number write.entry) (media d.old) (media d.new) result) }
    ensures calls_kept { OnErr result (IsRefusal result → drive_calls d.new ≡ drive_calls d.old) }
    ensures mounted { IsMounted volume.new (media d.new) }
    ensures counts { OnMarked (media d.old) (media d.new) loaded.now.number result (λ v file marks.
        Counts BlockDriver-dyn (file_fault result)
        (laying_calls v file marks write.entry.at
        (write.entry.at + length write.entry.bytes.now)) d.old d.new) }
{
    let end = write.at as usize + write.bytes.len();
    let Some(count) = clusters_for(volume.ident.cluster, &loaded.file.segs, end) else {
        return Err(FileFault::NoCluster);
    };
    if count != 0 {
        return lay_longer(volume, d, loaded, count, write);
    }
    let file = FileData {
        segs: &loaded.file.segs,
        size: loaded.file.size,
    };
    fill(volume, d, file, write)?;
    resize(volume, d, loaded, end as u32, write.date)?;
    Ok(())
}

// Lays bytes over those of a file that first gains this number of clusters.
fn lay_longer(
    volume: &mut Volume,
    d: &mut dyn BlockDriver,
    loaded: &Loaded,
    count: u32,
    write: NewBytes<'_>,
) -> Result<(), FileFault>
    requires mounted { IsMounted volume.old (media d.old) }
    requires loaded { IsLoadedFile (media d.old) loaded.now }
    requires some { min loaded.now.file.size write.at < write.at + length write.bytes.now }
    requires count { IsClusterCount volume.old.ident.cluster loaded.now.file.segs
        (write.at + length write.bytes.now) count }
    ensures answer { OnVolumeFile (media d.old) loaded.now.number (λ v file. AnswersLaying v file
        (laying_of loaded.now.number write.entry) (media d.old) (media d.new) result) }
    ensures calls_kept { OnErr result (IsRefusal result → drive_calls d.new ≡ drive_calls d.old) }
    ensures mounted { IsMounted volume.new (media d.new) }
    ensures counts { OnMarked (media d.old) (media d.new) loaded.now.number result (λ v file marks.
        Counts BlockDriver-dyn (file_fault result) (laying_calls v file marks write.entry.at
        (write.entry.at + length write.entry.bytes.now)) d.old d.new) }
{
    let end = write.at as usize + write.bytes.len();
    let longer = grow(volume, d, &loaded.file.segs, count)?;
    let grown = FileData {
        segs: &longer,
        size: loaded.file.size,
    };
    let new = NewFields {
        segs: &longer,
        size: end as u32,
        date: write.date,
    };
    fill(volume, d, grown, write)?;
    finish(volume, d, loaded, new)?;
    Ok(())
}

// Writes the descriptor of a file with these fields, if its bytes now have a later end.
fn finish(
    volume: &mut Volume,
    d: &mut dyn BlockDriver,
    loaded: &Loaded,
    new: NewFields<'_>,
) -> Result<(), FileFault>
    requires may { MayFinish (media d.old) loaded.now new.segs.now
        (IsFinished loaded.now new.segs.now new.size new.date (media d.old)) }
    requires cached { IsCacheOf (media d.old) volume.old.cache }
    ensures done { OnOk result (IsFinished loaded.now new.entry.segs.now new.entry.size
        new.entry.date (media d.old) (media d.new)) }
    ensures media_kept { OnErr result (media d.new ≡ media d.old) }
    ensures later { OnErr result (loaded.now.file.size < new.entry.size) }
    ensures device { OnErr result (IsSome (file_fault result)) }
    ensures volume_kept { mounted_part volume.new ≡ mounted_part volume.old }
    ensures cached { IsCacheOf (media d.new) volume.new.cache }
    ensures counts { Counts BlockDriver-dyn (file_fault result)
        (if nat_lt loaded.now.file.size new.entry.size then 1 else 0) d.old d.new }
{
    if new.size <= loaded.file.size {
        return Ok(());
    }
    store_fields(volume, d, loaded, new)
}
