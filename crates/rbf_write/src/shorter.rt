ghost use Rattle.std.specs.Prelude.{◌+◌, ◌<◌, OnErr, IsSome};
ghost use Rattle.rbf_access.specs.Drive.{Counts};
ghost use Rattle.rbf_access.specs.Faults.{file_fault};
ghost use Rattle.rbf_access.specs.Mounted.{IsMounted};
ghost use Rattle.rbf_write.specs.Files.{HasDataFile, IsDescriptorLoaded, OnVolumeFile};
ghost use Rattle.rbf_write.specs.Sizes.{AnswersSize, giving_calls};

use crate::Loaded;
use crate::kept::kept_segments;
use crate::new_fields::{NewFields, store_fields};
use os9_base::registers::TimePacket;
use os9_outer::drive::BlockDriver;
use rbf_access::{FileFault, Volume};
use rbf_alloc::{CutSectors, OwnSectors, release_rest};

/// Cuts a file that is not a directory to a size: its descriptor is written with the sectors that
/// it keeps and its new date, and then the clusters that have none of these sectors are given back.
///
/// # Errors
///
/// `Device` if a write of the drive fails: if it is that of the descriptor, nothing has changed; if
/// it is one of the map, the file has been cut and some of the clusters are lost.
pub fn cut(
    volume: &mut Volume,
    d: &mut dyn BlockDriver,
    loaded: &Loaded,
    size: u32,
    now: TimePacket,
) -> Result<(), FileFault>
    requires mounted { IsMounted volume.old (media d.old) }
    requires file { HasDataFile (media d.old) loaded.now.number }
    requires loaded { IsDescriptorLoaded (media d.old) loaded.now.number loaded.now }
    requires shorter { size < loaded.now.file.size }
    ensures answer { OnVolumeFile (media d.old) loaded.now.number (λ v file. AnswersSize v file
        (record { number = loaded.now.number; size = size; now = now })
        (media d.old) (media d.new) result) }
    ensures device { OnErr result (IsSome (file_fault result)) }
    ensures mounted { IsMounted volume.new (media d.new) }
    ensures counts { OnVolumeFile (media d.old) loaded.now.number (λ v file.
        Counts BlockDriver-dyn (file_fault result) (1 + giving_calls v file
        (record { number = loaded.now.number; size = size; now = now })) d.old d.new) }
{
    let segs = kept_segments(volume.ident.cluster, loaded, size);
    let new = NewFields {
        segs: &segs,
        size,
        date: now,
    };
    store_fields(volume, d, loaded, new)?;
    let sectors = CutSectors {
        old: OwnSectors {
            fd: loaded.number,
            segs: loaded.file.segs,
        },
        kept: OwnSectors {
            fd: loaded.number,
            segs,
        },
    };
    release_rest(volume, d, &sectors)?;
    Ok(())
}
