ghost use Rattle.std.specs.Prelude.{◌≡◌, ◌+◌, OnErr, IsSome};
ghost use Rattle.rbf_access.specs.Drive.{Counts};
ghost use Rattle.rbf_access.specs.Faults.{file_fault};
ghost use Rattle.rbf_access.specs.Mounted.{IsMounted};
ghost use Rattle.rbf_access.specs.Reading.{OnVolumeFile};
ghost use Rattle.rbf_write.specs.Files.{IsDescriptorLoaded};
ghost use Rattle.rbf_entries.specs.NewEntry.{MayAppend, AnswersEntry, entry_at};
ghost use Rattle.rbf_entries.specs.Rooms.{place_clusters};

use crate::NewPlace;
use crate::room::clusters_for_place;
use crate::sector::{longer_descriptor, put_entry};
use os9_base::registers::TimePacket;
use os9_outer::drive::BlockDriver;
use rbf_access::{FileFault, Volume};
use rbf_alloc::grow;

// Writes the entry of a new file after the last entry of a directory, which may gain a cluster for
// it. The entry's sector is written first. The directory's descriptor is written last, and brings
// the file into the volume.
pub fn append_entry(
    v: &mut Volume,
    d: &mut dyn BlockDriver,
    found: &NewPlace,
    entry: &[u8; 32],
    now: TimePacket,
) -> Result<(), FileFault>
    requires mounted { IsMounted v.old (media d.old) }
    requires read { IsDescriptorLoaded (media d.old) found.now.dir.number found.now.dir }
    requires place { MayAppend (media d.old) found.now.dir.number found.now.place entry.now }
    ensures answer { OnVolumeFile (media d.old) found.now.dir.number (λ on file.
        AnswersEntry on file (entry_at found.now entry.now now)
        (media d.old) (media d.new) result) }
    ensures device { OnErr result (IsSome (file_fault result)) }
    ensures mounted { IsMounted v.new (media d.new) }
    ensures counts { OnVolumeFile (media d.old) found.now.dir.number (λ on file.
        Counts BlockDriver-dyn (file_fault result)
        (3 + place_clusters on file found.now.place) d.old d.new) }
{
    let segs = &found.dir.file.segs;
    let count = clusters_for_place(v.ident.cluster, segs, found.place);
    let longer = grow(v, d, segs, count)?;
    let lsn = longer.lsn_of(found.place / 8).unwrap();
    put_entry(v, d, lsn, found.place, entry)?;
    let bytes = longer_descriptor(&found.dir, &longer, 32 * (found.place + 1), now);
    v.store(d, found.dir.number, &bytes)?;
    Ok(())
}
