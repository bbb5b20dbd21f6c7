ghost use Rattle.std.specs.Prelude.{◌≡◌, ◌*◌, ◌%◌, ◌<◌, OnOk, OnErr, IsSome, length};
ghost use Rattle.os9_outer.specs.Drive.{sector_count};
ghost use Rattle.rbf_model.specs.Fields.{segments_field};
ghost use Rattle.rbf_model.specs.Segments.{sectors_of};
ghost use Rattle.rbf_access.specs.Cached.{IsCacheOf};
ghost use Rattle.rbf_access.specs.Drive.{Counts};
ghost use Rattle.rbf_access.specs.Faults.{file_fault};
ghost use Rattle.rbf_access.specs.Mounted.{IsSoundMedia, mounted_part};
ghost use Rattle.rbf_entries.specs.Becomes.{with_piece};
ghost use Rattle.rbf_write.specs.Finished.{IsResized};

use os9_base::registers::TimePacket;
use os9_outer::drive::BlockDriver;
use rbf_access::{FileFault, Volume};
use rbf_sector::{Fd, put_bytes};
use rbf_segs::Segs;
use rbf_write::{Loaded, minute, with_descriptor};

// Writes an entry of a directory into its sector; its place is counted from 0.
pub fn put_entry(
    v: &mut Volume,
    d: &mut dyn BlockDriver,
    lsn: u32,
    place: u32,
    entry: &[u8; 32],
) -> Result<(), FileFault>
    requires on { lsn < sector_count (media d.old) }
    requires cached { IsCacheOf (media d.old) v.old.cache }
    requires sound { IsSoundMedia (with_piece (media d.old) lsn (32 * (place % 8)) entry.now) }
    ensures written { OnOk result
        (media d.new ≡ with_piece (media d.old) lsn (32 * (place % 8)) entry.now) }
    ensures media_kept { OnErr result (media d.new ≡ media d.old) }
    ensures device { OnErr result (IsSome (file_fault result)) }
    ensures volume_kept { mounted_part v.new ≡ mounted_part v.old }
    ensures cached { IsCacheOf (media d.new) v.new.cache }
    ensures counts { Counts BlockDriver-dyn (file_fault result) 2 d.old d.new }
{
    let mut bytes = v.load(d, lsn)?;
    put_bytes(&mut bytes, 32 * (place % 8) as usize, entry);
    v.store(d, lsn, &bytes)?;
    Ok(())
}

// The descriptor of a directory with a new size, these segments, and the date of that change.
pub fn longer_descriptor(loaded: &Loaded, longer: &Segs, size: u32, now: TimePacket) -> [u8; 256]
    requires list { segments_field loaded.now.descriptor ≡ loaded.now.file.segs }
    requires same { length (sectors_of longer.now) ≡ length (sectors_of loaded.now.file.segs)
        → longer.now ≡ loaded.now.file.segs }
    ensures { IsResized loaded.now longer.now size now result }
{
    let file = Fd {
        size,
        modified: minute(&now),
        segs: *longer,
        ..loaded.file
    };
    with_descriptor(&loaded.descriptor, &loaded.file.segs, &file)
}
