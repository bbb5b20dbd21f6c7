ghost use Rattle.std.specs.Prelude.{◌≡◌, ◌<◌, nat_lt, if◌then◌else◌, OnOk, OnErr, IsSome};
ghost use Rattle.rbf_access.specs.Cached.{IsCacheOf};
ghost use Rattle.rbf_access.specs.Drive.{Counts};
ghost use Rattle.rbf_access.specs.Faults.{file_fault};
ghost use Rattle.rbf_access.specs.Mounted.{mounted_part};
ghost use Rattle.rbf_model.specs.Fields.{segments_field};
ghost use Rattle.rbf_write.specs.Changed.{HasFields};
ghost use Rattle.rbf_write.specs.Finished.{IsFinished, IsResized, MayResize};

use crate::{Loaded, minute};
use os9_base::registers::TimePacket;
use os9_outer::drive::BlockDriver;
use rbf_access::{FileFault, Volume};
use rbf_sector::{put_bytes, put_u32};

// Writes the descriptor of a file that has kept its segments, if its bytes now have a later end.
pub fn resize(
    volume: &mut Volume,
    d: &mut dyn BlockDriver,
    loaded: &Loaded,
    end: u32,
    now: TimePacket,
) -> Result<(), FileFault>
    requires may { MayResize (media d.old) loaded.now
        (IsFinished loaded.now loaded.now.file.segs end now (media d.old)) }
    requires cached { IsCacheOf (media d.old) volume.old.cache }
    ensures done { OnOk result
        (IsFinished loaded.now loaded.now.file.segs end now (media d.old) (media d.new)) }
    ensures media_kept { OnErr result (media d.new ≡ media d.old) }
    ensures later { OnErr result (loaded.now.file.size < end) }
    ensures device { OnErr result (IsSome (file_fault result)) }
    ensures volume_kept { mounted_part volume.new ≡ mounted_part volume.old }
    ensures cached { IsCacheOf (media d.new) volume.new.cache }
    ensures counts { Counts BlockDriver-dyn (file_fault result)
        (if nat_lt loaded.now.file.size end then 1 else 0) d.old d.new }
{
    if end <= loaded.file.size {
        return Ok(());
    }
    let bytes = resized(loaded, end, &now);
    volume.store(d, loaded.number, &bytes)?;
    Ok(())
}

// The descriptor of a file with another size and the date of that change.
fn resized(loaded: &Loaded, size: u32, now: &TimePacket) -> [u8; 256]
    requires fields { HasFields loaded.now.file loaded.now.descriptor }
    requires list { segments_field loaded.now.descriptor ≡ loaded.now.file.segs }
    ensures { IsResized loaded.now loaded.now.file.segs size now.now result }
{
    let mut bytes = loaded.descriptor;
    put_bytes(&mut bytes, 3, &minute(now));
    put_u32(&mut bytes, 9, size);
    bytes
}
