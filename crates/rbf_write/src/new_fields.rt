ghost use Rattle.std.specs.Prelude.{◌≡◌, OnOk, OnErr, IsSome};
ghost use Rattle.rbf_access.specs.Cached.{IsCacheOf};
ghost use Rattle.rbf_access.specs.Drive.{Counts};
ghost use Rattle.rbf_access.specs.Faults.{file_fault};
ghost use Rattle.rbf_access.specs.Mounted.{mounted_part};
ghost use Rattle.rbf_write.specs.Finished.{MayFinish};
ghost use Rattle.rbf_write.specs.Kept.{IsStored};

use crate::{Loaded, minute, with_descriptor};
use os9_base::registers::TimePacket;
use os9_outer::drive::BlockDriver;
use rbf_access::{FileFault, Volume};
use rbf_sector::Fd;
use rbf_segs::Segs;

/// The segments and the size of a changed file, and when it changed.
#[derive(Clone, Copy)]
pub struct NewFields<'a> {
    pub segs: &'a Segs,
    pub size: u32,
    pub date: TimePacket,
}

// Writes the descriptor of a file with these fields.
pub fn store_fields(
    volume: &mut Volume,
    d: &mut dyn BlockDriver,
    loaded: &Loaded,
    new: NewFields<'_>,
) -> Result<(), FileFault>
    requires may { MayFinish (media d.old) loaded.now new.segs.now
        (IsStored loaded.now new.segs.now new.size new.date (media d.old)) }
    requires cached { IsCacheOf (media d.old) volume.old.cache }
    ensures stored { OnOk result
        (IsStored loaded.now new.entry.segs.now new.entry.size new.entry.date
        (media d.old) (media d.new)) }
    ensures media_kept { OnErr result (media d.new ≡ media d.old) }
    ensures device { OnErr result (IsSome (file_fault result)) }
    ensures volume_kept { mounted_part volume.new ≡ mounted_part volume.old }
    ensures cached { IsCacheOf (media d.new) volume.new.cache }
    ensures counts { Counts BlockDriver-dyn (file_fault result) 1 d.old d.new }
{
    let file = Fd {
        size: new.size,
        modified: minute(&new.date),
        segs: *new.segs,
        ..loaded.file
    };
    let bytes = with_descriptor(&loaded.descriptor, &loaded.file.segs, &file);
    volume.store(d, loaded.number, &bytes)?;
    Ok(())
}
