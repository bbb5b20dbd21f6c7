ghost use Rattle.std.specs.Prelude.{◌≡◌, ◌*◌, ◌%◌, ◌<◌, [], ◌∷◌, OnOk, OnErr, IsSome};
ghost use Rattle.os9_outer.specs.Drive.{sector_count};
ghost use Rattle.rbf_access.specs.Cached.{IsCacheOf};
ghost use Rattle.rbf_access.specs.Drive.{Counts};
ghost use Rattle.rbf_access.specs.Faults.{file_fault};
ghost use Rattle.rbf_access.specs.Mounted.{mounted_part, IsSoundMedia};
ghost use Rattle.rbf_entries.specs.Becomes.{with_piece};

use crate::deletion::Deletable;
use os9_outer::drive::BlockDriver;
use rbf_access::{FileFault, Volume};
use rbf_sector::put_bytes;

/// Makes free an entry that [`crate::find_deletable`] has found: its first byte becomes 0, and the
/// others are unchanged (OS-9 Technical Reference, Random Block File Manager, "Directories"). The
/// entry's sector is read and written.
///
/// # Errors
///
/// `Device` if an access of the drive fails; then the media is unchanged.
pub fn free_entry(
    v: &mut Volume,
    d: &mut dyn BlockDriver,
    found: &Deletable,
) -> Result<(), FileFault>
    requires on { found.now.lsn < sector_count (media d.old) }
    requires cached { IsCacheOf (media d.old) v.old.cache }
    requires sound { IsSoundMedia
        (with_piece (media d.old) found.now.lsn (32 * (found.now.place % 8)) (0 ∷ [])) }
    ensures written { OnOk result (media d.new
        ≡ with_piece (media d.old) found.now.lsn (32 * (found.now.place % 8)) (0 ∷ [])) }
    ensures media_kept { OnErr result (media d.new ≡ media d.old) }
    ensures device { OnErr result (IsSome (file_fault result)) }
    ensures volume_kept { mounted_part v.new ≡ mounted_part v.old }
    ensures cached { IsCacheOf (media d.new) v.new.cache }
    ensures counts { Counts BlockDriver-dyn (file_fault result) 2 d.old d.new }
{
    let mut bytes = v.load(d, found.lsn)?;
    put_bytes(&mut bytes, 32 * (found.place % 8) as usize, &[0]);
    v.store(d, found.lsn, &bytes)?;
    Ok(())
}
