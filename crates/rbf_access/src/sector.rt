ghost use Rattle.std.specs.Prelude.{◌≡◌, ◌<◌, IfOk, OnOk, OnErr};
ghost use Rattle.os9_outer.specs.Drive.{sector_count, sector_at, with_sector};
ghost use Rattle.rbf_access.specs.Drive.{Counts, AccessesMade};
ghost use Rattle.rbf_access.specs.Faults.{drive_fault};
ghost use Rattle.rbf_access.specs.Mounted.{IsSoundMedia};

use os9_outer::drive::{BlockDriver, DriveFault};

// Reads a sector.
pub fn read_sector(d: &mut dyn BlockDriver, lsn: u32) -> Result<[u8; 256], DriveFault>
    requires { lsn < sector_count (media d.old) }
    ensures bytes { IfOk result (λ bytes. bytes ≡ sector_at (media d.old) lsn) }
    ensures media_kept { media d.new ≡ media d.old }
    ensures counts { Counts BlockDriver-dyn (drive_fault result) 1 d.old d.new }
    ensures made { AccessesMade 1 (drive_calls d.old) (drive_calls d.new) }
{
    let mut bytes = [0; 256];
    match read_into(d, lsn, &mut bytes) {
        Ok(()) => Ok(bytes),
        Err(fault) => Err(fault),
    }
}

// Reads a sector into a buffer.
pub fn read_into(d: &mut dyn BlockDriver, lsn: u32, into: &mut [u8; 256]) -> Result<(), DriveFault>
    requires { lsn < sector_count (media d.old) }
    ensures bytes { OnOk result (into.new ≡ sector_at (media d.old) lsn) }
    ensures media_kept { media d.new ≡ media d.old }
    ensures counts { Counts BlockDriver-dyn (drive_fault result) 1 d.old d.new }
    ensures made { AccessesMade 1 (drive_calls d.old) (drive_calls d.new) }
{
    d.read(lsn, into)
}

// Writes a sector. The media with the new sector must be well formed.
pub fn write_sector(d: &mut dyn BlockDriver, lsn: u32, from: &[u8; 256]) -> Result<(), DriveFault>
    requires on { lsn < sector_count (media d.old) }
    requires sound { IsSoundMedia (with_sector (media d.old) lsn from.now) }
    ensures written { OnOk result (media d.new ≡ with_sector (media d.old) lsn from.now) }
    ensures media_kept { OnErr result (media d.new ≡ media d.old) }
    ensures counts { Counts BlockDriver-dyn (drive_fault result) 1 d.old d.new }
{
    d.write(lsn, from)
}
