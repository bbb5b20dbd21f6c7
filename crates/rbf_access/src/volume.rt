ghost use Rattle.std.specs.Prelude.{◌≡◌, ◌<◌, Some, take, IfOk, OnOk, OnErr, IsSome};
ghost use Rattle.os9_outer.specs.Drive.{sector_count, sector_at, with_sector};
ghost use Rattle.rbf_access.specs.Drive.{Counts};
ghost use Rattle.rbf_access.specs.Faults.{file_fault};
ghost use Rattle.rbf_access.specs.Cached.{IsCacheOf, IsHeldSector, IsSectorUsed, StayHeld};
ghost use Rattle.sector_cache.specs.Held.{held_bytes, put_first, without};
ghost use Rattle.rbf_access.specs.Mounted.{mounted_part, IsSoundMedia};

use crate::faults::FileFault;
use crate::sector::{read_into, write_sector};
use os9_outer::drive::BlockDriver;
use rbf_map::RbfMap;
use rbf_sector::Ident;
use sector_cache::SectorCache;

/// A mounted volume: the fields of its identification sector, its allocation map, and the sectors
/// that were used last.
#[derive(Drop)]
pub struct Volume {
    pub ident: Ident,
    pub map: RbfMap,
    pub cache: SectorCache,
}

impl Volume {
    /// Loads a sector of the volume.
    ///
    /// # Errors
    ///
    /// `Device` if the drive's read fails.
    pub fn load(&mut self, d: &mut dyn BlockDriver, lsn: u32) -> Result<[u8; 256], FileFault>
        requires on { lsn < sector_count (media d.old) }
        requires cached { IsCacheOf (media d.old) self.old.cache }
        ensures bytes { IfOk result (λ bytes. bytes ≡ sector_at (media d.old) lsn) }
        ensures device { OnErr result (IsSome (file_fault result)) }
        ensures media_kept { media d.new ≡ media d.old }
        ensures volume_kept { mounted_part self.new ≡ mounted_part self.old }
        ensures cached { IsCacheOf (media d.new) self.new.cache }
        ensures hit { IsHeldSector self.old.cache lsn → drive_calls d.new ≡ drive_calls d.old }
        ensures used { OnOk result (IsSectorUsed lsn self.old.cache self.new.cache) }
        ensures left { OnErr result (self.new.cache ≡ self.old.cache) }
        ensures still { StayHeld lsn self.old.cache self.new.cache }
        ensures counts { Counts BlockDriver-dyn (file_fault result) 1 d.old d.new }
    {
        self.bring(d, lsn)?;
        Ok(*self.sector(lsn))
    }

    /// Brings a sector of the volume into its cache, if it is not there.
    ///
    /// # Errors
    ///
    /// `Device` if the drive's read fails.
    pub fn bring(&mut self, d: &mut dyn BlockDriver, lsn: u32) -> Result<(), FileFault>
        requires on { lsn < sector_count (media d.old) }
        requires cached { IsCacheOf (media d.old) self.old.cache }
        ensures device { OnErr result (IsSome (file_fault result)) }
        ensures media_kept { media d.new ≡ media d.old }
        ensures volume_kept { mounted_part self.new ≡ mounted_part self.old }
        ensures cached { IsCacheOf (media d.new) self.new.cache }
        ensures hit { IsHeldSector self.old.cache lsn → drive_calls d.new ≡ drive_calls d.old }
        ensures used { OnOk result (IsSectorUsed lsn self.old.cache self.new.cache) }
        ensures left { OnErr result (self.new.cache ≡ self.old.cache) }
        ensures still { StayHeld lsn self.old.cache self.new.cache }
        ensures counts { Counts BlockDriver-dyn (file_fault result) 1 d.old d.new }
    {
        if self.cache.touch(0, lsn) {
            return Ok(());
        }
        let mut bytes = [0; 256];
        match read_into(d, lsn, &mut bytes) {
            Ok(()) => {
                self.cache.add(0, lsn, &bytes);
                Ok(())
            }
            Err(fault) => Err(FileFault::Device(fault.number())),
        }
    }

    /// The bytes of a sector that is in the cache.
    pub fn sector(&self, lsn: u32) -> &[u8; 256]
        requires { IsHeldSector self.now.cache lsn }
        ensures { held_bytes self.now.cache 0 lsn ≡ Some result.now }
    {
        match self.cache.bytes(0, lsn) {
            Some(bytes) => bytes,
            None => unreachable!(),
        }
    }

    /// Stores a sector of the volume.
    ///
    /// # Errors
    ///
    /// `Device` if the drive's write fails; the media is then unchanged, and the cache no longer
    /// holds the sector.
    pub fn store(
        &mut self,
        d: &mut dyn BlockDriver,
        lsn: u32,
        from: &[u8; 256],
    ) -> Result<(), FileFault>
        requires on { lsn < sector_count (media d.old) }
        requires cached { IsCacheOf (media d.old) self.old.cache }
        requires sound { IsSoundMedia (with_sector (media d.old) lsn from.now) }
        ensures written { OnOk result (media d.new ≡ with_sector (media d.old) lsn from.now) }
        ensures media_kept { OnErr result (media d.new ≡ media d.old) }
        ensures device { OnErr result (IsSome (file_fault result)) }
        ensures volume_kept { mounted_part self.new ≡ mounted_part self.old }
        ensures cached { IsCacheOf (media d.new) self.new.cache }
        ensures first { OnOk result
            (self.new.cache ≡ take 256 (put_first self.old.cache 0 lsn from.now)) }
        ensures forgotten { OnErr result (self.new.cache ≡ without self.old.cache 0 lsn) }
        ensures counts { Counts BlockDriver-dyn (file_fault result) 1 d.old d.new }
    {
        match write_sector(d, lsn, from) {
            Ok(()) => {
                self.cache.keep(0, lsn, from);
                Ok(())
            }
            Err(fault) => {
                self.cache.forget(0, lsn);
                Err(FileFault::Device(fault.number()))
            }
        }
    }
}
