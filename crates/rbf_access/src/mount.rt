ghost use Rattle.std.specs.Prelude.{◌≡◌, ℕ, ◌+◌, ◌-◌, ◌≤◌, IfOk, OnOk, IsErrOf, MatchOption};
ghost use Rattle.os9_outer.specs.Drive.{sector_count};
ghost use Rattle.rbf_model.specs.Geometry.{geometry, map_sectors};
ghost use Rattle.rbf_model.specs.Volume.{DiskVolume};
ghost use Rattle.rbf_sector.specs.Ident.{geometry_of};
ghost use Rattle.rbf_access.specs.Drive.{Counts, AccessesMade};
ghost use Rattle.rbf_access.specs.Faults.{volume_fault};
ghost use Rattle.rbf_access.specs.Mounted.{FitsDrive, HoldsVolume, IsIdentOf, IsMapOf, IsVolumeOf, IsMounted, RepresentsVolume, map_bytes, mount_calls, media_calls};

use crate::faults::VolFault;
use crate::sector::read_sector;
use crate::volume::Volume;
use os9_outer::drive::BlockDriver;
use rbf_map::RbfMap;
use rbf_sector::{Ident, has_map, is_header, read_ident, system_sectors};
use sector_cache::SectorCache;
use std::alloc::Global;

impl Volume {
    /// Mounts the volume on the media of a drive: reads its identification sector and its map.
    ///
    /// # Errors
    ///
    /// `NotRbf` if the drive has no media or the media holds no RBF volume, `Device` if a read of
    /// the drive fails, or out of memory.
    pub fn mount(alloc: Global, d: &mut dyn BlockDriver) -> Result<Volume, VolFault>
        ensures kept { IfOk result (IsVolumeOf (media d.new)) }
        ensures mounted { (v : DiskVolume) → RepresentsVolume (media d.old) v
            → IfOk result (λ volume. IsMounted volume (media d.new)) }
        ensures not_rbf { IsErrOf result VolFault.NotRbf → ¬ HoldsVolume (media d.old) }
        ensures media_kept { media d.new ≡ media d.old }
        ensures made { IfOk result (λ volume.
            AccessesMade (mount_calls volume) (drive_calls d.old) (drive_calls d.new)) }
        ensures counts { Counts BlockDriver-dyn
            (volume_fault result) (media_calls (media d.old)) d.old d.new }
        ensures refused_calls { IsErrOf result VolFault.NotRbf
            → drive_calls d.new ≤ drive_calls d.old + 1 }
    {
        let ident = read_identification(d)?;
        let map = read_map(alloc, d, &ident)?;
        let cache = SectorCache::new(alloc)?;
        Ok(Volume { ident, map, cache })
    }
}

// The fields of the identification sector, if it is that of a volume that the media holds.
fn read_identification(d: &mut dyn BlockDriver) -> Result<Ident, VolFault>
    ensures ident { IfOk result (IsIdentOf (media d.old)) }
    ensures not_rbf { IsErrOf result VolFault.NotRbf → ¬ HoldsVolume (media d.old) }
    ensures media_kept { media d.new ≡ media d.old }
    ensures counts { Counts BlockDriver-dyn (volume_fault result) 1 d.old d.new }
    ensures empty { sector_count (media d.old) ≡ 0 → drive_calls d.new ≡ drive_calls d.old }
    ensures made { OnOk result (AccessesMade 1 (drive_calls d.old) (drive_calls d.new)) }
{
    let sectors = d.sectors();
    if sectors == 0 {
        return Err(VolFault::NotRbf);
    }
    match read_sector(d, 0) {
        Err(fault) => Err(VolFault::Device(fault.number())),
        Ok(bytes) => match identify(&bytes, sectors) {
            Some(ident) => Ok(ident),
            None => Err(VolFault::NotRbf),
        },
    }
}

// The fields of an identification sector, if it is that of a volume that fits the drive.
fn identify(bytes: &[u8; 256], sectors: u32) -> Option<Ident>
    ensures fits { MatchOption result (¬ FitsDrive bytes.now sectors)
        (λ _. FitsDrive bytes.now sectors) }
    ensures sizes { MatchOption result Unit (λ ident. geometry_of ident ≡ geometry bytes.now) }
{
    let ident = read_ident(bytes);
    if is_header(&ident) && has_map(&ident) && ident.total <= sectors {
        Some(ident)
    } else {
        None
    }
}

// Reads the map of the volume that the media holds.
fn read_map(alloc: Global, d: &mut dyn BlockDriver, ident: &Ident) -> Result<RbfMap, VolFault>
    requires { IsIdentOf (media d.old) ident.now }
    ensures map { IfOk result (IsMapOf (media d.old)) }
    ensures rbf { ¬ IsErrOf result VolFault.NotRbf }
    ensures media_kept { media d.new ≡ media d.old }
    ensures counts { Counts BlockDriver-dyn
        (volume_fault result) (map_sectors (geometry_of ident.now)) d.old d.new }
    ensures made { OnOk result (AccessesMade (map_sectors (geometry_of ident.now))
        (drive_calls d.old) (drive_calls d.new)) }
{
    let bytes = read_map_bytes(alloc, d, system_sectors(ident))?;
    let cluster = u32::from(ident.cluster);
    let clusters = ident.total.div_ceil(cluster);
    Ok(RbfMap::new(clusters, ident.total / cluster, bytes))
}

// The bytes of the sectors from 1 up to `end`.
fn read_map_bytes(alloc: Global, d: &mut dyn BlockDriver, end: u16) -> Result<Vec<u8>, VolFault>
    requires some { 1 ≤ end }
    requires within { end ≤ sector_count (media d.old) }
    ensures bytes { IfOk result (λ bytes. bytes.items ≡ map_bytes (media d.old) (end - 1)) }
    ensures rbf { ¬ IsErrOf result VolFault.NotRbf }
    ensures media_kept { media d.new ≡ media d.old }
    ensures counts { Counts BlockDriver-dyn (volume_fault result) (end - 1) d.old d.new }
    ensures made { OnOk result (AccessesMade (end - 1) (drive_calls d.old) (drive_calls d.new)) }
{
    let mut bytes = Vec::new(alloc);
    for lsn in 1..end {
        match read_sector(d, u32::from(lsn)) {
            Err(fault) => return Err(VolFault::Device(fault.number())),
            Ok(sector) => bytes.extend_from_slice(&sector)?,
        }
    }
    Ok(bytes)
}
