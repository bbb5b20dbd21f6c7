ghost use Rattle.std.specs.Prelude.{◌≡◌, ◌+◌, ◌-◌, ◌*◌, ◌/◌, ◌%◌, ◌^◌, ◌<◌, ◌≤◌, ◌++◌, ℕ, List, IfOk, IfSome, IsSome, OnOk, OnErr, drop, length, max, min, take};
ghost use Rattle.os9_outer.specs.Drive.{sector_at};
ghost use Rattle.rbf_model.specs.Fields.{segments_field};
ghost use Rattle.rbf_model.specs.File.{segment_bytes};
ghost use Rattle.rbf_model.specs.Volume.{DiskVolume, Vol};
ghost use Rattle.rbf_sector.specs.Run.{IsRunAt};
ghost use Rattle.rbf_model.specs.ClusterMap.{map_free_clusters};
ghost use Rattle.rbf_change.specs.Calls.{free_total, shape};
ghost use Rattle.rbf_change.specs.Agrees.{Agrees};
ghost use Rattle.rbf_change.specs.Contents.{bytes_from, sector_span};
ghost use Rattle.rbf_access.specs.Cached.{IsCacheOf, IsHeldSector, IsSectorUsed, StayHeld, UsesSectors};
ghost use Rattle.rbf_access.specs.Drive.{Counts};
ghost use Rattle.rbf_access.specs.Faults.{file_fault};
ghost use Rattle.rbf_access.specs.Mounted.{mounted_part, HasFile, IsMounted, RepresentsVolume};
ghost use Rattle.rbf_access.specs.Reading.{HaveBytes, IsCacheWith, IsFdOf, IsReadInto, OnFile, UsesCache, bytes_for, list_at, read_calls, run_list, span_for};

use crate::faults::FileFault;
use crate::volume::Volume;
use os9_outer::drive::BlockDriver;
use rbf_sector::{Fd, Run, read_fd, read_segs, read_size, run_at};
use rbf_segs::Segs;

impl Volume {
    /// The descriptor number of the root directory.
    pub fn root(&self) -> u32
        ensures kept { result ≡ self.now.ident.root }
        ensures volume { (image : List ℕ) (v : DiskVolume) → Agrees (mounted_part self.now) image
            → Vol image v
            → result ≡ (shape v).root }
    {
        self.ident.root
    }

    /// The number of free clusters.
    pub fn free_count(&self) -> u32
        ensures kept { result ≡ length (map_free_clusters self.now.map) }
        ensures volume { (image : List ℕ) (v : DiskVolume) → Agrees (mounted_part self.now) image
            → Vol image v
            → result ≡ free_total v }
    {
        self.map.free_count()
    }

    /// The descriptor of a file.
    ///
    /// # Errors
    ///
    /// `Device` if the drive's read fails.
    pub fn fd(&mut self, d: &mut dyn BlockDriver, lsn: u32) -> Result<Fd, FileFault>
        requires mounted { IsMounted self.old (media d.old) }
        requires file { HasFile (media d.old) lsn }
        ensures ok { OnFile (media d.old) lsn (λ file. IfOk result (IsFdOf file)) }
        ensures device { OnErr result (IsSome (file_fault result)) }
        ensures mounted { IsMounted self.new (media d.new) }
        ensures media_kept { media d.new ≡ media d.old }
        ensures volume_kept { mounted_part self.new ≡ mounted_part self.old }
        ensures hit { IsHeldSector self.old.cache lsn → drive_calls d.new ≡ drive_calls d.old }
        ensures used { OnOk result (IsSectorUsed lsn self.old.cache self.new.cache) }
        ensures still { (m : ℕ) → IsHeldSector self.old.cache lsn → IsHeldSector self.old.cache m
            → IsHeldSector self.new.cache m }
        ensures counts { Counts BlockDriver-dyn (file_fault result) 1 d.old d.new }
    {
        self.bring(d, lsn)?;
        Ok(read_fd(self.sector(lsn)))
    }

    /// The size of a file, in bytes.
    ///
    /// # Errors
    ///
    /// `Device` if the drive's read fails.
    pub fn size(&mut self, d: &mut dyn BlockDriver, lsn: u32) -> Result<u32, FileFault>
        requires mounted { IsMounted self.old (media d.old) }
        requires file { HasFile (media d.old) lsn }
        ensures ok { OnFile (media d.old) lsn
            (λ file. IfOk result (λ size. size ≡ length file.contents)) }
        ensures device { OnErr result (IsSome (file_fault result)) }
        ensures mounted { IsMounted self.new (media d.new) }
        ensures media_kept { media d.new ≡ media d.old }
        ensures volume_kept { mounted_part self.new ≡ mounted_part self.old }
        ensures hit { IsHeldSector self.old.cache lsn → drive_calls d.new ≡ drive_calls d.old }
        ensures used { OnOk result (IsSectorUsed lsn self.old.cache self.new.cache) }
        ensures still { StayHeld lsn self.old.cache self.new.cache }
        ensures counts { Counts BlockDriver-dyn (file_fault result) 1 d.old d.new }
    {
        self.bring(d, lsn)?;
        Ok(read_size(self.sector(lsn)))
    }

    /// Reads bytes of a file from `at` on, up to the room of `into` and the end of the file, and
    /// returns their number: 0 at or past the end. The rest of `into` is unchanged.
    ///
    /// # Errors
    ///
    /// `Device` if a read of the drive fails; then `into` may have changed.
    pub fn read_at(
        &mut self,
        d: &mut dyn BlockDriver,
        fd: u32,
        at: u32,
        into: &mut [u8],
    ) -> Result<u32, FileFault>
        requires mounted { IsMounted self.old (media d.old) }
        requires file { HasFile (media d.old) fd }
        ensures ok { OnFile (media d.old) fd (λ file. IfOk result
            (IsReadInto file at into.old into.new)) }
        ensures device { OnErr result (IsSome (file_fault result)) }
        ensures mounted { IsMounted self.new (media d.new) }
        ensures media_kept { media d.new ≡ media d.old }
        ensures volume_kept { mounted_part self.new ≡ mounted_part self.old }
        ensures cache { OnFile (media d.old) fd (λ file. UsesCache fd file at (length into.old)
            result self.old.cache self.new.cache (drive_calls d.old) (drive_calls d.new)) }
        ensures counts { OnFile (media d.old) fd (λ file. Counts BlockDriver-dyn
            (file_fault result) (read_calls file at (length into.old)) d.old d.new) }
    {
        self.bring(d, fd)?;
        let count = readable(read_size(self.sector(fd)), at, into.len());
        self.read_contents(d, fd, at, &mut into[..count])?;
        Ok(count as u32)
    }

    // Reads the bytes from `at` on of the sectors that a descriptor in the cache lists.
    fn read_contents(
        &mut self,
        d: &mut dyn BlockDriver,
        fd: u32,
        at: u32,
        into: &mut [u8],
    ) -> Result<(), FileFault>
        requires cached { IsCacheWith (media d.old) self.old.cache fd }
        requires bytes { HaveBytes (media d.old) (list_at (media d.old) fd) at (length into.old) }
        ensures bytes { OnOk result
            (into.new ≡ bytes_for (media d.old) (list_at (media d.old) fd) at into.old) }
        ensures device { OnErr result (IsSome (file_fault result)) }
        ensures media_kept { media d.new ≡ media d.old }
        ensures volume_kept { mounted_part self.new ≡ mounted_part self.old }
        ensures cached { IsCacheOf (media d.new) self.new.cache }
        ensures cache { UsesSectors (list_at (media d.old) fd) (at / 256) (span_for at into.old)
            result self.old.cache self.new.cache (drive_calls d.old) (drive_calls d.new) }
        ensures counts { Counts BlockDriver-dyn
            (file_fault result) (span_for at into.old) d.old d.new }
    {
        match run_with(self.sector(fd), at, into.len()) {
            Some(run) => self.read_run(d, &run, at % 256, into),
            None => {
                let segs = read_segs(self.sector(fd));
                self.read_bytes(d, &segs, at, into)
            }
        }
    }

    // Reads the bytes of a run's sectors from `at` on, up to the room of `into`.
    fn read_run(
        &mut self,
        d: &mut dyn BlockDriver,
        run: &Run,
        at: u32,
        into: &mut [u8],
    ) -> Result<(), FileFault>
        requires cached { IsCacheOf (media d.old) self.old.cache }
        requires bytes { HaveBytes (media d.old) (run_list run.now) at (length into.old) }
        ensures bytes { OnOk result
            (into.new ≡ bytes_for (media d.old) (run_list run.now) at into.old) }
        ensures device { OnErr result (IsSome (file_fault result)) }
        ensures media_kept { media d.new ≡ media d.old }
        ensures volume_kept { mounted_part self.new ≡ mounted_part self.old }
        ensures cached { IsCacheOf (media d.new) self.new.cache }
        ensures cache { UsesSectors (run_list run.now) (at / 256) (span_for at into.old)
            result self.old.cache self.new.cache (drive_calls d.old) (drive_calls d.new) }
        ensures counts { Counts BlockDriver-dyn
            (file_fault result) (span_for at into.old) d.old d.new }
    {
        if into.is_empty() {
            return Ok(());
        }
        let end = (at as usize + into.len()).div_ceil(256) as u32;
        for place in at / 256..end {
            let lsn = run.lsn + place;
            self.bring(d, lsn)?;
            copy_piece(self.sector(lsn), 256 * place as usize, at as usize, into);
        }
        Ok(())
    }

    // Reads the bytes of a file's sectors from `at` on, up to the room of `into`.
    fn read_bytes(
        &mut self,
        d: &mut dyn BlockDriver,
        segs: &Segs,
        at: u32,
        into: &mut [u8],
    ) -> Result<(), FileFault>
        requires cached { IsCacheOf (media d.old) self.old.cache }
        requires bytes { HaveBytes (media d.old) segs.now at (length into.old) }
        ensures bytes { OnOk result (into.new
            ≡ bytes_from (segment_bytes (sector_at (media d.old)) segs.now) at (length into.old)) }
        ensures device { OnErr result (IsSome (file_fault result)) }
        ensures media_kept { media d.new ≡ media d.old }
        ensures volume_kept { mounted_part self.new ≡ mounted_part self.old }
        ensures cached { IsCacheOf (media d.new) self.new.cache }
        ensures cache { UsesSectors segs.now (at / 256) (sector_span at (at + length into.old))
            result self.old.cache self.new.cache (drive_calls d.old) (drive_calls d.new) }
        ensures counts { Counts BlockDriver-dyn
            (file_fault result) (sector_span at (at + length into.old)) d.old d.new }
    {
        if into.is_empty() {
            return Ok(());
        }
        let end = (at as usize + into.len()).div_ceil(256) as u32;
        for place in at / 256..end {
            let lsn = segs.lsn_of(place).unwrap();
            self.bring(d, lsn)?;
            copy_piece(self.sector(lsn), 256 * place as usize, at as usize, into);
        }
        Ok(())
    }
}

// The number of bytes from a place on, at most `room`.
fn readable(size: u32, at: u32, room: usize) -> usize
    ensures { result ≡ min room (size - at) }
{
    room.min(size.saturating_sub(at) as usize)
}

// The run from the sector with the byte at `at` on, if it has `count` bytes from there.
fn run_with(descriptor: &[u8; 256], at: u32, count: usize) -> Option<Run>
    requires { at + count < 2 ^ 32 }
    ensures run { IfSome result (IsRunAt (segments_field descriptor.now) (at / 256)) }
    ensures within { IfSome result (λ run. at % 256 + count ≤ 256 * run.count) }
{
    let run = run_at(descriptor, at / 256)?;
    if at as usize % 256 + count <= 256 * run.count as usize {
        Some(run)
    } else {
        None
    }
}

// Copies the bytes of the file from `at` on that are in the sector at byte `first` of the file.
fn copy_piece(sector: &[u8; 256], first: usize, at: usize, into: &mut [u8])
    requires begins { at < first + 256 }
    requires ends { first < at + length into.old }
    requires fits { at + length into.old < 2 ^ 63 }
    ensures { let from = max at first in let end = min (at + length into.old) (first + 256) in
        into.new ≡ take (from - at) into.old ++ take (end - from) (drop (from - first) sector.now)
        ++ drop (end - at) into.old }
{
    let from = at.max(first);
    let end = (at + into.len()).min(first + 256);
    into[from - at..end - at].copy_from_slice(&sector[from - first..end - first]);
}
