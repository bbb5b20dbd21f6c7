//! The laws of a write of one sector: each gives the volume that an image represents after it.
//!
//! A call that changes a volume is a list of such writes, so the volume after any of them follows.

ghost use Rattle.std.specs.Prelude.{◌≡◌, ℕ, ◌&&◌, ◌||◌, not, Bool, List, length, Option, Some, None};
ghost use Rattle.rbf_model.specs.Geometry.{image_geometry, sector};
ghost use Rattle.rbf_model.specs.Disk.{image_disk};
ghost use Rattle.rbf_model.specs.File.{DiskFile, file_from, file_at};
ghost use Rattle.rbf_model.specs.Volume.{DiskVolume, Vol};
ghost use Rattle.rbf_model.specs.Writes.{put_sector, with_file, with_file_in_place, with_lost};
ghost use Rattle.rbf_model.specs.Laws.{MarksFreeClusters, FreesClusters, IsUnseen, Overwrites, with_sector_bytes, Redescribes, DirectoryEntry, SectorWrite, AddsEntry, AppendsEntry, RemovesEntry, with_entry_put};

/// Free clusters that are marked in one sector of the map are lost.
pub fn marked_clusters_are_lost()
    ensures { (image : List ℕ) (v : DiskVolume) (s : ℕ) (bytes : List ℕ) (taken : ℕ → Bool) →
        Vol image v → length bytes ≡ 256
        → MarksFreeClusters (image_disk image) v s bytes taken
        → Vol (put_sector image s bytes) (with_lost v (λ c. v.lost c || taken c)) }
{}

/// Lost clusters whose marks are cleared in one sector of the map are not lost any more. The marks of
/// clusters that are not whole and in no file may be cleared with them.
pub fn cleared_clusters_are_free()
    ensures { (image : List ℕ) (v : DiskVolume) (s : ℕ) (bytes : List ℕ) (freed : ℕ → Bool) →
        Vol image v → length bytes ≡ 256
        → FreesClusters (image_disk image) v s bytes freed
        → Vol (put_sector image s bytes) (with_lost v (λ c. v.lost c && not (freed c))) }
{}

/// A write to a sector of a free or lost cluster, to a sector without an owner, or to a file's
/// sector in which no byte below the file's size changes, leaves the volume unchanged.
pub fn unseen_writes_leave_the_volume()
    ensures { (image : List ℕ) (v : DiskVolume) (s : ℕ) (bytes : List ℕ) →
        Vol image v → length bytes ≡ 256
        → IsUnseen (image_disk image) v s bytes
        → Vol (put_sector image s bytes) v }
{}

/// A write to a sector of a file that is not a directory changes the file's contents in that
/// sector.
pub fn data_is_overwritten()
    ensures { (image : List ℕ) (v : DiskVolume) (n j s : ℕ) (file : DiskFile) (bytes : List ℕ) →
        Vol image v → length bytes ≡ 256
        → Overwrites v n file j s
        → Vol (put_sector image s bytes)
        (with_file_in_place v n (with_sector_bytes file j bytes)) }
{}

/// A write of a file's descriptor gives the file that it describes, and loses the whole clusters
/// that the file gives up.
pub fn descriptor_is_written()
    ensures { (image : List ℕ) (v : DiskVolume) (n : ℕ) (old : DiskFile) (bytes : List ℕ) →
        Vol image v → length bytes ≡ 256
        → Redescribes (image_disk image) v n old bytes
        → Vol (put_sector image n bytes)
        (with_file (image_geometry image) v n (Some (file_from (sector image) bytes))) }
{}

/// A free entry of a directory that becomes used brings the file that it names into the volume.
pub fn entry_becomes_used()
    ensures { (image : List ℕ) (v : DiskVolume) (entry : DirectoryEntry) (write : SectorWrite)
        (n : ℕ) → Vol image v → length write.bytes ≡ 256
        → AddsEntry (image_disk image) v entry write n
        → Vol (put_sector image write.lsn write.bytes)
        (with_file (image_geometry image)
        (with_file_in_place v entry.directory (with_entry_put entry)) n
        (Some (file_at (sector image) n))) }
{}

/// A descriptor that gives a directory one more entry brings the file that it names into the
/// volume.
pub fn directory_grows_by_an_entry()
    ensures { (image : List ℕ) (v : DiskVolume) (entry : DirectoryEntry) (bytes : List ℕ)
        (n : ℕ) → Vol image v → length bytes ≡ 256
        → AppendsEntry (image_disk image) v entry bytes n
        → Vol (put_sector image entry.directory bytes)
        (with_file (image_geometry image)
        (with_file (image_geometry image) v entry.directory
        (Some (file_from (sector image) bytes))) n
        (Some (file_at (sector image) n))) }
{}

/// A used entry that becomes free removes the file that it named from the volume, and loses its
/// whole clusters.
pub fn entry_becomes_free()
    ensures { (image : List ℕ) (v : DiskVolume) (entry : DirectoryEntry) (write : SectorWrite)
        (n : ℕ) (file : DiskFile) → Vol image v → length write.bytes ≡ 256
        → RemovesEntry (sector image) v entry write n file
        → Vol (put_sector image write.lsn write.bytes)
        (with_file (image_geometry image)
        (with_file_in_place v entry.directory (with_entry_put entry)) n
        None) }
{}
