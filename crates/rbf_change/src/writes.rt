//! The lawful writes of one sector, as one law.

ghost use Rattle.std.specs.Prelude.{◌≡◌, ℕ, List, length};
ghost use Rattle.rbf_model.specs.Geometry.{sector};
ghost use Rattle.rbf_model.specs.Volume.{DiskVolume, Vol};
ghost use Rattle.rbf_model.specs.Writes.{put_sector};
ghost use Rattle.rbf_change.specs.Lawful.{IsLawful, AreLawful};

/// An image after one lawful sector write represents the volume that the law gives.
pub fn a_lawful_write_leaves_a_volume()
    ensures { (image : List ℕ) (v : DiskVolume) (s : ℕ) (bytes : List ℕ) (w : DiskVolume) →
        Vol image v → length bytes ≡ 256 → IsLawful (sector image) v s bytes w
        → Vol (put_sector image s bytes) w }
{}

/// The same holds after any number of them.
pub fn lawful_writes_leave_a_volume()
    ensures { (image : List ℕ) (v : DiskVolume) (now : List ℕ) (w : DiskVolume) →
        Vol image v → AreLawful image v now w → Vol now w }
{}
