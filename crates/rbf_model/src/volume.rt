//! The volume of an image, as laws over all images.

ghost use Rattle.std.specs.Prelude.{◌≡◌, ℕ, List, filter, not, ◌&&◌, Bool, IsSome};
ghost use Rattle.std.specs.List.{range_with_len};
ghost use Rattle.rbf_model.specs.Disk.{image_disk};
ghost use Rattle.rbf_model.specs.Geometry.{image_geometry, sector, HasHeader};
ghost use Rattle.rbf_model.specs.Space.{is_whole, is_marked, cluster_count};
ghost use Rattle.rbf_model.specs.Volume.{DiskVolume, Vol, free_clusters};
ghost use Rattle.rbf_model.specs.Walk.{arrives, walk};
ghost use Rattle.rbf_model.specs.Faults.{ImageBreaks};
ghost use Rattle.rbf_model.specs.Keeps.{Keeps};
ghost use Rattle.rbf_model.specs.Search.{IsListOfReached, image_volume};

/// An image represents at most one volume.
pub fn one_volume()
    ensures { (image : List ℕ) (v w : DiskVolume) → Vol image v → Vol image w → v ≡ w }
{}

/// An image that represents a volume breaks no rule.
pub fn no_rule_is_broken()
    ensures { (image : List ℕ) (v : DiskVolume) (rule lsn : ℕ) →
        Vol image v → ImageBreaks image rule lsn → ⊥ }
{}

/// An image that breaks no rule represents the volume of its reached files.
pub fn rules_suffice()
    ensures { (image numbers : List ℕ) → HasHeader image
        → Keeps (image_disk image)
        → IsListOfReached (image_disk image) numbers
        → Vol image (image_volume image numbers) }
{}

/// The free clusters of a volume are the whole ones that its map does not mark.
pub fn free_clusters_are_unmarked()
    ensures { (image : List ℕ) (v : DiskVolume) → Vol image v →
        free_clusters (image_geometry image) v
        ≡ filter (λ c. is_whole (image_geometry image) c && not (is_marked (sector image) c))
        (range_with_len 0 (cluster_count (image_geometry image))) }
{}

/// A walk in a volume that begins at one of its files ends, if it arrives, at one of its files.
pub fn walks_arrive_at_files()
    ensures { (image : List ℕ) (v : DiskVolume) (user : ℕ) (execute : Bool) (d n : ℕ)
        (names : List (List ℕ)) → Vol image v → IsSome (v.files d)
        → walk v.files user execute d names ≡ arrives n → IsSome (v.files n) }
{}
