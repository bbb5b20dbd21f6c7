ghost use Rattle.std.specs.Prelude.{◌≡◌, ℕ, ◌++◌, false, List};
ghost use Rattle.rbf_model.specs.Volume.{DiskVolume, Vol};
ghost use Rattle.run_laws.specs.Stops.{DiskWrite, after_writes, AreLawfulWrites, changes_in, IsCutOff};

/// A disk that takes only the first of some lawful writes is well formed, and each file that none
/// of the writes changes is unchanged.
pub fn a_disk_cut_off_is_well_formed()
    ensures cut_off { (image : List ℕ) (v w : DiskVolume) (writes : List DiskWrite) → Vol image v
        → (lawful : AreLawfulWrites image v writes w) (k : ℕ)
        → IsCutOff image v writes (changes_in lawful) k }
    ensures end { (image : List ℕ) (v w : DiskVolume) (writes : List DiskWrite) → Vol image v
        → AreLawfulWrites image v writes w → Vol (after_writes image writes) w }
{}

/// Lawful writes followed by lawful writes are lawful writes.
pub fn lawful_writes_follow_one_another()
    ensures { (image : List ℕ) (v u w : DiskVolume) (first second : List DiskWrite)
        → AreLawfulWrites image v first u → AreLawfulWrites (after_writes image first) u second w
        → AreLawfulWrites image v (first ++ second) w }
{}
