//! Paths and disks worked through.

ghost use Rattle.std.specs.Prelude.{◌≡◌, ◌∷◌, [], Some, None, codes};
ghost use Rattle.vol_tools.specs.Path.{path_names, place_of, directory_names};
ghost use Rattle.vol_tools.specs.Blank.{map_bytes_for, blank_root};

/// Paths, and texts that are not paths.
pub fn paths()
    ensures one { path_names (codes "A") ≡ Some (codes "A" ∷ []) }
    ensures two { path_names (codes "A/..") ≡ Some (codes "A" ∷ codes ".." ∷ []) }
    ensures place { place_of (codes "A/B")
        ≡ Some (record { way = codes "A" ∷ []; name = codes "B" }) }
    ensures before { path_names (codes "/A") ≡ None }
    ensures behind { path_names (codes "A/") ≡ None }
    ensures twice { path_names (codes "A//B") ≡ None }
    ensures root { directory_names (codes "/") ≡ Some [] }
    ensures no_file { path_names (codes "/") ≡ None }
    ensures character { path_names (codes "A-B") ≡ None }
{}

/// A disk of 630 sectors has a map of 79 bytes and its root in sector 2.
pub fn blank_disks()
    ensures map { map_bytes_for 630 1 ≡ 79 }
    ensures root { blank_root 630 1 ≡ 2 }
    ensures small { blank_root 16 64 ≡ 2 }
    ensures large { blank_root 524280 1 ≡ 257 }
{}
