//! The definitions at work on small files.

ghost use Rattle.std.specs.Prelude.{◌≡◌, ◌⊎◌, ℕ, ◌+◌, ◌*◌, List, [], ◌∷◌, ◌++◌, false, length, replicate, Some, None};
ghost use Rattle.rbf_model.specs.Volume.{DiskVolume};
ghost use Rattle.rbf_change.specs.Contents.{written, bytes_from, sector_count};
ghost use Rattle.rbf_change.specs.Growth.{clusters_needed, with_clusters, IsChoice, IsOneTooMany};
ghost use Rattle.rbf_change.specs.Cut.{kept_count, cut_file};
ghost use Rattle.rbf_change.specs.Names.{new_entry, entry_place};
ghost use Rattle.rbf_change.specs.NewFiles.{first_segments, entry_refusal, no_cluster};
ghost use Rattle.rbf_change.specs.Faults.{IsWriteFront, DeletionEnds};
ghost use Rattle.rbf_change.specs.Examples.{short_file, scattered, only_far, near_and_far, smallest_root, file_of_two_clusters};

/// A file of 255 bytes is written to at 255, at 256, at 257 and at 1,000: it then has 256, 257, 258
/// and 1,001 bytes, in 1, 2, 2 and 4 sectors, with zeros between its old end and the place.
pub fn file_growth()
    ensures end { length (written short_file 255 (8 ∷ [])) ≡ 256 }
    ensures one_sector { sector_count 256 ≡ 1 }
    ensures next { length (written (written short_file 255 (8 ∷ [])) 256 (9 ∷ [])) ≡ 257 }
    ensures two_sectors { sector_count 257 ≡ 2 }
    ensures still_two { sector_count 258 ≡ 2 }
    ensures past { length (written (replicate 258 7) 1000 (8 ∷ [])) ≡ 1001 }
    ensures four_sectors { sector_count 1001 ≡ 4 }
    ensures zeros { bytes_from (written (replicate 258 7) 1000 (8 ∷ [])) 258 742 ≡ replicate 742 0 }
{}

/// A file with 48 segments that its size fills gains a cluster after its last sector, and has no
/// place for another. If no cluster is free, no file can be made.
pub fn full_segment_list()
    ensures needs_one { clusters_needed 1 scattered (48 * 256 + 1) ≡ 1 }
    ensures refused { IsOneTooMany 1 only_far scattered (48 * 256 + 1) (120 ∷ []) }
    ensures joined { IsChoice 1 near_and_far scattered (48 * 256 + 1) (99 ∷ []) }
    ensures none_free { entry_refusal 1 0 smallest_root (65 ∷ []) 0 false 0 ≡ Some no_cluster }
{}

/// In a volume of one sector per cluster, a new file needs three clusters for 768 bytes. If a fault
/// ends that write, none of the bytes are in the file.
pub fn write_fault()
    ensures needs_three { clusters_needed 1 (first_segments 1 9) 768 ≡ 3 }
    ensures nothing_seen { (count : ℕ) → IsWriteFront 0 0 (replicate 768 1) count → count ≡ 0 }
{}

/// A deletion that a fault ended has left the volume unchanged, or has removed the file.
pub fn delete_fault()
    ensures { (left : List ℕ) (v w : DiskVolume) (d n : ℕ) (name : List ℕ)
        → DeletionEnds left v w d n name → (w ≡ v) ⊎ (w.files n ≡ None) }
{}

/// With four sectors per cluster, a new file has three sectors after its descriptor. They hold 768
/// bytes; one byte more takes a cluster, and a cut to size 0 gives that one back.
pub fn clusters_of_four()
    ensures first { first_segments 4 8 ≡ (9, 3) ∷ [] }
    ensures holds { clusters_needed 4 (first_segments 4 8) 768 ≡ 0 }
    ensures one_more { clusters_needed 4 (first_segments 4 8) 769 ≡ 1 }
    ensures grown { with_clusters 4 (first_segments 4 8) (4 ∷ []) ≡ file_of_two_clusters.segments }
    ensures keeps { kept_count 4 8 file_of_two_clusters 0 ≡ 3 }
    ensures cut { (cut_file 4 8 file_of_two_clusters 0 []).segments ≡ (9, 3) ∷ [] }
{}

/// A new entry: the name, bit 7 on its last character, zeros, and the descriptor's number. In a
/// directory without a free entry it is put after the first two.
pub fn new_entries()
    ensures bytes { new_entry (65 ∷ 66 ∷ []) 66051 ≡ 65 ∷ 194 ∷ (replicate 27 0 ++ 1 ∷ 2 ∷ 3 ∷ []) }
    ensures place { entry_place smallest_root.contents ≡ 2 }
{}
