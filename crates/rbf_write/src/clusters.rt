ghost use Rattle.std.specs.Prelude.{◌≡◌, ℕ, ◌+◌, ◌*◌, ◌^◌, ◌<◌, ◌≤◌, MatchOption};
ghost use Rattle.rbf_change.specs.Growth.{clusters_needed};
ghost use Rattle.rbf_write.specs.Files.{IsClusterCount, IsPastVolumes};

use rbf_segs::Segs;

// The number of clusters that a file with these segments still needs to hold bytes up to `end`.
// None if no volume has that many.
pub fn clusters_for(k: u16, segs: &Segs, end: usize) -> Option<u32>
    requires { 1 ≤ k }
    ensures { MatchOption result (IsPastVolumes k segs.now end) (IsClusterCount k segs.now end) }
{
    let had = segs.sectors() as usize;
    if end > u32::MAX as usize {
        return None;
    }
    let missing = end.div_ceil(256).saturating_sub(had);
    Some(missing.div_ceil(usize::from(k)) as u32)
}
