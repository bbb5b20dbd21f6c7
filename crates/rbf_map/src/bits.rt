ghost use Rattle.std.specs.Prelude.{◌≡◌, ◌≢◌, ℕ, ◌+◌, ◌-◌, ◌*◌, ◌/◌, ◌<◌, ◌≤◌, length, slice_index, MatchBool, MatchOption};
ghost use Rattle.rbf_model.specs.ClusterMap.{mark, clear_below, MarkedFrom, IsFirstClear, ChangesMark};
ghost use Rattle.rbf_map.specs.Search.{IsFirstMarked};

// Whether this cluster is in use.
pub fn is_marked(bytes: &[u8], cluster: u32) -> bool
    requires { cluster < 8 * length bytes.now }
    ensures { MatchBool result (mark bytes.now cluster ≡ 1) (mark bytes.now cluster ≡ 0) }
{
    bytes[cluster as usize / 8] >> (7 - cluster % 8) & 1 == 1
}

// Marks a cluster as in use.
pub fn set_mark(bytes: &mut Vec<u8>, cluster: u32)
    requires { cluster < 8 * length bytes.old.items }
    ensures { ChangesMark bytes.old.items bytes.new.items cluster 1 }
{
    bytes[cluster as usize / 8] |= 1 << (7 - cluster % 8);
}

// Marks a cluster as not in use.
pub fn clear_mark(bytes: &mut Vec<u8>, cluster: u32)
    requires { cluster < 8 * length bytes.old.items }
    ensures { ChangesMark bytes.old.items bytes.new.items cluster 0 }
{
    bytes[cluster as usize / 8] &= !(1 << (7 - cluster % 8));
}

// The first cluster from `first` on and below `end` that is not in use.
pub fn first_clear(bytes: &[u8], first: u32, end: u32) -> Option<u32>
    requires { end ≤ 8 * length bytes.now }
    ensures { MatchOption result (MarkedFrom bytes.now first end)
        (IsFirstClear bytes.now first end) }
{
    for cluster in first..end {
        if !is_marked(bytes, cluster) {
            return Some(cluster);
        }
    }
    None
}

// The end of the clusters that are not in use: the first from `first` on that is in use, or `end`.
pub fn first_marked(bytes: &[u8], first: u32, end: u32) -> u32
    requires bits { end ≤ 8 * length bytes.now }
    requires ordered { first ≤ end }
    ensures { IsFirstMarked bytes.now first end result }
{
    for next in first..end {
        if is_marked(bytes, next) {
            return next;
        }
    }
    end
}

// The number of clusters below `end` that are not in use.
pub fn count_clear(bytes: &[u8], end: u32) -> u32
    requires { end ≤ 8 * length bytes.now }
    ensures { result ≡ length (clear_below bytes.now end) }
{
    let mut clear = 0;
    for cluster in 0..end {
        if !is_marked(bytes, cluster) {
            clear += 1;
        }
    }
    clear
}
