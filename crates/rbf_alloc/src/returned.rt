ghost use Rattle.std.specs.Prelude.{◌≡◌, ℕ, ◌+◌, ◌*◌, ◌<◌, ◌≤◌, length};
ghost use Rattle.rbf_model.specs.Segments.{sectors_of};
ghost use Rattle.rbf_alloc.specs.Gained.{AreSizes, AreMapped, ReturnsOne, IsGivenBack, cluster_at};

use rbf_map::RbfMap;
use rbf_segs::Segs;

/// Clusters that follow one another in a list of segments: the place of the first one's first
/// sector, and their number.
#[derive(Clone, Copy)]
pub struct ClusterRange {
    pub first: u32,
    pub count: u32,
}

/// Gives gained clusters back to a map, except those with their mark in a sector of the map that
/// was written.
pub fn give_back(map: &mut RbfMap, k: u16, segs: &Segs, range: ClusterRange, written: &[bool; 256])
    requires sizes { AreSizes k map.old }
    requires places { AreMapped k map.old segs.now range.first range.count }
    ensures { IsGivenBack k segs.now range.first range.count written.now map.old map.new }
{
    for i in 0..range.count {
        let cluster = cluster_of(segs, k, range.first + i * u32::from(k));
        return_one(map, cluster, written);
    }
}

// Gives back a cluster that is in use, unless its mark is in a sector that was written.
fn return_one(map: &mut RbfMap, cluster: u32, written: &[bool; 256])
    requires in_map { cluster < map.old.clusters }
    requires few { cluster < 524288 }
    ensures { ReturnsOne written.now cluster map.old map.new }
{
    if !written[cluster as usize / 2048] && map.is_used(cluster) {
        map.free(cluster);
    }
}

// The cluster of the sector in this place.
pub fn cluster_of(segs: &Segs, k: u16, place: u32) -> u32
    requires some { 1 ≤ k }
    requires within { place < length (sectors_of segs.now) }
    ensures { result ≡ cluster_at k segs.now place }
{
    segs.lsn_of(place).unwrap() / u32::from(k)
}
