ghost use Rattle.std.specs.Prelude.{◌≡◌, ◌↔◌, ℕ, ◌+◌, ◌*◌, ◌<◌, ◌≤◌, length, IfOk, OnOk, OnErr, IsErrOf, None};
ghost use Rattle.std.specs.Option.{option_map};
ghost use Rattle.rbf_model.specs.Segments.{sectors_of};
ghost use Rattle.rbf_model.specs.ClusterMap.{NoneIsFree, map_free_clusters};
ghost use Rattle.rbf_map.specs.Runs.{is_clear};
ghost use Rattle.rbf_access.specs.Faults.{file_fault};
ghost use Rattle.rbf_alloc.specs.Gained.{AreSizes, AreApart, SameMap, last_cluster, GainsOne, IsOneFull, IsChosenGain, IsTooMany};

use crate::returned::{ClusterRange, give_back};
use rbf_access::FileFault;
use rbf_map::RbfMap;
use rbf_segs::{Segs, SegsFull};

/// Takes clusters in a map for a file with these segments, and returns its segments followed by the
/// sectors of those clusters. If the file's next cluster is not free, the first of the first run
/// that has all clusters still needed is taken, and if there is none, of the longest run.
///
/// # Errors
///
/// `NoCluster` if and only if fewer are free, `TooManyRuns` if a chosen one does not fit the list.
/// Then the marks of the map are unchanged.
pub fn gain(map: &mut RbfMap, k: u16, segs: &Segs, count: u32) -> Result<Segs, FileFault>
    requires sizes { AreSizes k map.old }
    requires few { length segs.now ≤ 48 }
    requires apart { AreApart k map.old segs.now }
    ensures ok { IfOk result (IsChosenGain k count map.old map.new segs.now) }
    ensures full { IsErrOf result FileFault.NoCluster
        ↔ (length (map_free_clusters map.old) < count) }
    ensures runs { IsErrOf result FileFault.TooManyRuns
        → IsTooMany k count (is_clear map.old) segs.now }
    ensures no_device { file_fault result ≡ None }
    ensures back { OnErr result (SameMap map.old map.new) }
{
    if map.free_count() < count {
        return Err(FileFault::NoCluster);
    }
    let first = segs.sectors();
    let mut longer = *segs;
    for taken in 0..count {
        match gain_one(map, k, &mut longer, count - taken) {
            Ok(()) => {}
            Err(_full) => {
                let gained = ClusterRange {
                    first,
                    count: taken,
                };
                give_back(map, k, &longer, gained, &[false; 256]);
                return Err(FileFault::TooManyRuns);
            }
        }
    }
    Ok(longer)
}

// Takes one cluster for a file that needs `wanted`, unless its sectors do not fit the list.
fn gain_one(map: &mut RbfMap, k: u16, segs: &mut Segs, wanted: u32) -> Result<(), SegsFull>
    requires sizes { AreSizes k map.old }
    requires some { ¬ NoneIsFree map.old }
    requires wanted { 1 ≤ wanted }
    ensures ok { OnOk result (GainsOne k wanted map.old map.new segs.old segs.new) }
    ensures full { OnErr result (IsOneFull k wanted map.old segs.old) }
    ensures back { OnErr result (SameMap map.old map.new) }
    ensures segs_kept { OnErr result (segs.new ≡ segs.old) }
{
    let cluster = map.take_after(last_of(segs, k), wanted).unwrap();
    match segs.append(cluster * u32::from(k), k) {
        Ok(()) => Ok(()),
        Err(full) => {
            map.free(cluster);
            Err(full)
        }
    }
}

// The cluster of the last sector, if there is one.
fn last_of(segs: &Segs, k: u16) -> Option<u32>
    requires { 1 ≤ k }
    ensures { result ≡ last_cluster k segs.now }
{
    match segs.last() {
        None => None,
        Some(sector) => Some(sector / u32::from(k)),
    }
}
