ghost use Rattle.std.specs.Prelude.{◌≡◌, ◌≢◌, ℕ, ◌+◌, ◌-◌, ◌*◌, ◌/◌, ◌<◌, ◌≤◌, ◌↔◌, ◌==◌, length, IsNone, IfNone, IfSome, IsTrue, MatchOption};
ghost use Rattle.rbf_map.specs.Runs.{is_clear, is_clear_below, BeginsBestRun, IsChosenCluster};
ghost use Rattle.rbf_map.specs.Search.{IsLongestWith};
ghost use Rattle.rbf_model.specs.ClusterMap.{mark, map_free_clusters, IsFreeInMap, BeginsRun, NextIsUsed, IsNextFree, BeginsFreeRun, NoneIsFree, MayTake, Marks, IsSectorOf};

use crate::bits::{clear_mark, count_clear, first_clear, is_marked, set_mark};
use crate::runs::{best_run, is_alone};
use std::marker::Model;

/// The allocation map of a volume: a bit for each cluster, the most significant first, set if
/// the cluster is in use (OS-9 Technical Reference, Random Block File Manager, "Disk
/// Allocation Map").
///
/// A cluster is free if it is whole and its bit is clear. Bits after the last cluster are kept as
/// given.
#[derive(Debug, Drop)]
pub struct RbfMap {
    clusters: u32,
    whole: u32,
    bytes: Vec<u8>,
    free: u32,
    first: u32,
    longest: u32,
}

impl Model for RbfMap {
    ghost use Rattle.rbf_model.specs.ClusterMap.{ClusterMap};

    ghost Value = { ClusterMap };

    ghost use Rattle.rbf_map.specs.Inside.{map_of, HoldsMap};

    ghost view = { map_of };

    ghost invariant = { HoldsMap };
}

impl RbfMap {
    /// The map with these bytes, of `clusters` clusters, the first `whole` of which are whole.
    pub fn new(clusters: u32, whole: u32, bytes: Vec<u8>) -> RbfMap
        requires whole_ones { whole ≤ clusters }
        requires bits { clusters ≤ 8 * length bytes.items }
        ensures { result ≡ record { clusters = clusters; whole = whole; bytes = bytes.items } }
    {
        let free = count_clear(&bytes, whole);
        RbfMap {
            clusters,
            whole,
            bytes,
            free,
            first: 0,
            longest: whole,
        }
    }

    /// Whether this cluster is in use.
    pub fn is_used(&self, c: u32) -> bool
        requires { c < self.now.clusters }
        ensures { IsTrue result ↔ (mark self.now.bytes c ≡ 1) }
    {
        is_marked(&self.bytes, c)
    }

    /// The number of free clusters.
    pub fn free_count(&self) -> u32
        ensures { result ≡ length (map_free_clusters self.now) }
    {
        self.free
    }

    /// Takes a free cluster for a file that needs `wanted` more, including this one: the next after
    /// `c` if that is free. Otherwise, or without a `c`, the first of a run: of the first run that
    /// has all of them, and if there is none, of the longest. Returns `None` if and only if no
    /// cluster is free.
    pub fn take_after(&mut self, c: Option<u32>, wanted: u32) -> Option<u32>
        requires { 1 ≤ wanted }
        ensures none { IsNone result ↔ NoneIsFree self.old }
        ensures taken { IfSome result (MayTake self.old c) }
        ensures chosen { IfSome result (IsChosenCluster self.old c wanted) }
        ensures marked { IfSome result (λ cluster. Marks self.old self.new cluster 1) }
        ensures unchanged { IfNone result (self.new ≡ self.old) }
        ensures whole_ones { self.old.whole ≤ self.old.clusters }
    {
        if let Some(next) = self.next_of(c) {
            self.take(next);
            return Some(next);
        }
        let cluster = self.best_run(wanted)?;
        self.take(cluster);
        Some(cluster)
    }

    // Marks a free cluster as in use.
    fn take(&mut self, cluster: u32)
        requires { IsFreeInMap self.old cluster }
        ensures { Marks self.old self.new cluster 1 }
    {
        set_mark(&mut self.bytes, cluster);
        self.free -= 1;
    }

    // The first cluster of the best run for `wanted` clusters.
    fn best_run(&mut self, wanted: u32) -> Option<u32>
        requires { 1 ≤ wanted }
        ensures none { IfNone result (NoneIsFree self.old) }
        ensures found { IfSome result (BeginsFreeRun self.old) }
        ensures best { IfSome result (BeginsBestRun (is_clear self.old) wanted) }
        ensures unchanged { self.new ≡ self.old }
    {
        self.first = first_clear(&self.bytes, self.first, self.whole)?;
        let enough = wanted.min(self.longest);
        let run = best_run(&self.bytes, self.first, self.whole, enough);
        if run.length < enough {
            self.longest = run.length;
        }
        Some(run.first)
    }

    // The next cluster after `last`, if it is free.
    fn next_of(&self, last: Option<u32>) -> Option<u32>
        ensures none { IfNone result (NextIsUsed self.now last) }
        ensures next { IfSome result (IsNextFree self.now last) }
        ensures whole_ones { self.now.whole ≤ self.now.clusters }
    {
        let whole = self.whole;
        let next = last?.saturating_add(1);
        if next < whole && !is_marked(&self.bytes, next) {
            Some(next)
        } else {
            None
        }
    }

    /// Gives back a cluster that is in use.
    pub fn free(&mut self, c: u32)
        requires within { c < self.old.clusters }
        requires used { mark self.old.bytes c ≡ 1 }
        ensures { Marks self.old self.new c 0 }
    {
        clear_mark(&mut self.bytes, c);
        if c < self.whole {
            self.free += 1;
            self.first = self.first.min(c);
            self.longest = longest_with(&self.bytes, c, self.whole, self.longest);
        }
    }

    /// The bytes of the `n`-th sector of the map, with zeros after its end. `n` counts from 0,
    /// which is LSN 1 on a disk.
    pub fn sector(&self, n: u16, into: &mut [u8; 256])
        ensures { IsSectorOf self.now.bytes n into.new }
    {
        let start = self.bytes.len().min(256 * usize::from(n));
        let rest = &self.bytes[start..];
        let count = rest.len().min(256);
        let mut bytes = [0; 256];
        bytes[..count].copy_from_slice(&rest[..count]);
        *into = bytes;
    }
}

// The greatest length of a run after this cluster becomes free, if none was longer than `longest`.
// A cluster alone makes no run longer; otherwise only the next search can determine it.
fn longest_with(bytes: &[u8], cluster: u32, whole: u32, longest: u32) -> u32
    requires bits { whole ≤ 8 * length bytes.now }
    requires within { cluster < whole }
    ensures { IsLongestWith (is_clear_below bytes.now whole) cluster whole longest result }
{
    if is_alone(bytes, cluster, whole) {
        longest.max(1)
    } else {
        whole
    }
}
