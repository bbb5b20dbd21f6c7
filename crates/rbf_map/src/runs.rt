ghost use Rattle.std.specs.Prelude.{◌≡◌, ◌*◌, ◌<◌, ◌≤◌, nat_lt, length, if◌then◌else◌, IfNone, IfSome, IsTrue};
ghost use Rattle.rbf_model.specs.ClusterMap.{MarkedFrom};
ghost use Rattle.rbf_map.specs.Runs.{is_clear_below, IsBestRun};
ghost use Rattle.rbf_map.specs.Search.{IsNextRun, IsAlone};

use crate::bits::{first_clear, first_marked, is_marked};

/// Free clusters that follow one another.
#[derive(Clone, Copy, Debug, Drop)]
pub struct Run {
    pub first: u32,
    pub length: u32,
}

// The first run with `enough` of the clusters below `end`, or if there is none, the first of the
// longest. No cluster before `start` is free. Further clusters of a run are not counted.
pub fn best_run(bytes: &[u8], start: u32, end: u32, enough: u32) -> Run
    requires bits { end ≤ 8 * length bytes.now }
    requires used_before { MarkedFrom bytes.now 0 start }
    ensures { IsBestRun (is_clear_below bytes.now end) enough result.first result.length }
{
    let mut from = start;
    let mut best = Run {
        first: 0,
        length: 0,
    };
    while best.length < enough {
        let Some(run) = next_run(bytes, from, end, enough) else {
            return best;
        };
        from = run.first + run.length;
        best = longer_of(best, run);
    }
    best
}

// The first of two runs, unless the second is longer.
fn longer_of(one: Run, other: Run) -> Run
    ensures { result ≡ (if nat_lt one.length other.length then other else one) }
{
    if one.length < other.length {
        other
    } else {
        one
    }
}

// The first run from here on.
fn next_run(bytes: &[u8], from: u32, end: u32, enough: u32) -> Option<Run>
    requires bits { end ≤ 8 * length bytes.now }
    requires some { 1 ≤ enough }
    ensures none { IfNone result (MarkedFrom bytes.now from end) }
    ensures found { IfSome result (IsNextRun bytes.now from end enough) }
{
    let first = first_clear(bytes, from, end)?;
    let limit = first + enough.min(end - first);
    let behind = first_marked(bytes, first, limit);
    Some(Run {
        first,
        length: behind - first,
    })
}

// Whether neither of this cluster's neighbours is free.
pub fn is_alone(bytes: &[u8], cluster: u32, end: u32) -> bool
    requires bits { end ≤ 8 * length bytes.now }
    requires within { cluster < end }
    ensures { IsTrue result → IsAlone (is_clear_below bytes.now end) cluster }
{
    if is_free(bytes, cluster + 1, end) {
        return false;
    }
    match cluster.checked_sub(1) {
        None => true,
        Some(before) => !is_free(bytes, before, end),
    }
}

// Whether this cluster is below `end` and not in use.
fn is_free(bytes: &[u8], cluster: u32, end: u32) -> bool
    requires { end ≤ 8 * length bytes.now }
    ensures { result ≡ is_clear_below bytes.now end cluster }
{
    cluster < end && !is_marked(bytes, cluster)
}
