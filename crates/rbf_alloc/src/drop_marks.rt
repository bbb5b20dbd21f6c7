ghost use Rattle.std.specs.Prelude.{◌≤◌, ◌<◌, ◌==◌};
ghost use Rattle.rbf_alloc.specs.Own.{AreInMap, ClearsMarks, in_own, in_stretch, here};

use crate::own::{OwnSectors, Stretch};
use rbf_map::RbfMap;

// Clears the marks of a file's clusters in a map, if they are in its sector `place`.
pub fn free_own(map: &mut RbfMap, own: &OwnSectors, k: u16, place: u16)
    requires some { 1 ≤ k }
    requires in_map { AreInMap (in_own k own.now) map.old }
    ensures { ClearsMarks map.old map.new (here (in_own k own.now) place) }
{
    for i in 0..own.count() {
        free_stretch(map, &own.stretch(i, k, place));
    }
}

// Clears the marks of clusters that follow one another.
fn free_stretch(map: &mut RbfMap, part: &Stretch)
    requires { AreInMap (in_stretch part.now) map.old }
    ensures { ClearsMarks map.old map.new (in_stretch part.now) }
{
    for c in part.first..part.end {
        free_one(map, c);
    }
}

/// Clears the mark of a cluster, if it is set.
pub fn free_one(map: &mut RbfMap, c: u32)
    requires { c < map.old.clusters }
    ensures { ClearsMarks map.old map.new (λ other. other == c) }
{
    if map.is_used(c) {
        map.free(c);
    }
}
