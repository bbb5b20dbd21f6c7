ghost use Rattle.std.specs.Prelude.{◌≡◌, true, false, not, ℕ, ◌/◌, ◌==◌, ◌&&◌, ◌≤◌, ◌<◌};
ghost use Rattle.rbf_alloc.specs.Own.{AreInMap, ClearsMarks, here, in_own, in_stretch};
ghost use Rattle.rbf_alloc.specs.Rest.{in_rest, in_rest_of};

use crate::rest::CutSectors;
use crate::{Stretch, free_one};
use rbf_map::RbfMap;

// Clears the marks in a map of the clusters that are given up, if they are in its sector `place`.
pub fn free_rest(map: &mut RbfMap, cut: &CutSectors, k: u16, place: u16)
    requires some { 1 ≤ k }
    requires in_map { AreInMap (in_rest k cut.now) map.old }
    ensures { ClearsMarks map.old map.new (here (in_rest k cut.now) place) }
{
    for i in 0..cut.old.count() {
        free_stretch(map, cut, k, place, &cut.old.stretch(i, k, place));
    }
}

// The same for clusters that follow one another, all with their marks in that sector.
fn free_stretch(map: &mut RbfMap, cut: &CutSectors, k: u16, place: u16, part: &Stretch)
    requires some { 1 ≤ k }
    requires there { (c : ℕ) → in_stretch part.now c ≡ true → c / 2048 ≡ place }
    requires in_map { AreInMap (in_rest_of k cut.now part.now) map.old }
    ensures { ClearsMarks map.old map.new (in_rest_of k cut.now part.now) }
{
    for c in part.first..part.end {
        free_if_given_up(map, cut, k, place, c);
    }
}

// The same for one cluster.
fn free_if_given_up(map: &mut RbfMap, cut: &CutSectors, k: u16, place: u16, c: u32)
    requires some { 1 ≤ k }
    requires there { c / 2048 ≡ place }
    requires in_map { in_own k cut.now.kept c ≡ false → c < map.old.clusters }
    ensures { ClearsMarks map.old map.new
        (λ other. (other == c) && not (in_own k cut.now.kept c)) }
{
    if !cut.keeps(k, place, c) {
        free_one(map, c);
    }
}
