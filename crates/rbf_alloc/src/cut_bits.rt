ghost use Rattle.std.specs.Prelude.{◌≡◌, true, not, ℕ, ◌/◌, ◌==◌, ◌&&◌, ◌≤◌};
ghost use Rattle.rbf_alloc.specs.Own.{ClearsIn, in_own, in_stretch};
ghost use Rattle.rbf_alloc.specs.Rest.{in_rest, in_rest_of};

use crate::rest::CutSectors;
use crate::{Stretch, clear_mark};

// Clears the marks of the clusters that are given up in the bytes of the map's sector `place`.
pub fn clear_rest(bytes: &mut [u8; 256], cut: &CutSectors, k: u16, place: u16)
    requires { 1 ≤ k }
    ensures { ClearsIn place bytes.old bytes.new (in_rest k cut.now) }
{
    for i in 0..cut.old.count() {
        clear_stretch(bytes, cut, k, place, &cut.old.stretch(i, k, place));
    }
}

// The same for clusters that follow one another, all with their marks in that sector.
fn clear_stretch(bytes: &mut [u8; 256], cut: &CutSectors, k: u16, place: u16, part: &Stretch)
    requires some { 1 ≤ k }
    requires there { (c : ℕ) → in_stretch part.now c ≡ true → c / 2048 ≡ place }
    ensures { ClearsIn place bytes.old bytes.new (in_rest_of k cut.now part.now) }
{
    for c in part.first..part.end {
        clear_one(bytes, cut, k, place, c);
    }
}

// The same for one cluster.
fn clear_one(bytes: &mut [u8; 256], cut: &CutSectors, k: u16, place: u16, c: u32)
    requires some { 1 ≤ k }
    requires there { c / 2048 ≡ place }
    ensures { ClearsIn place bytes.old bytes.new
        (λ other. (other == c) && not (in_own k cut.now.kept c)) }
{
    if !cut.keeps(k, place, c) {
        clear_mark(bytes, c);
    }
}
