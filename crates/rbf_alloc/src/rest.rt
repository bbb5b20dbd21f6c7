ghost use Rattle.std.specs.Prelude.{◌≡◌, ℕ, ◌/◌, ◌≤◌, true, MatchOption};
ghost use Rattle.rbf_alloc.specs.Own.{here, in_own, in_stretch, NoneHere};
ghost use Rattle.rbf_alloc.specs.Rest.{in_rest, AllKept, IsRest};

use crate::{OwnSectors, Stretch};

/// The sectors that a file had, and those of them that it keeps when it is cut.
#[derive(Clone, Copy, Debug)]
pub struct CutSectors {
    pub old: OwnSectors,
    pub kept: OwnSectors,
}

impl CutSectors {
    // Whether a kept sector is in this cluster, whose mark is in the map's sector `place`.
    pub fn keeps(&self, k: u16, place: u16, c: u32) -> bool
        requires some { 1 ≤ k }
        requires there { c / 2048 ≡ place }
        ensures { result ≡ in_own k self.now.kept c }
    {
        for i in 0..self.kept.count() {
            let part = self.kept.stretch(i, k, place);
            if part.first <= c && c < part.end {
                return true;
            }
        }
        false
    }

    // A cluster that is given up and has its mark in the map's sector `place`, if there is one.
    pub fn first_in(&self, k: u16, place: u16) -> Option<u32>
        requires { 1 ≤ k }
        ensures { MatchOption result (NoneHere (in_rest k self.now) place)
            (λ c. here (in_rest k self.now) place c ≡ true) }
    {
        for i in 0..self.old.count() {
            let part = self.old.stretch(i, k, place);
            if let Some(c) = self.first_of(k, place, &part) {
                return Some(c);
            }
        }
        None
    }

    // The first given-up cluster of these, all with their marks in the map's sector `place`.
    fn first_of(&self, k: u16, place: u16, part: &Stretch) -> Option<u32>
        requires some { 1 ≤ k }
        requires there { (c : ℕ) → in_stretch part.now c ≡ true → c / 2048 ≡ place }
        ensures { MatchOption result (AllKept k self.now part.now) (IsRest k self.now part.now) }
    {
        for c in part.first..part.end {
            if !self.keeps(k, place, c) {
                return Some(c);
            }
        }
        None
    }
}
