ghost use Rattle.std.specs.Prelude.{◌≡◌, ℕ, ◌+◌, ◌-◌, ◌<◌, ◌≤◌, length, slice_get, MatchOption, Some, true};
ghost use Rattle.rbf_alloc.specs.Own.{own_segments, in_own, in_part, in_stretch, here, NoneHere};

use rbf_segs::Segs;

/// The number of cluster marks in one sector of the map.
const MARKS: u32 = 2048;

/// The sectors of a file: that of its descriptor, and those of its segments.
#[derive(Clone, Copy, Debug)]
pub struct OwnSectors {
    pub fd: u32,
    pub segs: Segs,
}

/// Clusters that follow one another, from the first up to the end. There are none if the first is
/// not before the end.
#[derive(Clone, Copy, Debug)]
pub struct Stretch {
    pub first: u32,
    pub end: u32,
}

impl OwnSectors {
    /// The number of segments, including the descriptor's own sector as one.
    pub fn count(&self) -> u8
        ensures count { result ≡ length (own_segments self.now) }
        ensures few { result ≤ 49 }
    {
        self.segs.runs() + 1
    }

    /// The clusters, of `k` sectors each, of the segment in place `i` that have their marks in the
    /// map's sector `place`. Both places count from 0.
    pub fn stretch(&self, i: u8, k: u16, place: u16) -> Stretch
        requires within { i < length (own_segments self.now) }
        requires some { 1 ≤ k }
        ensures { (c : ℕ) → in_stretch result c ≡ here (in_part k self.now i) place c }
    {
        let (from, to) = self.segment(i);
        let k = u32::from(k);
        let low = MARKS * u32::from(place);
        Stretch {
            first: (from / k).max(low),
            end: (to / k).min(low + (MARKS - 1)) + 1,
        }
    }

    // The first and the last sector of the segment in a place.
    fn segment(&self, i: u8) -> (u32, u32)
        requires { i < length (own_segments self.now) }
        ensures there { slice_get (own_segments self.now) i
            ≡ Some (result.0, result.1 + 1 - result.0) }
        ensures order { result.0 ≤ result.1 }
    {
        if i == 0 {
            return (self.fd, self.fd);
        }
        let (lsn, count) = self.segs.run(i - 1);
        (lsn, lsn + (u32::from(count) - 1))
    }

    /// The first cluster whose mark is in the map's sector `place`, segment by segment. None if no
    /// cluster has its mark there.
    pub fn first_in(&self, k: u16, place: u16) -> Option<u32>
        requires { 1 ≤ k }
        ensures { MatchOption result (NoneHere (in_own k self.now) place)
            (λ c. here (in_own k self.now) place c ≡ true) }
    {
        for i in 0..self.count() {
            let part = self.stretch(i, k, place);
            if part.first < part.end {
                return Some(part.first);
            }
        }
        None
    }
}
