ghost use Rattle.std.specs.Prelude.{◌≡◌, ◌+◌, ◌<◌, ◌≤◌, MatchOption, length, slice_index};

// The next of the first number of a range, if it is in the range.
pub fn next_in_range(nexts: &[u32], first: u32, count: u32) -> Option<u32>
    requires some { 1 ≤ count }
    requires within { first + count ≤ length nexts.now }
    requires fits { first + count < 4294967296 }
    ensures { MatchOption result (first + count ≤ slice_index nexts.now first)
        (λ next. (next ≡ slice_index nexts.now first) × (next < first + count)) }
{
    let next = nexts[first as usize];
    if next < first + count {
        Some(next)
    } else {
        None
    }
}
