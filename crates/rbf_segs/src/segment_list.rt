ghost use Rattle.std.specs.Prelude.{◌≡◌, ℕ, ◌+◌, ◌-◌, ◌*◌, ◌<◌, ◌≤◌, ◌++◌, length, take, slice_get, All, MatchOption, [], ◌∷◌, replicate};
ghost use Rattle.rbf_model.specs.Segments.{sectors_of, appended_segments, shortened_segments};
ghost use Rattle.rbf_segs.specs.Segments.{IsSegment, Lengthens};

// The number of sectors in the segments.
pub fn total(runs: &[(u32, u16)]) -> u32
    requires { length runs.now ≤ 48 }
    ensures count { result ≡ length (sectors_of runs.now) }
    ensures few { result ≤ 48 * 65535 }
{
    let mut sectors = 0;
    for &(_, count) in runs {
        sectors += u32::from(count);
    }
    sectors
}

// The sector at this place among all sectors of the segments.
pub fn sector_at(runs: &[(u32, u16)], place: u32) -> Option<u32>
    requires { All IsSegment runs.now }
    ensures { result ≡ slice_get (sectors_of runs.now) place }
{
    let mut left = place;
    for &(lsn, count) in runs {
        if left < u32::from(count) {
            return Some(lsn + left);
        }
        left -= u32::from(count);
    }
    None
}

// The last of all sectors of the segments.
pub fn last_sector(runs: &[(u32, u16)]) -> Option<u32>
    requires { All IsSegment runs.now }
    ensures { result ≡ slice_get (sectors_of runs.now) (length (sectors_of runs.now) - 1) }
{
    let &(lsn, count) = runs.last()?;
    Some(lsn + u32::from(count) - 1)
}

// The last segment with `count` more sectors, if `lsn` follows it and it has room for them.
pub fn lengthened(runs: &[(u32, u16)], lsn: u32, count: u16) -> Option<(u32, u16)>
    requires { All IsSegment runs.now }
    ensures { MatchOption result
        (appended_segments runs.now lsn count ≡ runs.now ++ (lsn, count) ∷ [])
        (Lengthens runs.now lsn count) }
{
    let &(first, had) = runs.last()?;
    if first + u32::from(had) != lsn {
        return None;
    }
    Some((first, had.checked_add(count)?))
}

// Keeps the first `sectors` sectors, with zeros in the places after their segments, and returns the
// number of those segments.
pub fn shorten(places: &mut [(u32, u16)], sectors: u32) -> usize
    ensures places { places.new ≡ shortened_segments sectors places.old
        ++ replicate (length places.old - result) (0, 0) }
    ensures runs { result ≡ length (shortened_segments sectors places.old) }
{
    let mut left = sectors;
    let mut runs = 0;
    for i in 0..places.len() {
        let (lsn, count) = places[i];
        let kept = left.min(u32::from(count));
        if left == 0 {
            places[i] = (0, 0);
        } else {
            places[i] = (lsn, kept as u16);
            runs += 1;
        }
        left -= kept;
    }
    runs
}
