ghost use Rattle.std.specs.Prelude.{◌≡◌, Some, None, codes};
ghost use Rattle.time_rules.specs.CivilRows.{at};
ghost use Rattle.os9_clock.specs.TimeText.{time_in};

/// Times of the first and of the last valid year, and a leap day.
pub fn times_are_read()
    ensures first { time_in (codes "1900-01-01T00:00:00") ≡ Some (at 0 1 1 0 0 0) }
    ensures last { time_in (codes "2155-12-31T23:59:59") ≡ Some (at 255 12 31 23 59 59) }
    ensures leap_day { time_in (codes "2000-02-29T12:34:56") ≡ Some (at 100 2 29 12 34 56) }
{}

/// Texts that are not read: a year out of range, a missing digit, another mark, a sign, or more
/// text at the end.
pub fn other_texts_are_none()
    ensures before { time_in (codes "1899-12-31T23:59:59") ≡ None }
    ensures after { time_in (codes "2156-01-01T00:00:00") ≡ None }
    ensures no_day { time_in (codes "1900-02-29T00:00:00") ≡ None }
    ensures midnight { time_in (codes "1990-01-01T24:00:00") ≡ None }
    ensures digit { time_in (codes "1990-1-01T00:00:000") ≡ None }
    ensures mark { time_in (codes "1990-01-01 00:00:00") ≡ None }
    ensures sign { time_in (codes "1990-01-01T00:00:+1") ≡ None }
    ensures longer { time_in (codes "1990-01-01T00:00:00Z") ≡ None }
{}
