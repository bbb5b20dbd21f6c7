ghost use Rattle.std.specs.Prelude.{◌≤◌, length, MatchOption};
ghost use Rattle.rbf_model.specs.Fields.{segments_field};
ghost use Rattle.rbf_model.specs.Segments.{sectors_of};
ghost use Rattle.rbf_sector.specs.Run.{IsRunAt};

use crate::parts::{u16_at, u24_at};
use rbf_segs::MAX_SEGMENTS;

/// Sectors of a file that follow one another on the disk: `count` of them, from `lsn` on.
#[derive(Clone, Copy, Debug, PartialEq, Eq)]
pub struct Run {
    pub lsn: u32,
    pub count: u32,
}

/// The sectors from this place of a file on, counted from 0, to the end of the segment that has it
/// (OS-9 Technical Reference, Random Block File Manager, FD.SEG). None if the segment list of the
/// descriptor has no such place.
pub fn run_at(b: &[u8; 256], place: u32) -> Option<Run>
    ensures { MatchOption result (length (sectors_of (segments_field b.now)) ≤ place)
        (IsRunAt (segments_field b.now) place) }
{
    let mut left = place;
    for i in 0..MAX_SEGMENTS {
        let at = 16 + 5 * i;
        let count = u32::from(u16_at(b, at + 3));
        if count == 0 {
            return None;
        }
        if left < count {
            return Some(Run {
                lsn: u24_at(b, at) + left,
                count: count - left,
            });
        }
        left -= count;
    }
    None
}
