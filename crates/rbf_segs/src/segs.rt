ghost use Rattle.std.specs.Prelude.{◌≡◌, ◌+◌, ◌-◌, ◌*◌, ◌^◌, ◌<◌, ◌≤◌, ◌↔◌, [], ◌∷◌, ◌++◌, length, take, OnOk, OnErr, IsErr, slice_get};
ghost use Rattle.rbf_model.specs.Segments.{segment_sectors, sectors_of, appended_segments, shortened_segments};
ghost use Rattle.rbf_segs.specs.Segments.{IsSegment, IsSegments};

use crate::segment_list::{last_sector, lengthened, sector_at, shorten, total};
use std::marker::Model;
use thiserror::Error;

/// The greatest number of segments in a file descriptor (OS-9 Technical Reference, Random Block
/// File Manager, FD.SEG).
pub const MAX_SEGMENTS: usize = 48;

/// No segment can be added: the list already has [`MAX_SEGMENTS`].
#[derive(Clone, Copy, Debug, PartialEq, Eq, Error)]
#[error("segment list full")]
pub struct SegsFull;

/// The sectors of a file in order, as at most [`MAX_SEGMENTS`] segments: pairs of a first sector,
/// below 16,777,216, and a count of sectors, at least 1.
///
/// Clauses see the list of the pairs.
#[derive(Clone, Copy, Debug, PartialEq, Eq)]
pub struct Segs {
    places: [(u32, u16); 48],
    len: u8,
}

impl Model for Segs {
    ghost use Rattle.std.specs.Prelude.{ℕ, List, take, length};

    ghost Value = { List (ℕ × ℕ) };

    ghost use Rattle.rbf_segs.specs.Places.{HoldsSegments, in_places, inside_again};

    ghost view = { λ s. take s.len s.places };

    ghost invariant = { HoldsSegments };

    ghost inverse = { λ v. record { places = in_places v; len = length v } };

    ghost inverse_ok = { inside_again };
}

impl Segs {
    /// The list without segments.
    pub fn empty() -> Segs
        ensures { result ≡ [] }
    {
        Segs {
            places: [(0, 0); 48],
            len: 0,
        }
    }

    /// The total number of sectors in the segments.
    pub fn sectors(&self) -> u32
        ensures count { result ≡ length (sectors_of self.now) }
        ensures few { result ≤ 48 * 65535 }
    {
        total(&self.places[..usize::from(self.len)])
    }

    /// The number of segments.
    pub fn runs(&self) -> u8
        ensures count { result ≡ length self.now }
        ensures segments { IsSegments self.now }
    {
        self.len
    }

    /// The segment at a place: its first sector and its count of sectors.
    pub fn run(&self, i: u8) -> (u32, u16)
        requires { i < length self.now }
        ensures pair { slice_get self.now i ≡ Some result }
        ensures segment { IsSegment result }
    {
        self.places[usize::from(i)]
    }

    /// Adds a separate segment, not joined with another; refused if and only if there are already
    /// [`MAX_SEGMENTS`].
    pub fn add_run(&mut self, lsn: u32, count: u16) -> Result<(), SegsFull>
        requires lsn_fits { lsn < 16777216 }
        requires some { 1 ≤ count }
        ensures ok { OnOk result (self.new ≡ self.old ++ (lsn, count) ∷ []) }
        ensures full { IsErr result ↔ (length self.old ≡ 48) }
        ensures err { OnErr result (self.new ≡ self.old) }
    {
        if usize::from(self.len) == MAX_SEGMENTS {
            return Err(SegsFull);
        }
        self.places[usize::from(self.len)] = (lsn, count);
        self.len += 1;
        Ok(())
    }

    /// The sector at this place among all sectors of the list, counted from 0. None if the list has
    /// no such place.
    pub fn lsn_of(&self, sector: u32) -> Option<u32>
        ensures { result ≡ slice_get (sectors_of self.now) sector }
    {
        sector_at(&self.places[..usize::from(self.len)], sector)
    }

    /// The last of all sectors. None if there is no sector.
    pub fn last(&self) -> Option<u32>
        ensures { result ≡ slice_get (sectors_of self.now) (length (sectors_of self.now) - 1) }
    {
        last_sector(&self.places[..usize::from(self.len)])
    }

    /// Adds `n` sectors from `lsn` on: they lengthen the last segment if they follow it and its
    /// count stays below 65,536, and otherwise become a separate segment. Refused if and only if
    /// they would be one segment too many.
    pub fn append(&mut self, lsn: u32, n: u16) -> Result<(), SegsFull>
        requires lsn_fits { lsn < 16777216 }
        requires some { 1 ≤ n }
        ensures sectors { OnOk result (sectors_of self.new
            ≡ sectors_of self.old ++ segment_sectors (lsn, n)) }
        ensures segments { OnOk result (self.new ≡ appended_segments self.old lsn n) }
        ensures full { IsErr result ↔ (48 < length (appended_segments self.old lsn n)) }
        ensures err { OnErr result (self.new ≡ self.old) }
    {
        let runs = usize::from(self.len);
        match lengthened(&self.places[..runs], lsn, n) {
            None => self.add_run(lsn, n),
            Some(run) => {
                self.places[runs - 1] = run;
                Ok(())
            }
        }
    }

    /// Keeps the first `sectors` sectors, and only the segments that still have a sector.
    pub fn cut(&mut self, sectors: u32)
        requires { sectors ≤ length (sectors_of self.old) }
        ensures sectors { sectors_of self.new ≡ take sectors (sectors_of self.old) }
        ensures segments { self.new ≡ shortened_segments sectors self.old }
    {
        self.len = shorten(&mut self.places, sectors) as u8;
    }
}
