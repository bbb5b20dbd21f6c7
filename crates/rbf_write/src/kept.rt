ghost use Rattle.std.specs.Prelude.{◌≡◌, ◌∷◌, ◌+◌, ◌≤◌, length, get_or};
ghost use Rattle.rbf_model.specs.Segments.{sectors_of, shortened_segments};
ghost use Rattle.rbf_change.specs.Contents.{sector_count};
ghost use Rattle.rbf_write.specs.Kept.{kept_sectors, sectors_beside};

use crate::Loaded;
use rbf_segs::Segs;

// The segments of a file after a cut to a size: those of the sectors that the size needs, and of
// the next ones in the cluster of the sector before them.
pub fn kept_segments(k: u16, loaded: &Loaded, size: u32) -> Segs
    requires some { 1 ≤ k }
    requires room { sector_count size ≤ length (sectors_of loaded.now.file.segs) }
    ensures { result ≡ shortened_segments
        (kept_sectors k loaded.now.number loaded.now.file.segs size) loaded.now.file.segs }
{
    let mut segs = loaded.file.segs;
    segs.cut(end_beside(k, loaded, size.div_ceil(256)));
    segs
}

// The end of the sectors from a place on that are in the cluster of the sector before that place.
fn end_beside(k: u16, loaded: &Loaded, place: u32) -> u32
    requires some { 1 ≤ k }
    requires within { place ≤ length (sectors_of loaded.now.file.segs) }
    ensures end { result
        ≡ place + sectors_beside k loaded.now.number (sectors_of loaded.now.file.segs) place }
    ensures within { result ≤ length (sectors_of loaded.now.file.segs) }
{
    let cluster = sector_before(loaded, place) / u32::from(k);
    let end = loaded.file.segs.sectors();
    for next in place..end {
        let lsn = loaded.file.segs.lsn_of(next).unwrap();
        if lsn / u32::from(k) != cluster {
            return next;
        }
    }
    end
}

// The sector before the one in a place; before the first is the descriptor.
fn sector_before(loaded: &Loaded, place: u32) -> u32
    requires { place ≤ length (sectors_of loaded.now.file.segs) }
    ensures { result ≡ get_or (loaded.now.number ∷ sectors_of loaded.now.file.segs) place 0 }
{
    if place == 0 {
        return loaded.number;
    }
    loaded.file.segs.lsn_of(place - 1).unwrap()
}
