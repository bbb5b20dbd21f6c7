ghost use Rattle.std.specs.Prelude.{◌≡◌, ◌+◌, ◌*◌, ◌≤◌, All, OnOk, length, take};
ghost use Rattle.rbf_model.specs.Fields as model;
ghost use Rattle.rbf_model.specs.Geometry.{sector as sector_of};
ghost use Rattle.rbf_sector_rules.specs.Positions.{entry_at_position, positions_in, segment_positions};

use crate::directory::Directory;
use std::alloc::AllocError;

/// Whether the entry in a position is used.
pub fn is_used(image: &[u8], e: u32) -> bool
    requires { 32 * (e + 1) ≤ length image.now }
    ensures { result ≡ model.is_used (entry_at_position (sector_of image.now) e) }
{
    image[32 * e as usize] != 0
}

/// The 32 bytes of a position.
pub fn position_bytes(image: &[u8], e: u32) -> [u8; 32]
    requires { 32 * (e + 1) ≤ length image.now }
    ensures { result ≡ entry_at_position (sector_of image.now) e }
{
    let at = 32 * e as usize;
    let mut entry = [0; 32];
    entry.copy_from_slice(&image[at..at + 32]);
    entry
}

/// Lists the positions of a directory's entries, in order, as ranges: each has its first position
/// and its number of positions.
///
/// # Errors
///
/// Out of memory.
pub fn list_positions(dir: &Directory, ranges: &mut Vec<(u32, u32)>) -> Result<(), AllocError>
    ensures positions { OnOk result (positions_in ranges.new.items
        ≡ take dir.now.entries (segment_positions dir.now.segs)) }
    ensures some { OnOk result (All (λ run. 1 ≤ run.1) ranges.new.items) }
{
    ranges.clear();
    let mut left = dir.entries;
    for i in 0..dir.segs.runs() {
        if left == 0 {
            return Ok(());
        }
        let (lsn, sectors) = dir.segs.run(i);
        let count = left.min(8 * u32::from(sectors));
        ranges.push((8 * lsn, count))?;
        left -= count;
    }
    Ok(())
}
