ghost use Rattle.std.specs.Prelude.{◌≡◌, ℕ, ◌+◌, ◌*◌, ◌<◌, ◌≤◌, false, IfOk, length};
ghost use Rattle.rbf_model.specs.Decides.{Decides};
ghost use Rattle.rbf_model.specs.Fields as model;
ghost use Rattle.rbf_model.specs.Geometry.{sector as sector_of};
ghost use Rattle.rbf_sector.specs.Ident.{geometry_of};
ghost use Rattle.rbf_sector_rules.specs.Positions.{entry_at_position};
ghost use Rattle.rbf_sector_rules.specs.Files.{IsFileOn, AreFiles};
ghost use Rattle.rbf_sector_rules.specs.Reading.{disk_on, IsDirectory, listed};
ghost use Rattle.rbf_sector_rules.specs.Rules.{BreaksNumbersAt, HasBadNumber, IsBadPosition};
ghost use Rattle.rbf_sector_rules.specs.Least.{IsLeastBreach, IsLeast};
ghost use Rattle.rbf_sector_rules.specs.Nexts.{AreNexts};

use crate::nexts::next_in_range;
use crate::{
    Directory, FoundFile, IdentifiedImage, directory_of, is_used, least_of, lie_within,
    list_positions, position_bytes,
};
use rbf_sector::read_entry;
use std::alloc::{AllocError, Global};

// Whether the position has a used entry that does not name a descriptor of the volume.
fn is_bad_position(image: &IdentifiedImage<'_>, e: u32) -> bool
    requires { e < 8 * image.now.ident.total }
    ensures { Decides result (IsBadPosition (disk_on image.now) e) }
{
    if !is_used(image.bytes, e) {
        return false;
    }
    let entry = read_entry(&position_bytes(image.bytes, e));
    entry.lsn == 0 || entry.lsn >= image.ident.total
}

// Whether a position of the sector has a used entry. Few sectors of most images have one.
fn has_used(image: &[u8], n: u32) -> bool
    requires fits { 8 * n + 8 < 4294967296 }
    requires within { 256 * (n + 1) ≤ length image.now }
    ensures { result ≡ false → (i : ℕ) → i < 8
        → model.is_used (entry_at_position (sector_of image.now) (8 * n + i)) ≡ false }
{
    for i in 0..8 {
        if is_used(image, 8 * n + i) {
            return true;
        }
    }
    false
}

// Whether a position of the sector is such a position.
fn has_bad_position(image: &IdentifiedImage<'_>, n: u32) -> bool
    requires { n < image.now.ident.total }
    ensures { result ≡ false → (i : ℕ) → i < 8
        → ¬ IsBadPosition (disk_on image.now) (8 * n + i) }
{
    if !has_used(image.bytes, n) {
        return false;
    }
    for i in 0..8 {
        if is_bad_position(image, 8 * n + i) {
            return true;
        }
    }
    false
}

// The place behind the last sector with such a position, or 0 if there is none.
fn end_of_bad(image: &IdentifiedImage<'_>) -> u32
    ensures within { result ≤ 8 * image.now.ident.total }
    ensures none { (e : ℕ) → result ≤ e → e < 8 * image.now.ident.total
        → ¬ IsBadPosition (disk_on image.now) e }
{
    for n in (0..image.ident.total).rev() {
        if has_bad_position(image, n) {
            return 8 * n + 8;
        }
    }
    0
}

// For each position the first such position from it on, or the number of positions. Most images
// have none.
fn list_next_bad(alloc: Global, image: &IdentifiedImage<'_>) -> Result<Vec<u32>, AllocError>
    ensures { IfOk result
        (λ nexts. AreNexts (IsBadPosition (disk_on image.now))
        (8 * image.now.ident.total) nexts.items) }
{
    let positions = 8 * image.ident.total;
    let mut nexts = vec![in alloc; positions; positions as usize]?;
    let mut next = positions;
    for e in (0..end_of_bad(image)).rev() {
        if is_bad_position(image, e) {
            next = e;
        }
        nexts[e as usize] = next;
    }
    Ok(nexts)
}

// Whether a used entry of a directory does not name a descriptor of the volume.
fn has_bad_number(
    image: &IdentifiedImage<'_>,
    nexts: &[u32],
    dir: &Directory,
    ranges: &mut Vec<(u32, u32)>,
) -> Result<bool, AllocError>
    requires directory { IsDirectory image.now dir.now }
    requires nexts { AreNexts (IsBadPosition (disk_on image.now))
        (8 * image.now.ident.total) nexts.now }
    ensures { IfOk result
        (λ bad. Decides bad
        (HasBadNumber (geometry_of image.now.ident) (listed image.now dir.now.number))) }
{
    list_positions(dir, ranges)?;
    for &(first, count) in ranges.iter() {
        if let Some(_) = next_in_range(nexts, first, count) {
            return Ok(true);
        }
    }
    Ok(false)
}

// The descriptor, if it breaks rule 1.
fn badly_numbered(
    image: &IdentifiedImage<'_>,
    nexts: &[u32],
    file: &FoundFile,
    ranges: &mut Vec<(u32, u32)>,
) -> Result<Option<u32>, AllocError>
    requires nexts { AreNexts (IsBadPosition (disk_on image.now))
        (8 * image.now.ident.total) nexts.now }
    requires file { IsFileOn image.now file.now }
    ensures { IfOk result (IsLeast (BreaksNumbersAt (disk_on image.now) file.now.number)) }
{
    if !lie_within(&file.fd.segs, &image.ident) {
        return Ok(Some(file.number));
    }
    let dir = directory_of(image, file);
    let bad = has_bad_number(image, nexts, &dir, ranges)?;
    if bad {
        return Ok(Some(file.number));
    }
    Ok(None)
}

/// The least descriptor that breaks rule 1: a segment of it is not within the volume, or a used
/// entry of it does not name a descriptor of the volume. None if the rule is kept.
///
/// # Errors
///
/// Out of memory.
pub fn least_bad_number(
    alloc: Global,
    image: &IdentifiedImage<'_>,
    files: &[FoundFile],
) -> Result<Option<u32>, AllocError>
    requires { AreFiles image.now files.now }
    ensures { IfOk result (IsLeastBreach (disk_on image.now) 1) }
{
    let nexts = list_next_bad(alloc, image)?;
    let mut ranges = Vec::new(alloc);
    let mut least = None;
    for file in files {
        let one = badly_numbered(image, &nexts, file, &mut ranges)?;
        least = least_of(least, one);
    }
    Ok(least)
}
