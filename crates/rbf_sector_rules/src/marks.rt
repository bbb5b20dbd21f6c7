ghost use Rattle.std.specs.Prelude.{◌≡◌, ℕ, ◌+◌, ◌/◌, ◌<◌, ◌≤◌, IfOk, MatchOption, length, slice_index};
ghost use Rattle.rbf_model.specs.Geometry.{HasMap, sector as sector_of};
ghost use Rattle.rbf_model.specs.Space as model;
ghost use Rattle.rbf_model.specs.Faults.{Breaks};
ghost use Rattle.rbf_model.specs.Search.{IsReachedOn};
ghost use Rattle.rbf_sector.specs.Ident.{geometry_of};
ghost use Rattle.rbf_sector_rules.specs.Files.{IsFileOn, AreFiles};
ghost use Rattle.rbf_sector_rules.specs.Reading.{disk_on};
ghost use Rattle.rbf_sector_rules.specs.Least.{IsLeastBreach, IsLeast};
ghost use Rattle.rbf_sector_rules.specs.Nexts.{AreNexts};
ghost use Rattle.rbf_sector_rules.specs.Used.{used_by, IsUnmarked, IsUnmarkedIn};

use crate::nexts::next_in_range;
use crate::owners::list_segments;
use crate::{FoundFile, IdentifiedImage, is_marked, least_of};
use std::alloc::{AllocError, Global};

// Whether the map marks the cluster of this sector.
fn is_sector_marked(image: &IdentifiedImage<'_>, s: u32) -> bool
    requires map { HasMap (geometry_of image.now.ident) }
    requires number { s < image.now.ident.total }
    ensures { result ≡ model.is_marked (sector_of image.now.bytes.now)
        (s / image.now.ident.cluster) }
{
    is_marked(image.bytes, s / u32::from(image.ident.cluster))
}

// For each sector the least one from it on whose cluster is not marked, or the total.
fn list_next_unmarked(alloc: Global, image: &IdentifiedImage<'_>) -> Result<Vec<u32>, AllocError>
    requires { HasMap (geometry_of image.now.ident) }
    ensures { IfOk result
        (λ nexts. AreNexts (IsUnmarked (disk_on image.now)) image.now.ident.total nexts.items) }
{
    let mut nexts = vec![in alloc; image.ident.total; image.ident.total as usize]?;
    let mut next = image.ident.total;
    for s in (0..image.ident.total).rev() {
        if !is_sector_marked(image, s) {
            next = s;
        }
        nexts[s as usize] = next;
    }
    Ok(nexts)
}

// The least sector of an owner whose cluster is not marked.
fn least_unmarked_of(
    image: &IdentifiedImage<'_>,
    nexts: &[u32],
    file: &FoundFile,
    segments: &mut Vec<(u32, u16)>,
) -> Result<Option<u32>, AllocError>
    requires segments { (lsn : ℕ) → ¬ Breaks (disk_on image.now) 1 lsn }
    requires map { HasMap (geometry_of image.now.ident) }
    requires nexts { AreNexts (IsUnmarked (disk_on image.now)) image.now.ident.total nexts.now }
    requires file { IsFileOn image.now file.now }
    requires reached { IsReachedOn (disk_on image.now) file.now.number }
    ensures { IfOk result
        (IsLeast (IsUnmarkedIn (disk_on image.now)
        (used_by (disk_on image.now) file.now.number))) }
{
    list_segments(image, file, segments)?;
    let mut least = None;
    for &(first, count) in segments.iter() {
        least = least_of(least, next_in_range(nexts, first, u32::from(count)));
    }
    Ok(least)
}

/// The least sector that breaks rule 3: it is in use, and the map does not mark its cluster. None
/// if the rule is kept. The image must keep rules 1 and 2.
///
/// # Errors
///
/// Out of memory.
pub fn least_unmarked(
    alloc: Global,
    image: &IdentifiedImage<'_>,
    files: &[FoundFile],
) -> Result<Option<u32>, AllocError>
    requires files { AreFiles image.now files.now }
    requires segments { (lsn : ℕ) → ¬ Breaks (disk_on image.now) 1 lsn }
    requires map { HasMap (geometry_of image.now.ident) }
    ensures { IfOk result (IsLeastBreach (disk_on image.now) 3) }
{
    let nexts = list_next_unmarked(alloc, image)?;
    let mut segments = Vec::new(alloc);
    let mut least = None;
    for file in files {
        let one = least_unmarked_of(image, &nexts, file, &mut segments)?;
        least = least_of(least, one);
    }
    Ok(least)
}
