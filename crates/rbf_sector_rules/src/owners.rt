ghost use Rattle.std.specs.Prelude.{◌≡◌, ℕ, ◌+◌, ◌<◌, ◌++◌, All, OnOk, IfOk, Some, None, length, slice_index_or};
ghost use Rattle.rbf_model.specs.Segments.{sectors_of};
ghost use Rattle.rbf_segs.specs.Segments.{IsSegment};
ghost use Rattle.rbf_sector_rules.specs.Files.{IsFileOn};
ghost use Rattle.rbf_sector_rules.specs.Reading.{disk_on};
ghost use Rattle.rbf_sector_rules.specs.Used.{used_by};

use crate::{FoundFile, IdentifiedImage};
use rbf_sector::system_sectors;
use rbf_segs::Segs;
use std::alloc::AllocError;

// Adds the segments of a segment list.
fn push_segments(segments: &mut Vec<(u32, u16)>, segs: &Segs) -> Result<(), AllocError>
    ensures list { OnOk result (segments.new.items ≡ segments.old.items ++ segs.now) }
    ensures each { OnOk result (All IsSegment segs.now) }
{
    for i in 0..segs.runs() {
        segments.push(segs.run(i))?;
    }
    Ok(())
}

/// Lists the segments of sectors of an owner, each with its first sector and its number of sectors:
/// for the root's file the identification sector and the map, then the descriptor, then the
/// segments.
///
/// # Errors
///
/// Out of memory.
pub fn list_segments(
    image: &IdentifiedImage<'_>,
    file: &FoundFile,
    segments: &mut Vec<(u32, u16)>,
) -> Result<(), AllocError>
    requires { IsFileOn image.now file.now }
    ensures sectors { OnOk result (sectors_of segments.new.items
        ≡ used_by (disk_on image.now) file.now.number) }
    ensures segments { OnOk result (All IsSegment segments.new.items) }
{
    segments.clear();
    if file.number == image.ident.root {
        segments.push((0, system_sectors(&image.ident)))?;
    }
    segments.push((file.number, 1))?;
    push_segments(segments, &file.fd.segs)?;
    Ok(())
}
