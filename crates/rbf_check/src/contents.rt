ghost use Rattle.std.specs.Prelude.{◌≡◌, ◌+◌, ◌*◌, ◌≤◌, All, IfOk, length, take};
ghost use Rattle.rbf_model.specs.Geometry.{sector as sector_of};
ghost use Rattle.rbf_model.specs.File.{segment_bytes};

use crate::tree::FileBytes;
use rbf_segs::Segs;
use std::alloc::{AllocError, Global};

/// The first bytes of the sectors of a segment list, up to the size.
pub fn read_contents(
    alloc: Global,
    image: &[u8],
    segs: &Segs,
    size: u32,
) -> Result<FileBytes, AllocError>
    requires { All (λ segment. 256 * (segment.0 + segment.1) ≤ length image.now) segs.now }
    ensures { IfOk result
        (λ bytes. bytes ≡ take size (segment_bytes (sector_of image.now) segs.now)) }
{
    let size = size as usize;
    let mut bytes = Vec::with_capacity(alloc, size)?;
    for i in 0..segs.runs() {
        let (first, count) = segs.run(i);
        let at = 256 * first as usize;
        let part = (size - bytes.len()).min(256 * usize::from(count));
        bytes.extend_from_slice(&image[at..at + part])?;
    }
    Ok(FileBytes::of(bytes))
}
