//! The complete image.

ghost use Rattle.std.specs.Prelude.{◌≡◌, ◌*◌, IfOk, length};
ghost use Rattle.rbf_model.specs.Volume.{Vol};
ghost use Rattle.vol_tools.specs.Blank.{blank_volume};
ghost use Rattle.vol_tools.specs.Image.{IsClean, IsDiskSize};

use crate::parts::{
    blank_root, push_ident, push_map, root_descriptor, root_entries, used_clusters,
};
use os9_base::call::OutOfMemory;
use os9_base::registers::TimePacket;
use std::alloc::Global;

/// Makes the image of a disk with a root without files (this project's own), of `sectors` sectors
/// in clusters of `cluster`. It has LSN 0, the map, the root's descriptor and its one sector, and
/// zeros after them.
///
/// # Errors
///
/// Only `OutOfMemory`.
pub fn format(
    alloc: Global,
    sectors: u32,
    cluster: u16,
    now: TimePacket,
) -> Result<Vec<u8>, OutOfMemory>
    requires { IsDiskSize sectors cluster }
    ensures volume { IfOk result (λ image. Vol image.items (blank_volume sectors cluster now)) }
    ensures clean { IfOk result (λ image. IsClean image.items sectors cluster) }
    ensures long { IfOk result (λ image. length image.items ≡ 256 * sectors) }
{
    let root = blank_root(sectors, cluster);
    let mut image = Vec::new(alloc);
    push_ident(&mut image, sectors, cluster, &now)?;
    push_map(
        &mut image,
        used_clusters(sectors, cluster),
        256 * (root - 1),
    )?;
    image.extend_from_slice(&root_descriptor(root, &now))?;
    image.extend_from_slice(&root_entries(root))?;
    image.resize(256 * sectors as usize, 0)?;
    Ok(image)
}
