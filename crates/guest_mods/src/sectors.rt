ghost use Rattle.std.specs.Prelude.{◌≡◌, ◌≤◌, ◌++◌, IfOk, length, replicate};
ghost use Rattle.guest_mods.specs.BootDisk.{sector_with};

use std::alloc::AllocError;

/// The number of bytes of a sector (OS-9 Technical Reference, Random Block File Manager).
pub const SECTOR_BYTES: usize = 256;

/// Appends to the image a sector that begins with these bytes.
pub fn push_sector(image: &mut Vec<u8>, front: &[u8]) -> Result<(), AllocError>
    requires { length front.now ≤ 256 }
    ensures { IfOk result (λ _. image.new.items ≡ image.old.items ++ sector_with front.now) }
{
    image.extend_from_slice(front)?;
    push_zeros(image, SECTOR_BYTES - front.len())
}

/// Appends `count` zeros to the image.
pub fn push_zeros(image: &mut Vec<u8>, count: usize) -> Result<(), AllocError>
    ensures { IfOk result (λ _. image.new.items ≡ image.old.items ++ replicate count 0) }
{
    for _i in 0..count {
        image.push(0)?;
    }
    Ok(())
}
