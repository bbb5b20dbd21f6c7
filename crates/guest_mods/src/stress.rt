ghost use Rattle.std.specs.Prelude.{◌≡◌, ◌-◌, IfOk, length};
ghost use Rattle.rbf_model.specs.Geometry.{image_geometry};
ghost use Rattle.rbf_model.specs.Volume.{Vol, free_clusters};
ghost use Rattle.guest_mods.specs.BootDisk.{boot_image as boot_image_model, boot_volume, used_sectors, BootsFile};
ghost use Rattle.guest_mods.specs.Stress.{IsLoad, stress_file as stress_file_model};
ghost use Rattle.guest_mods.specs.Accepted.{IsBootableFile};

use crate::boot_image;
use crate::load::Load;
use crate::programs::{sysgo, worker};
use os9_base::call::OutOfMemory;
use std::alloc::Global;

/// Makes the image that the command `stress` boots (this project's own): a disk with the boot file
/// `OS9Boot`, which holds the programs `SysGo` and `Worker` of a load.
///
/// # Errors
///
/// `OutOfMemory` alone.
pub fn stress_image(alloc: Global, load: &Load) -> Result<Vec<u8>, OutOfMemory>
    requires { IsLoad load.now }
    ensures bytes { IfOk result
        (λ image. image.items ≡ boot_image_model (stress_file_model load.now)) }
    ensures volume { IfOk result (λ image. Vol image.items
        (boot_volume (stress_file_model load.now))) }
    ensures boots { IfOk result (λ image. BootsFile image.items (stress_file_model load.now)) }
    ensures free { IfOk result (λ image. length (free_clusters (image_geometry image.items)
        (boot_volume (stress_file_model load.now)))
        ≡ 4096 - used_sectors (length (stress_file_model load.now))) }
    // The machine of the command has 64 blocks.
    ensures accepted { IsBootableFile (stress_file_model load.now) 64 }
{
    let file = stress_file(alloc, load)?;
    boot_image(alloc, &file)
}

// The boot file of a load.
fn stress_file(alloc: Global, load: &Load) -> Result<Vec<u8>, OutOfMemory>
    requires { IsLoad load.now }
    ensures { IfOk result (λ file. file.items ≡ stress_file_model load.now) }
{
    let mut file = sysgo(alloc, load.workers)?;
    let worker = worker(alloc, load)?;
    file.extend_from_slice(&worker)?;
    Ok(file)
}
