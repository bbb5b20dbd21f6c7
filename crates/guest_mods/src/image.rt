ghost use Rattle.std.specs.Prelude.{◌≡◌, ◌-◌, ◌≤◌, ◌<◌, ◌∷◌, [], IfOk, length};
ghost use Rattle.os9_base.specs.declared.limits.TheConstants.{MOST_GROUP_BYTES};
ghost use Rattle.rbf_model.specs.Volume.{Vol, free_clusters};
ghost use Rattle.rbf_model.specs.Geometry.{image_geometry};
ghost use Rattle.guest_mods.specs.BootDisk as model;
ghost use Rattle.guest_mods.specs.BootDisk.{boot_volume, used_sectors, BootsFile, ident_front, file_front, root_front, root_entries};
ghost use Rattle.rbf_change.specs.Contents.{sector_count};

use crate::sectors::{SECTOR_BYTES, push_sector, push_zeros};
use os9_base::call::OutOfMemory;
use std::alloc::{AllocError, Global};
use vol_tools::push_map;

/// The number of sectors of the disk.
const SECTORS: usize = 4_096;

/// The number of sectors before the file.
const SYSTEM_SECTORS: u32 = 6;

/// The number of bytes of the allocation map.
const MAP_BYTES: u32 = 512;

/// Makes the image of a disk with one file, `OS9Boot`, from which a machine boots (OS-9 Technical
/// Reference, Random Block File Manager; Level Two manual, "Booting").
///
/// The disk has 4,096 sectors in clusters of one. The file has at most 57,344 bytes.
///
/// # Errors
///
/// Only `OutOfMemory`.
pub fn boot_image(alloc: Global, file: &[u8]) -> Result<Vec<u8>, OutOfMemory>
    requires some { 0 < length file.now }
    requires short { length file.now ≤ MOST_GROUP_BYTES }
    ensures bytes { IfOk result (λ image. image.items ≡ model.boot_image file.now) }
    ensures volume { IfOk result (λ image. Vol image.items (boot_volume file.now)) }
    ensures boots { IfOk result (λ image. BootsFile image.items file.now) }
    ensures free { IfOk result (λ image. length
        (free_clusters (image_geometry image.items) (boot_volume file.now))
        ≡ 4096 - used_sectors (length file.now)) }
{
    let mut image = used_part(alloc, file)?;
    let used = image.len();
    push_zeros(&mut image, SECTOR_BYTES * SECTORS - used)?;
    Ok(image)
}

/// The disk up to the end of the file.
fn used_part(alloc: Global, file: &[u8]) -> Result<Vec<u8>, AllocError>
    requires { length file.now ≤ MOST_GROUP_BYTES }
    ensures { IfOk result (λ part. part.items ≡ model.used_part file.now) }
{
    let size = file.len() as u16;
    let mut part = Vec::new(alloc);
    push_sector(&mut part, &ident(size))?;
    push_map(
        &mut part,
        SYSTEM_SECTORS + u32::from(sectors_for(size)),
        MAP_BYTES,
    )?;
    push_sector(&mut part, &root())?;
    push_sector(&mut part, &entries())?;
    push_sector(&mut part, &descriptor(size))?;
    part.extend_from_slice(file)?;
    Ok(part)
}

/// The number of sectors that a file of this size fills.
fn sectors_for(size: u16) -> u8
    requires { size ≤ MOST_GROUP_BYTES }
    ensures { result ≡ sector_count size }
{
    size.div_ceil(256) as u8
}

/// LSN 0 up to the bootstrap fields ("Identification Sector").
fn ident(size: u16) -> [u8; 26]
    ensures { result ≡ ident_front size }
{
    let [high, low] = size.to_be_bytes();
    [
        0x00, 0x10, 0x00, // DD.TOT: 4,096 sectors
        0x00, // DD.TKS
        0x02, 0x00, // DD.MAP: 512 bytes
        0x00, 0x01, // DD.BIT: clusters of one sector
        0x00, 0x00, 0x03, // DD.DIR: the root's descriptor
        0x00, 0x00, 0x00, 0x00, 0x00, // DD.OWN, DD.ATT, DD.DSK
        0x00, 0x00, 0x00, 0x00, 0x00, // DD.FMT, DD.SPT, DD.RES
        0x00, 0x00, 0x06, // DD.BT: the first sector of the bootstrap file
        high, low, // DD.BSZ: its size
    ]
}

/// The root's descriptor up to its only segment ("File Descriptors").
fn root() -> [u8; 21]
    ensures { result ≡ root_front }
{
    [
        0xbf, // FD.ATT: a directory that all may read, write and execute
        0x00, 0x00, // FD.OWN
        0x00, 0x00, 0x00, 0x00, 0x00, // FD.DAT
        0x01, // FD.LNK
        0x00, 0x00, 0x00, 0x60, // FD.SIZ: three entries
        0x00, 0x00, 0x00, // FD.CREAT
        0x00, 0x00, 0x04, 0x00, 0x01, // FD.SEG: sector 4
    ]
}

/// The root's entries ("Directories").
fn entries() -> [u8; 96]
    ensures { result ≡ root_entries }
{
    [
        0x2e, 0xae, 0x00, 0x00, 0x00, 0x00, 0x00, 0x00, // `..`
        0x00, 0x00, 0x00, 0x00, 0x00, 0x00, 0x00, 0x00, //
        0x00, 0x00, 0x00, 0x00, 0x00, 0x00, 0x00, 0x00, //
        0x00, 0x00, 0x00, 0x00, 0x00, 0x00, 0x00, 0x03, // descriptor 3
        0xae, 0x00, 0x00, 0x00, 0x00, 0x00, 0x00, 0x00, // `.`
        0x00, 0x00, 0x00, 0x00, 0x00, 0x00, 0x00, 0x00, //
        0x00, 0x00, 0x00, 0x00, 0x00, 0x00, 0x00, 0x00, //
        0x00, 0x00, 0x00, 0x00, 0x00, 0x00, 0x00, 0x03, // descriptor 3
        b'O', b'S', b'9', b'B', b'o', b'o', 0xf4, 0x00, // `OS9Boot`
        0x00, 0x00, 0x00, 0x00, 0x00, 0x00, 0x00, 0x00, //
        0x00, 0x00, 0x00, 0x00, 0x00, 0x00, 0x00, 0x00, //
        0x00, 0x00, 0x00, 0x00, 0x00, 0x00, 0x00, 0x05, // descriptor 5
    ]
}

/// The file's descriptor up to its only segment ("File Descriptors").
fn descriptor(size: u16) -> [u8; 21]
    requires { size ≤ MOST_GROUP_BYTES }
    ensures { result ≡ file_front size }
{
    let [high, low] = size.to_be_bytes();
    let count = sectors_for(size);
    [
        0x03, // FD.ATT: a file that its owner may read and write
        0x00, 0x00, // FD.OWN
        0x00, 0x00, 0x00, 0x00, 0x00, // FD.DAT
        0x01, // FD.LNK
        0x00, 0x00, high, low, // FD.SIZ
        0x00, 0x00, 0x00, // FD.CREAT
        0x00, 0x00, 0x06, 0x00, count, // FD.SEG: from sector 6 on
    ]
}
