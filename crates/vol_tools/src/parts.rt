//! The sectors of a blank disk.

ghost use Rattle.std.specs.Prelude.{◌≡◌, ◌<◌, ◌≤◌, ◌*◌, ◌∷◌, [], ◌++◌, IfOk, length, replicate, ◌+◌, ℕ, slice_index};
ghost use Rattle.rbf_model.specs.Fields.{attributes_field, owner_field, modified_field, links_field, size_field, created_field, segments_field};
ghost use Rattle.rbf_change.specs.Calls.{minute_of, day_of};
ghost use Rattle.rbf_change.specs.Contents.{extended};
ghost use Rattle.rbf_change.specs.Names.{new_listing};
ghost use Rattle.vol_tools.specs.Blank.{blank_ident, blank_sizes, blank_root as blank_root_model, map_bytes_for as map_bytes_for_model};
ghost use Rattle.vol_tools.specs.Image.{IsDiskSize, marks_map, marks_byte as marks_byte_model, used_clusters as used_clusters_model};

use os9_base::registers::TimePacket;
use rbf_sector::{Fd, write_fd};
use rbf_segs::Segs;
use std::alloc::AllocError;

/// The bytes whose first bits are set: none of them, one, and so on up to all eight.
const FIRST_BITS: [u8; 9] = [0x00, 0x80, 0xc0, 0xe0, 0xf0, 0xf8, 0xfc, 0xfe, 0xff];

/// The number of bytes that hold a bit for each cluster.
pub fn map_bytes_for(sectors: u32, cluster: u16) -> u16
    requires { IsDiskSize sectors cluster }
    ensures { result ≡ map_bytes_for_model sectors cluster }
{
    let k = u32::from(cluster);
    (((sectors + (k - 1)) / k + 7) / 8) as u16
}

/// The sector of the root's descriptor.
pub fn blank_root(sectors: u32, cluster: u16) -> u32
    requires { IsDiskSize sectors cluster }
    ensures { result ≡ blank_root_model sectors cluster }
{
    1 + (u32::from(map_bytes_for(sectors, cluster)) + 255) / 256
}

/// The number of clusters in use.
pub fn used_clusters(sectors: u32, cluster: u16) -> u32
    requires { IsDiskSize sectors cluster }
    ensures { result ≡ used_clusters_model sectors cluster }
{
    let k = u32::from(cluster);
    (blank_root(sectors, cluster) + 2 + (k - 1)) / k
}

/// The number of bytes of LSN 0 after its date.
const IDENT_REST: usize = 225;

/// Appends LSN 0 to the image ("Identification Sector").
pub fn push_ident(
    image: &mut Vec<u8>,
    sectors: u32,
    cluster: u16,
    now: &TimePacket,
) -> Result<(), AllocError>
    requires { IsDiskSize sectors cluster }
    ensures { IfOk result (λ _. image.new.items
        ≡ image.old.items ++ blank_ident sectors cluster now.now) }
{
    image.extend_from_slice(&sizes(sectors, cluster))?;
    image.extend_from_slice(&[0; 12])?;
    image.extend_from_slice(&[now.year, now.month, now.day, now.hour, now.minute])?;
    image.extend_from_slice(&[0; IDENT_REST])?;
    Ok(())
}

/// The first 14 bytes of LSN 0: the sizes, the root's sector, the owner and the attributes.
fn sizes(sectors: u32, cluster: u16) -> [u8; 14]
    requires { IsDiskSize sectors cluster }
    ensures { result ≡ blank_sizes sectors cluster }
{
    let map_bytes = map_bytes_for(sectors, cluster);
    let root = blank_root(sectors, cluster);
    [
        (sectors / 65536) as u8,
        (sectors / 256 % 256) as u8,
        (sectors % 256) as u8,
        0,
        (map_bytes / 256) as u8,
        (map_bytes % 256) as u8,
        (cluster / 256) as u8,
        (cluster % 256) as u8,
        (root / 65536) as u8,
        (root / 256 % 256) as u8,
        (root % 256) as u8,
        0,
        0,
        0xff,
    ]
}

/// The root's descriptor ("File Descriptors").
pub fn root_descriptor(root: u32, now: &TimePacket) -> [u8; 256]
    requires { root < 16777214 }
    ensures whole { length result ≡ 256 }
    ensures attributes { attributes_field result ≡ 191 }
    ensures owner { owner_field result ≡ 0 }
    ensures modified { modified_field result ≡ minute_of now.now }
    ensures links { links_field result ≡ 1 }
    ensures size { size_field result ≡ 64 }
    ensures created { created_field result ≡ day_of now.now }
    ensures segments { segments_field result ≡ (root + 1, 1) ∷ [] }
    ensures rest { (i : ℕ) → 21 ≤ i → slice_index result i ≡ 0 }
{
    let mut segs = Segs::empty();
    segs.add_run(root + 1, 1).unwrap();
    let mut b = [0; 256];
    let file = Fd {
        attr: 0xbf,
        owner: 0,
        modified: [now.year, now.month, now.day, now.hour, now.minute],
        links: 1,
        size: 64,
        created: [now.year, now.month, now.day],
        segs,
    };
    write_fd(&file, &mut b);
    b
}

/// The root's entries: `..` and `.` ("Directories").
pub fn root_entries(root: u32) -> [u8; 256]
    requires { root < 16777216 }
    ensures { result ≡ extended (new_listing root root) 256 }
{
    let [_, n2, n1, n0] = root.to_be_bytes();
    let mut b = [0; 256];
    b[..2].copy_from_slice(b".\xae");
    b[29..32].copy_from_slice(&[n2, n1, n0]);
    b[32..33].copy_from_slice(b"\xae");
    b[61..64].copy_from_slice(&[n2, n1, n0]);
    b
}

/// Appends an allocation map of `bytes` bytes to the image (OS-9 Technical Reference, Random Block
/// File Manager, "Disk Allocation Map"): its first `marked` clusters are in use.
///
/// # Errors
///
/// `AllocError` if out of memory.
pub fn push_map(image: &mut Vec<u8>, marked: u32, bytes: u32) -> Result<(), AllocError>
    requires few { bytes ≤ 65536 }
    ensures { IfOk result (λ _. image.new.items ≡ image.old.items ++ marks_map marked bytes) }
{
    for i in 0..bytes {
        image.push(marks_byte(marked, i))?;
    }
    Ok(())
}

/// A byte of such a map.
fn marks_byte(marked: u32, i: u32) -> u8
    requires { i < 65536 }
    ensures { result ≡ marks_byte_model marked i }
{
    FIRST_BITS[marked.saturating_sub(8 * i).min(8) as usize]
}
