ghost use Rattle.std.specs.Prelude.{◌≡◌, ◌+◌, ℕ, ◌*◌, ◌/◌, ◌<◌, ◌≤◌, length, IfSome, IfNone};
ghost use Rattle.rbf_model.specs.Fields.{boot_field, boot_size_field};
ghost use Rattle.rbf_model.specs.Geometry.{HasHeader, sector as sector_of};
ghost use Rattle.rbf_model.specs.Space as model;
ghost use Rattle.rbf_sector.specs.Ident.{geometry_of};

use crate::image::IdentifiedImage;
use rbf_sector::{is_header, read_ident};

/// The 256 bytes of a sector.
pub fn sector(image: &[u8], n: u32) -> [u8; 256]
    requires { 256 * (n + 1) ≤ length image.now }
    ensures { result ≡ sector_of image.now n }
{
    let at = 256 * n as usize;
    let mut bytes = [0; 256];
    bytes.copy_from_slice(&image[at..at + 256]);
    bytes
}

/// The image with its identification, if its header is that of a volume that it holds.
pub fn identify(image: &[u8]) -> Option<IdentifiedImage<'_>>
    ensures none { IfNone result (¬ HasHeader image.now) }
    ensures bytes { IfSome result (λ it. it.bytes.now ≡ image.now) }
    ensures boot { IfSome result (λ it. it.ident.boot ≡ boot_field (sector_of image.now 0)) }
    ensures boot_size { IfSome result (λ it. it.ident.boot_size
        ≡ boot_size_field (sector_of image.now 0)) }
{
    if image.len() < 256 {
        return None;
    }
    let ident = read_ident(&sector(image, 0));
    if is_header(&ident) && 256 * ident.total as usize <= image.len() {
        Some(IdentifiedImage {
            bytes: image,
            ident,
        })
    } else {
        None
    }
}

/// Whether the map marks this cluster.
pub fn is_marked(image: &[u8], c: u32) -> bool
    requires { 256 + c / 8 < length image.now }
    ensures { result ≡ model.is_marked (sector_of image.now) c }
{
    image[256 + c as usize / 8] >> (7 - c % 8) & 1 == 1
}
