ghost use Rattle.std.specs.Prelude.{◌≡◌, ◌<◌};
ghost use Rattle.rbf_sector_rules.specs.Files.{IsFileOn};

use crate::header::sector;
use crate::image::IdentifiedImage;
use rbf_sector::{Fd, read_fd};

/// A file of an image: the number of its descriptor, and the descriptor.
#[derive(Clone, Copy, Debug)]
pub struct FoundFile {
    pub number: u32,
    pub fd: Fd,
}

/// Reads the file of a descriptor.
pub fn read_file(image: &IdentifiedImage<'_>, n: u32) -> FoundFile
    requires { n < image.now.ident.total }
    ensures number { result.number ≡ n }
    ensures file { IsFileOn image.now result }
{
    FoundFile {
        number: n,
        fd: read_fd(&sector(image.bytes, n)),
    }
}
