ghost use Rattle.std.specs.Prelude.{◌≡◌, ◌*◌, true, bytes_eq, drop, string_bytes};
ghost use Rattle.std.specs.Bool.{OnTrue};
ghost use Rattle.boot_vectors.specs.Stops.{KeepsImageEnds};

use crate::tree::tree_text;
use rbf_sector::read_ident;
use rbf_sector_rules::sector;
use std::alloc::{AllocError, Global};

/// The bytes of a sector.
pub(crate) const SECTOR: usize = 256;

/// The file of an image, and the tree of its volume.
#[derive(Drop)]
pub(crate) struct Disk {
    pub(crate) name: String,
    pub(crate) image: Vec<u8>,
    pub(crate) tree: String,
}

impl Disk {
    /// The image of a file, and its tree.
    pub(crate) fn read(alloc: Global, name: &str, image: &[u8]) -> Result<Disk, AllocError> {
        Ok(Disk {
            name: String::from_str(alloc, name)?,
            image: Vec::from_slice(alloc, image)?,
            tree: tree_text(alloc, image)?,
        })
    }

    /// Is it what a run over the image of a row may leave, with the tree that the row gives?
    pub(crate) fn is_left_of(&self, row: &Disk) -> bool
        ensures tree { OnTrue result
            (bytes_eq (string_bytes self.now.tree) (string_bytes row.now.tree) ≡ true) }
        ensures ends { OnTrue result (KeepsImageEnds row.now.image.items self.now.image.items) }
    {
        self.tree.as_str() == row.tree.as_str() && keep_ends(&row.image, &self.image)
    }

    /// Does it have the bytes of the image of a row?
    pub(crate) fn is_same(&self, row: &Disk) -> bool
        ensures { result ≡ bytes_eq self.now.image.items row.now.image.items }
    {
        self.image.as_slice() == row.image.as_slice()
    }
}

/// Does an image after a run have the length, the first sector and the bytes past the sectors of
/// its volume that it had before?
pub(crate) fn keep_ends(before: &[u8], after: &[u8]) -> bool
    ensures { OnTrue result (KeepsImageEnds before.now after.now) }
{
    if before.len() < SECTOR || before.len() != after.len() {
        return false;
    }
    let first = sector(before, 0);
    let total = read_ident(&first).total;
    let same_past = past(after, total) == past(before, total);
    sector(after, 0) == first && same_past
}

/// The bytes of an image past this number of sectors.
fn past(image: &[u8], sectors: u32) -> &[u8]
    ensures { result.now ≡ drop (256 * sectors) image.now }
{
    let end = SECTOR * sectors as usize;
    if end > image.len() {
        return &[];
    }
    &image[end..]
}
