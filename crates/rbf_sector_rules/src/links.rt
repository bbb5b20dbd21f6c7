ghost use Rattle.std.specs.Prelude.{◌≡◌, take, OnOk, IfOk};
ghost use Rattle.rbf_model.specs.Fields.{directory_entry, descriptor_field};
ghost use Rattle.rbf_model.specs.Tree.{Links};
ghost use Rattle.rbf_model.specs.Search.{searchable_bytes};
ghost use Rattle.rbf_sector_rules.specs.Files.{AreFiles};
ghost use Rattle.rbf_sector.specs.Ident.{geometry_of};
ghost use Rattle.rbf_sector_rules.specs.Reading.{disk_on, IsDirectory, listed};
ghost use Rattle.rbf_sector_rules.specs.Linked.{AreAdded, AreLinks, IsLinkOn, linked_entry};

use crate::directory::{Directory, directory_of, entry_bytes};
use crate::file::{FoundFile, read_file};
use crate::image::IdentifiedImage;
use crate::walk::named;
use rbf_sector::{Entry, read_entry};
use std::alloc::{AllocError, Global};

/// A used entry of a directory, after the first two, and the descriptor that it names.
#[derive(Clone, Copy, Debug)]
pub struct Link {
    pub directory: u32,
    pub entry: u32,
    pub descriptor: u32,
}

// Adds the links of a directory to numbers of the volume.
fn add_links(
    image: &IdentifiedImage<'_>,
    dir: &Directory,
    links: &mut Vec<Link>,
) -> Result<(), AllocError>
    requires { IsDirectory image.now dir.now }
    ensures { OnOk result
        (AreAdded (geometry_of image.now.ident)
        (listed image.now dir.now.number) dir.now.number links.old.items links.new.items
        dir.now.entries) }
{
    for i in 2..dir.entries {
        if let Some(n) = named(image, dir, i) {
            links.push(Link {
                directory: dir.number,
                entry: i,
                descriptor: n,
            })?;
        }
    }
    Ok(())
}

/// All links of the files that are found.
///
/// # Errors
///
/// Out of memory.
pub fn list_links(
    alloc: Global,
    image: &IdentifiedImage<'_>,
    files: &[FoundFile],
) -> Result<Vec<Link>, AllocError>
    requires { AreFiles image.now files.now }
    ensures { IfOk result (λ links. AreLinks (disk_on image.now) links.items) }
{
    let mut links = Vec::new(alloc);
    for file in files {
        let dir = directory_of(image, file);
        add_links(image, &dir, &mut links)?;
    }
    Ok(links)
}

/// The entry of a link of the image.
pub fn link_entry(image: &IdentifiedImage<'_>, link: &Link) -> Entry
    requires { IsLinkOn (disk_on image.now) link.now }
    ensures name { result.name ≡ take 29 (linked_entry (disk_on image.now) link.now) }
    ensures lsn { result.lsn
        ≡ descriptor_field (linked_entry (disk_on image.now) link.now) }
{
    let dir = directory_of(image, &read_file(image, link.directory));
    read_entry(&entry_bytes(image, &dir, link.entry))
}
