ghost use Rattle.std.specs.Prelude.{◌≡◌, ◌<◌, ℕ, ◌+◌, ◌*◌, ◌≤◌, IfOk, length};
ghost use Rattle.rbf_model.specs.Decides.{Decides};
ghost use Rattle.rbf_model.specs.Geometry.{sector as sector_of};
ghost use Rattle.rbf_model.specs.File as model;
ghost use Rattle.rbf_model.specs.File.{file_at};
ghost use Rattle.rbf_sector_rules.specs.Files.{IsFileOn, AreFiles};
ghost use Rattle.rbf_sector_rules.specs.Reading.{disk_on, IsDirectory, listed};
ghost use Rattle.rbf_sector_rules.specs.Linked.{AreLinks};
ghost use Rattle.rbf_sector_rules.specs.Least.{IsLeast, IsLeastBreach};
ghost use Rattle.rbf_check.specs.Dots.{AreDots, BeginsWithDots, MarksDots, AreDotted, IsWithoutDots, AreDotsDecided};

use crate::names::spells;
use rbf_sector::{Entry, read_entry};
use rbf_sector_rules::{
    Directory, FoundFile, IdentifiedImage, Link, directory_of, entry_bytes, least_of, read_file,
};
use std::alloc::{AllocError, Global};

// Whether the one entry is `.` of this directory, and the other `..` for this parent.
fn are_dots(own: &Entry, parent: &Entry, d: u32, p: u32) -> bool
    ensures { Decides result (AreDots own.now parent.now d p) }
{
    if own.lsn != d {
        return false;
    }
    if parent.lsn != p {
        return false;
    }
    if !spells(&own.name, b".") {
        return false;
    }
    spells(&parent.name, b"..")
}

// Whether the first two entries of a directory are itself and this parent.
fn begins_with_dots(image: &IdentifiedImage<'_>, dir: &Directory, p: u32) -> bool
    requires { IsDirectory image.now dir.now }
    ensures { Decides result
        (BeginsWithDots (listed image.now dir.now.number) dir.now.number p) }
{
    if dir.entries < 2 {
        return false;
    }
    let first = read_entry(&entry_bytes(image, dir, 0));
    let second = read_entry(&entry_bytes(image, dir, 1));
    if are_dots(&first, &second, dir.number, p) {
        return true;
    }
    are_dots(&second, &first, dir.number, p)
}

// Marks the descriptor that a link names, if it begins with dots for the directory of the link.
fn mark_dots(image: &IdentifiedImage<'_>, dotted: &mut Vec<bool>, link: &Link)
    requires number { link.now.descriptor < image.now.ident.total }
    requires size { length dotted.old.items ≡ image.now.ident.total }
    ensures { MarksDots
        (listed image.now link.now.descriptor) image.now.ident.root link.now dotted.old.items
        dotted.new.items }
{
    if link.descriptor == image.ident.root {
        return;
    }
    let dir = directory_of(image, &read_file(image, link.descriptor));
    if !begins_with_dots(image, &dir, link.directory) {
        return;
    }
    dotted[link.descriptor as usize] = true;
}

// Marks the descriptors of the directories that begin with themselves and their parents.
fn list_dotted(
    alloc: Global,
    image: &IdentifiedImage<'_>,
    links: &[Link],
) -> Result<Vec<bool>, AllocError>
    requires { AreLinks (disk_on image.now) links.now }
    ensures { IfOk result (λ dotted. AreDotted (disk_on image.now) dotted.items) }
{
    let mut dotted = vec![in alloc; false; image.ident.total as usize]?;
    let root = directory_of(image, &read_file(image, image.ident.root));
    dotted[image.ident.root as usize] = begins_with_dots(image, &root, image.ident.root);
    for link in links {
        mark_dots(image, &mut dotted, link);
    }
    Ok(dotted)
}

fn is_directory(image: &IdentifiedImage<'_>, file: &FoundFile) -> bool
    requires { IsFileOn image.now file.now }
    ensures { result
        ≡ model.is_directory (file_at (sector_of image.now.bytes.now) file.now.number) }
{
    file.fd.attr >> 7 == 1
}

// The descriptor, if it is that of a directory that is not marked.
fn without_dots(image: &IdentifiedImage<'_>, dotted: &[bool], file: &FoundFile) -> Option<u32>
    requires file { IsFileOn image.now file.now }
    requires after { 1 ≤ file.now.number }
    requires dotted { AreDotted (disk_on image.now) dotted.now }
    ensures { IsLeast (IsWithoutDots (disk_on image.now) file.now.number) result }
{
    if dotted[file.number as usize] {
        return None;
    }
    if !is_directory(image, file) {
        return None;
    }
    Some(file.number)
}

/// The least directory that breaks rule 7: it does not begin with itself and its parent. None if
/// the rule is kept.
///
/// # Errors
///
/// Out of memory.
pub fn least_without_dots(
    alloc: Global,
    image: &IdentifiedImage<'_>,
    files: &[FoundFile],
    links: &[Link],
) -> Result<Option<u32>, AllocError>
    requires files { AreFiles image.now files.now }
    requires links { AreLinks (disk_on image.now) links.now }
    ensures least { IfOk result (IsLeastBreach (disk_on image.now) 7) }
    ensures decided { IfOk result (λ least. AreDotsDecided (disk_on image.now)) }
{
    let dotted = list_dotted(alloc, image, links)?;
    let mut least = None;
    for file in files {
        least = least_of(least, without_dots(image, &dotted, file));
    }
    Ok(least)
}
