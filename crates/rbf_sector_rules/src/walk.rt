ghost use Rattle.std.specs.Prelude.{◌≡◌, ◌≢◌, ℕ, ◌+◌, ◌*◌, ◌<◌, ◌≤◌, true, length, MatchOption, OnOk, IfOk};
ghost use Rattle.rbf_model.specs.Fields.{is_used, descriptor_field};
ghost use Rattle.rbf_model.specs.Geometry.{IsNumber};
ghost use Rattle.rbf_model.specs.Segments.{AreDistinct};
ghost use Rattle.rbf_model.specs.Tree.{EntryNames};
ghost use Rattle.rbf_sector_rules.specs.Files.{AreFiles, found_numbers};
ghost use Rattle.rbf_sector_rules.specs.Found.{IsSearch, IsVisited, AreFound, added, NamesNoNumber, NamesNumber, LinksNowhere, LinksTo};
ghost use Rattle.rbf_sector.specs.Ident.{geometry_of};
ghost use Rattle.rbf_sector_rules.specs.Reading.{disk_on, IsDirectory, listed};

use crate::directory::{Directory, directory_of, entry_bytes};
use crate::file::{FoundFile, read_file};
use crate::image::IdentifiedImage;
use crate::positions::{list_positions, position_bytes};
use crate::unread::Unread;
use rbf_sector::{Ident, read_entry};
use std::alloc::{AllocError, Global};

// The descriptors found so far, a table that marks their numbers, and the positions whose entries
// are unread.
#[derive(Drop)]
struct Search {
    seen: Vec<bool>,
    found: Vec<u32>,
    unread: Unread,
}

// The descriptor of the volume that an entry names, if it is used.
fn used_descriptor(bytes: &[u8; 32], ident: &Ident) -> Option<u32>
    ensures { MatchOption result (NamesNoNumber (geometry_of ident.now) bytes.now)
        (NamesNumber (geometry_of ident.now) bytes.now) }
{
    let entry = read_entry(bytes);
    if entry.name[0] == 0 || entry.lsn == 0 || entry.lsn >= ident.total {
        return None;
    }
    Some(entry.lsn)
}

// The descriptor that an entry after the first two names, if the entry is used and the number is
// one of the volume.
pub fn named(image: &IdentifiedImage<'_>, dir: &Directory, i: u32) -> Option<u32>
    requires directory { IsDirectory image.now dir.now }
    requires after { 2 ≤ i }
    requires within { i < dir.now.entries }
    ensures { let contents = listed image.now dir.now.number in
        MatchOption result (LinksNowhere (geometry_of image.now.ident) contents i)
        (LinksTo (geometry_of image.now.ident) contents i) }
{
    used_descriptor(&entry_bytes(image, dir, i), &image.ident)
}

impl Search {
    ghost use Rattle.rbf_sector_rules.specs.Walk.{IsSearching};

    // Finds a descriptor, if it is new.
    fn find(&mut self, n: u32) -> Result<(), AllocError>
        requires marks { IsSearch self.old.seen.items self.old.found.items }
        requires number { n < length self.old.seen.items }
        ensures marks { OnOk result (IsSearch self.new.seen.items self.new.found.items) }
        ensures size { length self.new.seen.items ≡ length self.old.seen.items }
        ensures found { OnOk result (self.new.found.items ≡ added self.old.found.items n) }
        ensures unread { self.new.unread ≡ self.old.unread }
    {
        if self.seen[n as usize] {
            return Ok(());
        }
        self.found.push(n)?;
        self.seen[n as usize] = true;
        Ok(())
    }

    // Finds the descriptor that the entry in a position names.
    fn read_position(&mut self, image: &IdentifiedImage<'_>, e: u32) -> Result<(), AllocError>
        requires position { e < 8 * image.now.ident.total }
        requires marks { IsSearch self.old.seen.items self.old.found.items }
        requires size { length self.old.seen.items ≡ image.now.ident.total }
        ensures marks { OnOk result (IsSearch self.new.seen.items self.new.found.items) }
        ensures size { length self.new.seen.items ≡ length self.old.seen.items }
        ensures found { OnOk result
            (AreFound (disk_on image.now) e
            (e + 1) self.old.found.items self.new.found.items) }
        ensures unread { self.new.unread ≡ self.old.unread }
    {
        if let Some(n) = used_descriptor(&position_bytes(image.bytes, e), &image.ident) {
            self.find(n)?;
        }
        Ok(())
    }

    // Finds what the entries in the positions from one up to another name. Positions that were read
    // before are skipped, so each is read once, however many directories have it.
    fn read_range(
        &mut self,
        image: &IdentifiedImage<'_>,
        first: u32,
        end: u32,
    ) -> Result<(), AllocError>
        requires order { first ≤ end }
        requires within { end ≤ 8 * image.now.ident.total }
        requires searching { IsSearching (disk_on image.now) self.old }
        ensures searching { OnOk result (IsSearching (disk_on image.now) self.new) }
        ensures found { OnOk result
            (AreFound (disk_on image.now) first end self.old.found.items
            self.new.found.items) }
    {
        let mut e = self.unread.first(first);
        while e < end {
            self.read_position(image, e)?;
            self.unread.pass(e);
            e = self.unread.first(e + 1);
        }
        Ok(())
    }

    // Finds what a directory names.
    fn visit(
        &mut self,
        image: &IdentifiedImage<'_>,
        dir: &Directory,
        ranges: &mut Vec<(u32, u32)>,
    ) -> Result<(), AllocError>
        requires directory { IsDirectory image.now dir.now }
        requires searching { IsSearching (disk_on image.now) self.old }
        ensures searching { OnOk result (IsSearching (disk_on image.now) self.new) }
        ensures visited { OnOk result (IsVisited (geometry_of image.now.ident)
            (listed image.now dir.now.number) self.old.found.items self.new.found.items) }
    {
        list_positions(dir, ranges)?;
        let mut skipped = 2;
        for &(first, count) in ranges.iter() {
            let passed = count.min(skipped);
            self.read_range(image, first + passed, first + count)?;
            skipped -= passed;
        }
        Ok(())
    }
}

/// The files that are reached from the root of a volume, each once: the root, and the files that a
/// reached, searchable directory names by a used entry after its first two (this project's own rule
/// of which files an image has).
///
/// # Errors
///
/// Out of memory.
pub fn find_files(alloc: Global, image: &IdentifiedImage<'_>) -> Result<Vec<FoundFile>, AllocError>
    ensures files { IfOk result (λ files. AreFiles image.now files.items) }
    ensures once { IfOk result (λ files. AreDistinct (found_numbers files.items)) }
    ensures few { IfOk result (λ files. length files.items ≤ image.now.ident.total) }
{
    let mut search = Search {
        seen: vec![in alloc; false; image.ident.total as usize]?,
        found: Vec::new(alloc),
        unread: Unread::new(alloc, 8 * image.ident.total)?,
    };
    search.find(image.ident.root)?;
    let mut ranges = Vec::new(alloc);
    let mut files = Vec::new(alloc);
    while files.len() < search.found.len() {
        let file = read_file(image, search.found[files.len()]);
        search.visit(image, &directory_of(image, &file), &mut ranges)?;
        files.push(file)?;
    }
    Ok(files)
}
