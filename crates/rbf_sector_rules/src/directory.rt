ghost use Rattle.std.specs.Prelude.{◌≡◌, ◌+◌, ◌*◌, ◌<◌, length, if◌then◌else◌};
ghost use Rattle.std.specs.List.{list_all};
ghost use Rattle.rbf_model.specs.Fields.{directory_entry};
ghost use Rattle.rbf_model.specs.Geometry.{is_within};
ghost use Rattle.rbf_sector.specs.Ident.{geometry_of};
ghost use Rattle.rbf_sector_rules.specs.Files.{IsFileOn};
ghost use Rattle.rbf_sector_rules.specs.Reading.{is_searchable_descriptor, IsDirectory, listed};

use crate::file::FoundFile;
use crate::image::IdentifiedImage;
use rbf_sector::{Fd, Ident};
use rbf_segs::Segs;

/// The fields of a descriptor that a search needs: its number, its segments, and the number of its
/// entries, which is 0 if it is not a searchable directory.
#[derive(Clone, Copy, Debug)]
pub struct Directory {
    pub number: u32,
    pub segs: Segs,
    pub entries: u32,
}

/// The fields of a file that a search needs.
pub fn directory_of(image: &IdentifiedImage<'_>, file: &FoundFile) -> Directory
    requires { IsFileOn image.now file.now }
    ensures number { result.number ≡ file.now.number }
    ensures directory { IsDirectory image.now result }
{
    Directory {
        number: file.number,
        segs: file.fd.segs,
        entries: entry_count(&file.fd, &image.ident),
    }
}

// The number of entries that a search of this file finds.
fn entry_count(fd: &Fd, ident: &Ident) -> u32
    ensures { 32 * result
        ≡ (if is_searchable_descriptor (geometry_of ident.now) fd.now then fd.now.size else 0) }
{
    if is_searchable(fd, ident) {
        fd.size / 32
    } else {
        0
    }
}

// Whether this file can be searched as a directory.
fn is_searchable(fd: &Fd, ident: &Ident) -> bool
    ensures { result ≡ is_searchable_descriptor (geometry_of ident.now) fd.now }
{
    let held = 256 * u64::from(fd.segs.sectors());
    let size = fd.size >= 64 && fd.size % 32 == 0;
    fd.attr >> 7 == 1 && lie_within(&fd.segs, ident) && u64::from(fd.size) <= held && size
}

/// Whether the segments begin after the identification sector and end within the volume.
pub fn lie_within(segs: &Segs, ident: &Ident) -> bool
    ensures { result ≡ list_all (is_within (geometry_of ident.now)) segs.now }
{
    for i in 0..segs.runs() {
        let run = segs.run(i);
        if !is_segment_within(run, ident) {
            return false;
        }
    }
    true
}

fn is_segment_within(run: (u32, u16), ident: &Ident) -> bool
    requires { run.0 < 16777216 }
    ensures { result ≡ is_within (geometry_of ident.now) run }
{
    run.0 >= 1 && run.0 + u32::from(run.1) <= ident.total
}

/// The 32 bytes of entry `i` of a directory.
pub fn entry_bytes(image: &IdentifiedImage<'_>, dir: &Directory, i: u32) -> [u8; 32]
    requires directory { IsDirectory image.now dir.now }
    requires within { i < dir.now.entries }
    ensures { result ≡ directory_entry (listed image.now dir.now.number) i }
{
    let lsn = dir.segs.lsn_of(i / 8).unwrap();
    let at = 256 * lsn as usize + 32 * (i % 8) as usize;
    let mut entry = [0; 32];
    entry.copy_from_slice(&image.bytes[at..at + 32]);
    entry
}
