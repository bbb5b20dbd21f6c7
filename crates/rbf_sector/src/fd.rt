ghost use Rattle.std.specs.Prelude.{◌≡◌, ◌+◌, ◌*◌, ◌<◌, ◌≤◌, ℕ, length, slice_index};
ghost use Rattle.rbf_model.specs.Fields.{attributes_field, owner_field, modified_field, links_field, size_field, created_field, segment_field, segments_field};
ghost use Rattle.rbf_sector.specs.Parts.{KeepsBeside};

use crate::parts::{put_bytes, put_u16, put_u24, put_u32, u16_at, u24_at, u32_at};
use rbf_segs::{MAX_SEGMENTS, Segs};

/// A file descriptor (OS-9 Technical Reference, Random Block File Manager, "File Descriptors").
///
/// `modified` is year, month, day, hour and minute, `created` year, month and day; the year is
/// counted from 1900. `size` is in bytes.
#[derive(Clone, Copy, Debug, PartialEq, Eq)]
pub struct Fd {
    pub attr: u8,
    pub owner: u16,
    pub modified: [u8; 5],
    pub links: u8,
    pub size: u32,
    pub created: [u8; 3],
    pub segs: Segs,
}

/// The fields of a file descriptor; its segment list ends before the first count of 0.
pub fn read_fd(b: &[u8; 256]) -> Fd
    ensures attr { result.attr ≡ attributes_field b.now }
    ensures owner { result.owner ≡ owner_field b.now }
    ensures modified { result.modified ≡ modified_field b.now }
    ensures links { result.links ≡ links_field b.now }
    ensures size { result.size ≡ size_field b.now }
    ensures created { result.created ≡ created_field b.now }
    ensures segs { result.segs ≡ segments_field b.now }
{
    Fd {
        attr: b[0],
        owner: u16_at(b, 1),
        modified: [b[3], b[4], b[5], b[6], b[7]],
        links: b[8],
        size: u32_at(b, 9),
        created: [b[13], b[14], b[15]],
        segs: read_segs(b),
    }
}

/// The size in bytes of the file of a descriptor.
pub fn read_size(b: &[u8; 256]) -> u32
    ensures { result ≡ size_field b.now }
{
    u32_at(b, 9)
}

/// Writes a file descriptor. A list of fewer than 48 segments ends with one pair of zeros, and the
/// bytes after it are unchanged.
pub fn write_fd(f: &Fd, b: &mut [u8; 256])
    ensures attr { attributes_field b.new ≡ f.now.attr }
    ensures owner { owner_field b.new ≡ f.now.owner }
    ensures modified { modified_field b.new ≡ f.now.modified }
    ensures links { links_field b.new ≡ f.now.links }
    ensures size { size_field b.new ≡ f.now.size }
    ensures created { created_field b.new ≡ f.now.created }
    ensures segs { segments_field b.new ≡ f.now.segs }
    ensures ended { length f.now.segs < 48 → segment_field b.new (length f.now.segs) ≡ (0, 0) }
    ensures behind { (i : ℕ) → 16 + 5 * (length f.now.segs + 1) ≤ i
        → slice_index b.new i ≡ slice_index b.old i }
{
    write_fields(f, b);
    write_segs(&f.segs, b);
}

/// Writes the first 16 bytes of a file descriptor, which are all its fields before the segment
/// list. The other bytes are unchanged.
pub fn write_fields(f: &Fd, b: &mut [u8; 256])
    ensures attr { attributes_field b.new ≡ f.now.attr }
    ensures owner { owner_field b.new ≡ f.now.owner }
    ensures modified { modified_field b.new ≡ f.now.modified }
    ensures links { links_field b.new ≡ f.now.links }
    ensures size { size_field b.new ≡ f.now.size }
    ensures created { created_field b.new ≡ f.now.created }
    ensures beside { KeepsBeside b.old b.new 0 16 }
{
    b[0] = f.attr;
    put_u16(b, 1, f.owner);
    put_bytes(b, 3, &f.modified);
    b[8] = f.links;
    put_u32(b, 9, f.size);
    put_bytes(b, 13, &f.created);
}

// Writes a segment list, followed by one pair of zeros if there is room.
fn write_segs(segs: &Segs, b: &mut [u8; 256])
    ensures segs { segments_field b.new ≡ segs.now }
    ensures ended { length segs.now < 48 → segment_field b.new (length segs.now) ≡ (0, 0) }
    ensures beside { KeepsBeside b.old b.new 16 (5 * (length segs.now + 1)) }
{
    let runs = segs.runs();
    for i in 0..runs {
        let (lsn, count) = segs.run(i);
        put_pair(b, usize::from(i), lsn, count);
    }
    if usize::from(runs) < MAX_SEGMENTS {
        put_pair(b, usize::from(runs), 0, 0);
    }
}

// Writes the i-th pair of a segment list.
fn put_pair(b: &mut [u8; 256], i: usize, lsn: u32, count: u16)
    requires within { i < 48 }
    requires fits { lsn < 16777216 }
    ensures pair { segment_field b.new i ≡ (lsn, count) }
    ensures beside { KeepsBeside b.old b.new (16 + 5 * i) 5 }
{
    let at = 16 + 5 * i;
    put_u24(b, at, lsn);
    put_u16(b, at + 3, count);
}

/// The segment list of a file descriptor; it ends before the first count of 0.
pub fn read_segs(b: &[u8; 256]) -> Segs
    ensures { result ≡ segments_field b.now }
{
    let mut segs = Segs::empty();
    for i in 0..MAX_SEGMENTS {
        let at = 16 + 5 * i;
        let count = u16_at(b, at + 3);
        if count == 0 {
            return segs;
        }
        segs.add_run(u24_at(b, at), count).unwrap();
    }
    segs
}
