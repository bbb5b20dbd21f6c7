ghost use Rattle.std.specs.Prelude.{◌≡◌, ℕ, ◌+◌, ◌-◌, ◌<◌, ◌≤◌, min, slice_index, true, IfSome};
ghost use Rattle.rbf_write.specs.Laid.{laid_byte};
ghost use Rattle.rbf_write.specs.Sector.{CoversSector, ClearsBytes, IsPartIn};

use rbf_sector::put_bytes;

// Do all bytes of a sector that begins in place `start` of the file lie from `size` up to `at`?
pub fn is_zeros(start: u32, size: u32, at: u32) -> bool
    ensures { result ≡ true → (size ≤ start) × (start + 256 ≤ at) }
{
    size <= start && at.saturating_sub(start) >= 256
}

// The bytes of a sector if all of them are laid, from place `start` of the file on.
pub fn whole_sector(start: u32, at: u32, from: &[u8]) -> Option<[u8; 256]>
    ensures { IfSome result (CoversSector start at from.now) }
{
    let skip = start.checked_sub(at)? as usize;
    if from.len() < 256 || from.len() - 256 < skip {
        return None;
    }
    let mut bytes = [0; 256];
    bytes.copy_from_slice(&from[skip..skip + 256]);
    Some(bytes)
}

// Lays bytes over those of a sector: zeros from `size` up to `at`, and from there on the bytes.
pub fn lay(bytes: &mut [u8; 256], start: u32, size: u32, at: u32, from: &[u8])
    ensures { (q : ℕ) → q < 256 → slice_index bytes.new q
        ≡ laid_byte size at from.now (start + q) (slice_index bytes.old q) }
{
    let first = place_in(start, at);
    clear(bytes, place_in(start, size), first);
    put_bytes(bytes, first, part_in(from, start, at, 256 - first));
}

// The place in a sector that begins at `start` of a place of the file: 0 if that is before the
// sector, and 256 if it is after it.
fn place_in(start: u32, place: u32) -> usize
    ensures { result ≡ min (place - start) 256 }
{
    place.saturating_sub(start).min(256) as usize
}

// The bytes at `start` or later, if the first byte is at place `at`, up to the room.
fn part_in(from: &[u8], start: u32, at: u32, room: usize) -> &[u8]
    ensures { IsPartIn from.now (start - at) room result.now }
{
    let skip = from.len().min(start.saturating_sub(at) as usize);
    let rest = &from[skip..];
    &rest[..rest.len().min(room)]
}

// Puts zeros in a sector from place `first` up to `end`.
fn clear(bytes: &mut [u8; 256], first: usize, end: usize)
    requires first { first ≤ 256 }
    requires end { end ≤ 256 }
    ensures { ClearsBytes first end bytes.old bytes.new }
{
    if end <= first {
        return;
    }
    let zeros = [0; 256];
    put_bytes(bytes, first, &zeros[..end.saturating_sub(first)]);
}
