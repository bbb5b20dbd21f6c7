ghost use Rattle.std.specs.Prelude.{◌≡◌, ℕ, ◌+◌, ◌<◌, ◌≤◌, length, slice_index};
ghost use Rattle.rbf_model.specs.Fields.{attributes_field, owner_field, modified_field, links_field, size_field, created_field, segments_field};
ghost use Rattle.rbf_model.specs.Segments.{sectors_of};
ghost use Rattle.rbf_change.specs.Calls.{minute_of};
ghost use Rattle.rbf_change.specs.Tidy.{list_end, IsEnded, KeepsListEnd};
ghost use Rattle.rbf_write.specs.Changed.{HasFields};

use os9_base::registers::TimePacket;
use rbf_sector::{Fd, write_fd, write_fields};
use rbf_segs::Segs;

/// The descriptor `old`, whose segments are `was`, with the fields and segments of `file`. An
/// unchanged list of segments keeps its end; a changed one ends with a pair of zeros. The bytes
/// after that are unchanged.
pub fn with_descriptor(old: &[u8; 256], was: &Segs, file: &Fd) -> [u8; 256]
    requires list { segments_field old.now ≡ was.now }
    requires same { length (sectors_of file.now.segs) ≡ length (sectors_of was.now)
        → file.now.segs ≡ was.now }
    ensures whole { length result ≡ 256 }
    ensures fields { HasFields file.now result }
    ensures list { segments_field result ≡ file.now.segs }
    ensures end { KeepsListEnd old.now result }
{
    if file.segs.sectors() == was.sectors() {
        return with_fields(old, file);
    }
    with_list(old, file)
}

// A descriptor with these fields, and with another list of segments.
fn with_list(old: &[u8; 256], file: &Fd) -> [u8; 256]
    ensures whole { length result ≡ 256 }
    ensures fields { HasFields file.now result }
    ensures list { segments_field result ≡ file.now.segs }
    ensures ended { IsEnded result }
    ensures behind { (i : ℕ) → list_end result + 5 ≤ i
        → slice_index result i ≡ slice_index old.now i }
{
    let mut bytes = *old;
    write_fd(file, &mut bytes);
    bytes
}

// A descriptor with these fields, with the old list of segments and all bytes after it.
pub fn with_fields(old: &[u8; 256], file: &Fd) -> [u8; 256]
    ensures whole { length result ≡ 256 }
    ensures fields { HasFields file.now result }
    ensures list { segments_field result ≡ segments_field old.now }
    ensures behind { (i : ℕ) → 16 ≤ i → slice_index result i ≡ slice_index old.now i }
{
    let mut bytes = *old;
    write_fields(file, &mut bytes);
    bytes
}

/// The date and time of a descriptor (FD.DAT).
pub fn minute(now: &TimePacket) -> [u8; 5]
    ensures { result ≡ minute_of now.now }
{
    [now.year, now.month, now.day, now.hour, now.minute]
}
