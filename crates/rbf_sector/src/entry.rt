ghost use Rattle.std.specs.Prelude.{◌≡◌, ◌<◌, take};
ghost use Rattle.rbf_model.specs.Fields.{descriptor_field};

use crate::parts::{put_bytes, put_u24, u24_at};

/// An entry of a directory: the bytes of its name, and the descriptor that it names (OS-9
/// Technical Reference, Random Block File Manager, "Directories").
#[derive(Clone, Copy, Debug, PartialEq, Eq)]
pub struct Entry {
    pub name: [u8; 29],
    pub lsn: u32,
}

/// The two fields of an entry.
pub fn read_entry(b: &[u8; 32]) -> Entry
    ensures name { result.name ≡ take 29 b.now }
    ensures lsn { result.lsn ≡ descriptor_field b.now }
{
    let mut name = [0; 29];
    name.copy_from_slice(&b[..29]);
    Entry {
        name,
        lsn: u24_at(b, 29),
    }
}

/// Writes an entry over its 32 bytes.
pub fn write_entry(e: &Entry, b: &mut [u8; 32])
    requires { e.now.lsn < 16777216 }
    ensures name { take 29 b.new ≡ e.now.name }
    ensures lsn { descriptor_field b.new ≡ e.now.lsn }
{
    put_bytes(b, 0, &e.name);
    put_u24(b, 29, e.lsn);
}
