ghost use Rattle.std.specs.Prelude.{◌≡◌, ◌<◌, ◌++◌, [], ◌∷◌, Some, length, slice_get};
ghost use Rattle.os9_base.specs.Name.{padded_name, IsName, marked_name};
ghost use Rattle.rbf_change.specs.Names as model;

use os9_base::name::Name;
use os9_base::registers::TimePacket;

/// A file or directory that is to be made: its name, its attributes and the date of its creation.
#[derive(Clone, Copy, Debug)]
pub struct NewEntry {
    pub name: Name,
    pub attr: u8,
    pub date: TimePacket,
}

/// The entry of a new file: its name as given, with bit 7 on its last character, zeros after it,
/// and the number of its descriptor (OS-9 Technical Reference, Random Block File Manager,
/// "Directories").
pub fn new_entry(name: &Name, n: u32) -> [u8; 32]
    requires { n < 16777216 }
    ensures { result ≡ model.new_entry name.now n }
{
    let mut bytes = padded(name);
    bytes[29] = (n / 65536) as u8;
    bytes[30] = (n / 256 % 256) as u8;
    bytes[31] = (n % 256) as u8;
    bytes
}

// A name with bit 7 on its last character, and zeros after it.
fn padded(name: &Name) -> [u8; 32]
    ensures bytes { result ≡ padded_name (marked_name name.now) ++ 0 ∷ 0 ∷ 0 ∷ [] }
    ensures name { IsName name.now }
{
    let mut bytes = [0; 32];
    for i in 0..name.len() {
        bytes[i as usize] = marked(name, i);
    }
    bytes
}

// A character of a name, the last with bit 7.
fn marked(name: &Name, i: u8) -> u8
    requires { i < length name.now }
    ensures { slice_get (marked_name name.now) i ≡ Some result }
{
    let character = name.byte(i);
    if i == name.len() - 1 {
        character + 128
    } else {
        character
    }
}
