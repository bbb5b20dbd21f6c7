ghost use Rattle.std.specs.Prelude.{◌≡◌, ◌<◌, Some};
ghost use Rattle.os9_base.specs.Name.{parsed_name};
ghost use Rattle.rbf_model.specs.Tree.{dot, dot_dot};
ghost use Rattle.rbf_change.specs.Contents.{extended};
ghost use Rattle.rbf_change.specs.Names as model;
ghost use Rattle.rbf_change.specs.Names.{new_listing};

use crate::new_entry;
use os9_base::name::parse_name;

// The first sector of a new directory: the entry `..`, which names its parent, then `.`, which
// names the directory itself, and zeros.
pub fn listing(n: u32, parent: u32) -> [u8; 256]
    requires number { n < 16777216 }
    requires parent { parent < 16777216 }
    ensures { result ≡ extended (new_listing n parent) 256 }
{
    let mut bytes = [0; 256];
    bytes[..32].copy_from_slice(&parent_entry(parent));
    bytes[32..64].copy_from_slice(&own_entry(n));
    bytes
}

fn parent_entry(parent: u32) -> [u8; 32]
    requires { parent < 16777216 }
    ensures { result ≡ model.new_entry dot_dot parent }
{
    new_entry(&parse_name(b"..").unwrap(), parent)
}

fn own_entry(n: u32) -> [u8; 32]
    requires { n < 16777216 }
    ensures { result ≡ model.new_entry dot n }
{
    new_entry(&parse_name(b".").unwrap(), n)
}
