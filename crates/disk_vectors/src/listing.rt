ghost use Rattle.std.specs.Prelude.{◌≡◌, ◌+◌, ◌*◌, ◌≤◌, length};

use crate::answer::HexBytes;
use crate::outside::write_outside;
use byteorder::{BigEndian, ByteOrder};
use module_format::crc24;
use rbf_check::{CheckError, Node, Nodes, check};
use std::alloc::{AllocError, Global};
use std::fmt;
use std::fmt::Write;

/// The bytes of an entry's name field.
const NAME: usize = 29;

/// Writes the contents of an image: the answer of its check, and if it is well formed, the line on
/// the bytes outside all files, and its tree.
pub(crate) fn write_state(
    alloc: Global,
    image: &[u8],
    text: &mut String,
) -> Result<(), AllocError> {
    let tree = match check(alloc, image) {
        Ok(tree) => tree,
        Err(CheckError::OutOfMemory) => return Err(AllocError),
        Err(CheckError::Fault(fault)) => return writeln!(text, "check {fault}"),
    };
    let (files, directories) = (tree.files(), tree.directories());
    writeln!(
        text,
        "check files {files} dirs {directories} free {} lost {}",
        tree.free, tree.lost
    )?;
    write_outside(alloc, image, text)?;
    write_tree(alloc, &tree.nodes, text)
}

// The unwritten items of a tree. `entry` is the `crc24` of the 29 bytes of a name field.
#[derive(Debug, Drop)]
enum Item {
    // The root.
    Root { fd: u32 },
    // A file or directory that an entry names.
    Named { path: String, fd: u32, entry: u32 },
    // A free entry of the directory of this path.
    Free { path: String, entry: u32 },
}

// Writes a tree from its root, each directory's entries in their order.
fn write_tree(alloc: Global, nodes: &Nodes, text: &mut String) -> Result<(), AllocError> {
    let mut items = Vec::new(alloc);
    if let Some(root) = root_of(nodes) {
        items.push(Item::Root { fd: root })?;
    }
    for _ in 0..u64::MAX {
        match items.pop() {
            None => return Ok(()),
            Some(item) => write_item(alloc, nodes, &item, &mut items, text)?,
        }
    }
    Ok(())
}

// The root is the directory that is its own parent.
fn root_of(nodes: &Nodes) -> Option<u32> {
    for i in 0..nodes.len() {
        let node = nodes.node(i);
        if node.parent == node.fd {
            return Some(node.fd);
        }
    }
    None
}

// Writes the lines of an item, and puts the items in it before the other items.
fn write_item(
    alloc: Global,
    nodes: &Nodes,
    item: &Item,
    items: &mut Vec<Item>,
    text: &mut String,
) -> Result<(), AllocError> {
    let (path, node) = match item {
        Item::Free { path, entry } => return writeln!(text, "{path}/ free {entry:06x}"),
        Item::Root { fd } => ("", node_of(nodes, *fd)),
        Item::Named { path, fd, .. } => (path.as_str(), node_of(nodes, *fd)),
    };
    let Some(node) = node else {
        return Ok(());
    };
    let shown = if path.is_empty() { "/" } else { path };
    write!(text, "{shown} {}", Described(node))?;
    match item {
        Item::Named { entry, .. } => writeln!(text, " {entry:06x}")?,
        _ => writeln!(text, " -")?,
    }
    if node.is_directory() {
        write_directory(alloc, path, node.bytes.bytes(), items, text)?;
    }
    Ok(())
}

// The fields of a file in its line.
#[derive(Clone, Copy)]
struct Described<'a>(&'a Node);

impl fmt::Display for Described<'_> {
    fn fmt<W: fmt::Write>(&self, f: &mut fmt::Formatter<W>) -> fmt::Result {
        let node = self.0;
        let (modified, created) = (HexBytes(&node.modified), HexBytes(&node.created));
        let bytes = node.bytes.bytes();
        write!(
            f,
            "{:02x} {} {modified} {created} {} {} ",
            node.attr,
            node.owner,
            node.links,
            bytes.len()
        )?;
        if node.is_directory() {
            write!(f, "dir")
        } else {
            write!(f, "{:06x}", crc24(bytes))
        }
    }
}

// Writes the line on the first two entries of a directory, and makes items of the others, the last
// one first: items are taken from the end.
fn write_directory(
    alloc: Global,
    path: &str,
    bytes: &[u8],
    items: &mut Vec<Item>,
    text: &mut String,
) -> Result<(), AllocError> {
    let mut dots = Vec::new(alloc);
    let entries = bytes.len() / 32;
    for place in 0..entries.min(2) {
        let (name, _) = entry_at(bytes, place).split_at(NAME);
        dots.extend_from_slice(name)?;
    }
    writeln!(text, "{path}/ dots {:06x}", crc24(&dots))?;
    for taken in 2..entries {
        let entry = entry_at(bytes, entries + 1 - taken);
        items.push(item_of(alloc, path, entry)?)?;
    }
    Ok(())
}

// The entry in a place of a directory.
fn entry_at(bytes: &[u8], place: usize) -> &[u8]
    requires { 32 * place + 32 ≤ length bytes.now }
    ensures { length result.now ≡ 32 }
{
    &bytes[32 * place..32 * place + 32]
}

// The item of an entry in the directory of this path.
fn item_of(alloc: Global, path: &str, entry: &[u8]) -> Result<Item, AllocError>
    requires { length entry.now ≡ 32 }
{
    let (name, number) = entry.split_at(NAME);
    let crc = crc24(name);
    if name[0] == 0 {
        return Ok(Item::Free {
            path: String::from_str(alloc, path)?,
            entry: crc,
        });
    }
    Ok(Item::Named {
        path: joined(alloc, path, name)?,
        fd: BigEndian::read_u24(number),
        entry: crc,
    })
}

// A path with one more name, whose last character has bit 7.
fn joined(alloc: Global, path: &str, name: &[u8]) -> Result<String, AllocError> {
    let mut text = String::from_str(alloc, path)?;
    text.push('/')?;
    for byte in name {
        text.push(char::from(byte & 0x7f))?;
        if byte & 0x80 != 0 {
            break;
        }
    }
    Ok(text)
}

// The node of this descriptor number. The nodes are in order of their numbers.
fn node_of(nodes: &Nodes, fd: u32) -> Option<&Node> {
    let (mut low, mut high) = (0, nodes.len());
    while low < high {
        let middle = low + (high - low) / 2;
        let node = nodes.node(middle);
        if node.fd == fd {
            return Some(node);
        }
        if node.fd < fd {
            low = middle + 1;
        } else {
            high = middle;
        }
    }
    None
}
