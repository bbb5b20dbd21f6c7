ghost use Rattle.std.specs.Prelude.{◌≡◌, ◌≤◌, length};

use module_format::crc24;
use os9_base::name::{Name, header_name};
use rbf_check::{CheckError, Node, Nodes, check};
use std::alloc::{AllocError, Global};
use std::fmt;
use std::fmt::Write;

/// The bytes of an entry of a directory.
const ENTRY: usize = 32;

/// The entries of a directory that name itself and its parent.
const OWN_ENTRIES: usize = 2;

/// The tree of an image: a line for each file and each directory, in order of their bytes, and the
/// numbers of free and of lost clusters, joined by `;`. For an image that is not well formed, its
/// fault.
pub(crate) fn tree_text(alloc: Global, image: &[u8]) -> Result<String, AllocError> {
    let tree = match check(alloc, image) {
        Ok(tree) => tree,
        Err(CheckError::OutOfMemory) => return Err(AllocError),
        Err(CheckError::Fault(fault)) => return format!(in alloc; "{fault}"),
    };
    let mut lines = Vec::new(alloc);
    for i in 0..tree.nodes.len() {
        lines.push(line(alloc, &tree.nodes, tree.nodes.node(i))?)?;
    }
    lines.sort()?;
    lines.push(format!(in alloc; "free {} lost {}", tree.free, tree.lost)?)?;
    lines.join(alloc, ";")
}

/// The line of a file: its path, what its descriptor says, its size and the checksum of its bytes.
/// The line of a directory has the names of its entries in place of the last two.
pub(crate) fn line(alloc: Global, nodes: &Nodes, node: &Node) -> Result<String, AllocError> {
    let mut text = path(alloc, nodes, node)?;
    let bytes = node.bytes.bytes();
    write!(text, " {} ", Described(node))?;
    if node.is_directory() {
        write_entries(bytes, &mut text)?;
    } else {
        write!(text, "{} {:06x}", bytes.len(), crc24(bytes))?;
    }
    Ok(text)
}

/// The path of a file from the root, which is `/`.
fn path(alloc: Global, nodes: &Nodes, node: &Node) -> Result<String, AllocError> {
    let names = names_up(alloc, nodes, node)?;
    let mut text = String::new(alloc);
    for name in names.iter().rev() {
        text.push('/')?;
        write_name(name, &mut text)?;
    }
    if names.is_empty() {
        text.push('/')?;
    }
    Ok(text)
}

/// The names of a file and of the directories that contain it, up to the root, which has no name.
fn names_up(alloc: Global, nodes: &Nodes, node: &Node) -> Result<Vec<Name>, AllocError> {
    let mut names = Vec::new(alloc);
    let mut place = node;
    for _ in 0..nodes.len() {
        if place.parent == place.fd {
            break;
        }
        names.push(place.name)?;
        match node_of(nodes, place.parent) {
            Some(parent) => place = parent,
            None => break,
        }
    }
    Ok(names)
}

/// The file of this descriptor number. Files are in order of rising numbers.
pub(crate) fn node_of(nodes: &Nodes, fd: u32) -> Option<&Node> {
    let (mut low, mut high) = (0, nodes.len());
    while low < high {
        let middle = low + (high - low) / 2;
        let node = nodes.node(middle);
        if node.fd == fd {
            return Some(node);
        }
        if node.fd < fd {
            low = middle + 1;
        } else {
            high = middle;
        }
    }
    None
}

/// Writes the names of the entries of a directory after those of its own, in their order and in
/// brackets, with `-` for a free one.
fn write_entries(bytes: &[u8], text: &mut String) -> Result<(), AllocError> {
    text.push('[')?;
    for (place, entry) in bytes.chunks_exact(ENTRY).skip(OWN_ENTRIES).enumerate() {
        if place > 0 {
            text.push(',')?;
        }
        match header_name(entry) {
            Ok(name) => write_name(&name, text)?,
            Err(_) => text.push('-')?,
        }
    }
    text.push(']')
}

fn write_name(name: &Name, text: &mut String) -> Result<(), AllocError> {
    for i in 0..name.len() {
        text.push(char::from(name.byte(i)))?;
    }
    Ok(())
}

/// What the descriptor of a file says, up to the link count.
#[derive(Clone, Copy)]
struct Described<'a>(&'a Node);

impl fmt::Display for Described<'_> {
    fn fmt<W: fmt::Write>(&self, f: &mut fmt::Formatter<W>) -> fmt::Result {
        let node = self.0;
        write!(f, "{:02x} {} ", node.attr, node.owner)?;
        write_digits(&node.modified, f)?;
        write!(f, " ")?;
        write_digits(&node.created, f)?;
        write!(f, " {}", node.links)
    }
}

fn write_digits<W: fmt::Write>(bytes: &[u8], f: &mut fmt::Formatter<W>) -> fmt::Result {
    for byte in bytes {
        write!(f, "{byte:02x}")?;
    }
    Ok(())
}
