ghost use Rattle.std.specs.Prelude.{◌≡◌, ◌^◌, ◌<◌, not, count_by, length, slice_get, Some};
ghost use Rattle.rbf_check.specs.Tree.{is_directory_node};

use os9_base::name::Name;
use std::marker::Model;

/// The contents of a file. Clauses see them as the list of the bytes.
#[derive(Debug, Drop)]
pub struct FileBytes {
    bytes: Vec<u8>,
}

impl Model for FileBytes {
    ghost use Rattle.std.specs.Prelude.{ℕ, List};

    ghost Value = { List ℕ };

    ghost view = { λ it. it.bytes.items };
}

impl FileBytes {
    // These bytes.
    pub(crate) fn of(bytes: Vec<u8>) -> FileBytes
        ensures { result ≡ bytes.items }
    {
        FileBytes { bytes }
    }

    /// The bytes, in order.
    pub fn bytes(&self) -> &[u8]
        ensures { result.now ≡ self.now }
    {
        self.bytes.as_slice()
    }
}

/// A file or a directory of a volume: its descriptor's number, the directory that names it, its
/// name there, its descriptor's fields, and its contents (OS-9 Technical Reference, Random Block
/// File Manager, "File Descriptors").
///
/// The root has itself as parent and the name `.`. `modified` is year, month, day, hour and
/// minute, `created` year, month and day; the year is counted from 1900.
#[derive(Debug, Drop)]
pub struct Node {
    pub fd: u32,
    pub parent: u32,
    pub name: Name,
    pub attr: u8,
    pub owner: u16,
    pub modified: [u8; 5],
    pub created: [u8; 3],
    pub links: u8,
    pub bytes: FileBytes,
}

impl Node {
    /// Whether it is a directory.
    pub fn is_directory(&self) -> bool
        ensures { result ≡ is_directory_node self.now }
    {
        self.attr >> 7 == 1
    }
}

/// The files and directories of a volume, by rising descriptor number. Clauses see them as a list.
#[derive(Debug, Drop)]
pub struct Nodes {
    nodes: Vec<Node>,
}

impl Model for Nodes {
    ghost use Rattle.std.specs.Prelude.{◌^◌, ◌<◌, List, length};
    ghost use Rattle.rbf_check.specs.declared.tree.Node.{Node};

    ghost Value = { List Node };

    ghost view = { λ it. it.nodes.items };

    ghost invariant = { λ it. length it.nodes.items < 2 ^ 32 };
}

impl Nodes {
    // These nodes.
    pub(crate) fn of(nodes: Vec<Node>) -> Nodes
        requires { length nodes.items < 2 ^ 32 }
        ensures { result ≡ nodes.items }
    {
        Nodes { nodes }
    }

    /// The number of nodes.
    pub fn len(&self) -> u32
        ensures { result ≡ length self.now }
    {
        self.nodes.len() as u32
    }

    /// The node in place `i`.
    pub fn node(&self, i: u32) -> &Node
        requires { i < length self.now }
        ensures { slice_get self.now i ≡ Some result.now }
    {
        &self.nodes[i as usize]
    }

    // The number of files that are not directories.
    fn files(&self) -> u32
        ensures { result ≡ count_by (λ node. not (is_directory_node node)) self.now }
    {
        self.nodes
            .iter()
            .filter(|node| !node.is_directory())
            .count() as u32
    }

    // The number of directories.
    fn directories(&self) -> u32
        ensures { result ≡ count_by is_directory_node self.now }
    {
        self.nodes.iter().filter(|node| node.is_directory()).count() as u32
    }
}

/// What an image holds: its files and directories, the number of free clusters, and the number of
/// lost clusters, which are whole, marked and in no file.
#[derive(Debug, Drop)]
pub struct Tree {
    pub nodes: Nodes,
    pub free: u32,
    pub lost: u32,
}

impl Tree {
    /// The number of files that are not directories.
    pub fn files(&self) -> u32
        ensures { result ≡ count_by (λ node. not (is_directory_node node)) self.now.nodes }
    {
        self.nodes.files()
    }

    /// The number of directories, including the root.
    pub fn directories(&self) -> u32
        ensures { result ≡ count_by is_directory_node self.now.nodes }
    {
        self.nodes.directories()
    }
}
