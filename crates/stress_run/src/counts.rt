//! The counts of the volume that a run leaves.

ghost use Rattle.std.specs.Prelude.{◌≡◌, List, ℕ, IfErr, IfOk};
ghost use Rattle.rbf_check.specs.Tree.{IsTreeOf};
ghost use Rattle.rbf_check.specs.Verdict.{RepresentsNone};
ghost use Rattle.rbf_model.specs.Geometry.{image_geometry};
ghost use Rattle.rbf_model.specs.Volume.{DiskVolume, Vol};
ghost use Rattle.stress_run.specs.Counts as model;
ghost use Rattle.stress_run.specs.Counts.{counts_with};
ghost use Rattle.stress_run.specs.Nodes.{node_size};

use os9_words::stress_counts::StressCounts;
use rbf_check::{CheckError, Node, Tree, check};
use std::alloc::Global;

/// The counts of the volume that an image represents, after a number of slices.
///
/// # Errors
///
/// The error of `check` on the image.
pub(crate) fn count_volume(
    alloc: Global,
    slices: u32,
    image: &[u8],
) -> Result<StressCounts, CheckError>
    ensures counts { IfOk result (λ counts. (v : DiskVolume) → Vol image.now v
        → counts ≡ counts_with slices v) }
    ensures no_volume { IfErr result (RepresentsNone image.now) }
{
    let tree = check(alloc, image)?;
    Ok(StressCounts {
        slices,
        files: tree.files(),
        bytes: file_bytes(&tree),
        free: tree.free,
        lost: tree.lost,
    })
}

/// The sum of the sizes of all files of a tree that are not directories.
fn file_bytes(tree: &Tree) -> u64
    requires { (image : List ℕ) × IsTreeOf image tree.now }
    ensures { (image : List ℕ) (is : IsTreeOf image tree.now)
        → result ≡ model.file_bytes (image_geometry image) is.volume }
{
    let mut bytes = 0;
    for place in 0..tree.nodes.len() {
        bytes += data_size(tree.nodes.node(place));
    }
    bytes
}

/// The size of a file that is not a directory.
fn data_size(node: &Node) -> u64
    ensures { result ≡ node_size node.now }
{
    if node.is_directory() {
        0
    } else {
        node.bytes.bytes().len() as u64
    }
}
