ghost use Rattle.std.specs.Prelude.{◌≡◌, IfOk, IfSome};
ghost use Rattle.std.specs.Bool.{OnTrue};
ghost use Rattle.rbf_model.specs.Geometry.{sector as sector_of};
ghost use Rattle.boot_run.specs.BootFile.{IsVolume};
ghost use Rattle.boot_vectors.specs.Stops.{KeepsImageEnds};

use crate::disk::{Disk, SECTOR, keep_ends};
use crate::failing::Plan;
use crate::row::Row;
use crate::shown::run;
use crate::tree::{line, node_of};
use os9_outer::drive::DriveFault;
use os9_outer::ram_drive::PlannedFault;
use rbf_check::{CheckError, Node, Nodes, Tree, check};
use rbf_sector_rules::sector;
use std::alloc::{AllocError, Global};

/// Runs a row with a stop at each call of a drive in turn, with this fault, until no call fails in
/// a run. Returns the first stop with a wrong result, if there is one; the last run must be the one
/// of the row.
pub(crate) fn differing_stop(
    alloc: Global,
    row: &Row,
    drive: u8,
    fault: DriveFault,
) -> Result<Option<u64>, AllocError> {
    for call in 1..u64::MAX {
        let first = PlannedFault { call, fault };
        let shown = run(alloc, row, &Plan::Stop { drive, first })?;
        if shown.has_not_stopped() {
            return Ok(if shown.is_as(row) { None } else { Some(call) });
        }
        if !shown.is_stop_of(alloc, row)? {
            return Ok(Some(call));
        }
    }
    Ok(None)
}

/// Is this what a stop may leave of the image of a row? It is well formed, and it has the length,
/// the first sector and the bytes past the volume that it had, and each file that the row's run
/// leaves unchanged.
pub(crate) fn is_stop_of(alloc: Global, image: &[u8], row: &Disk) -> Result<bool, AllocError>
    ensures well_formed { IfOk result (λ is. OnTrue is (IsVolume image.now)) }
    ensures ends { IfOk result (λ is. OnTrue is (KeepsImageEnds row.now.image.items image.now)) }
{
    let Some(before) = tree(alloc, &row.image)? else {
        return Ok(false);
    };
    let Some(after) = tree(alloc, image)? else {
        return Ok(false);
    };
    let files_kept = keeps_files(alloc, row, &before.nodes, image, &after.nodes)?;
    Ok(files_kept && keep_ends(&row.image, image))
}

/// The tree of an image, if it is well formed.
fn tree(alloc: Global, image: &[u8]) -> Result<Option<Tree>, AllocError>
    ensures { IfOk result (λ tree. IfSome tree (λ _. IsVolume image.now)) }
{
    match check(alloc, image) {
        Ok(tree) => Ok(Some(tree)),
        Err(CheckError::Fault(_)) => Ok(None),
        Err(CheckError::OutOfMemory) => Err(AllocError),
    }
}

/// Does an image have each file of the image of a row whose line is also in the row's tree?
fn keeps_files(
    alloc: Global,
    row: &Disk,
    before: &Nodes,
    image: &[u8],
    after: &Nodes,
) -> Result<bool, AllocError> {
    for i in 0..before.len() {
        let file = before.node(i);
        let told = line(alloc, before, file)?;
        let stays = row
            .tree
            .as_str()
            .split(';')
            .any(|line| line == told.as_str());
        let same = descriptor(image, file) == descriptor(&row.image, file);
        if stays && !(same && has_file(alloc, after, file, told.as_str())?) {
            return Ok(false);
        }
    }
    Ok(true)
}

/// Does a file have the number, the line and the bytes of this one?
fn has_file(alloc: Global, nodes: &Nodes, file: &Node, told: &str) -> Result<bool, AllocError> {
    match node_of(nodes, file.fd) {
        None => Ok(false),
        Some(node) => {
            let same = line(alloc, nodes, node)?.as_str() == told;
            Ok(same && node.bytes.bytes() == file.bytes.bytes())
        }
    }
}

/// The descriptor of a file, if the image has its sector.
fn descriptor(image: &[u8], file: &Node) -> Option<[u8; SECTOR]>
    ensures { IfSome result (λ bytes. bytes ≡ sector_of image.now file.now.fd) }
{
    if image.len() < SECTOR * (file.fd as usize + 1) {
        return None;
    }
    Some(sector(image, file.fd))
}
