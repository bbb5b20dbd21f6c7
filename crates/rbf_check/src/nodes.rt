ghost use Rattle.std.specs.Prelude.{◌≡◌, ◌+◌, ◌*◌, ◌≤◌, All, IfOk, length};
ghost use Rattle.rbf_model.specs.Fields.{segments_field};
ghost use Rattle.rbf_model.specs.Geometry.{sector as sector_of};
ghost use Rattle.rbf_model.specs.File.{file_at};
ghost use Rattle.rbf_check.specs.Survey.{IsSurvey};
ghost use Rattle.rbf_check.specs.VolumeNodes.{AreNodesBelow};
ghost use Rattle.rbf_check.specs.Tree.{TellsFile};

use crate::contents::read_contents;
use crate::places::{Place, list_places, place_of};
use crate::survey::Survey;
use crate::tree::{Node, Nodes};
use rbf_sector::read_fd;
use rbf_sector_rules::sector;
use std::alloc::{AllocError, Global};

// The node of a descriptor that has this place.
fn read_node(alloc: Global, image: &[u8], n: u32, place: Place) -> Result<Node, AllocError>
    requires descriptor { 256 * (n + 1) ≤ length image.now }
    requires segments { All (λ segment. 256 * (segment.0 + segment.1) ≤ length image.now)
        (segments_field (sector_of image.now n)) }
    ensures number { IfOk result (λ node. node.fd ≡ n) }
    ensures parent { IfOk result (λ node. node.parent ≡ place.parent) }
    ensures name { IfOk result (λ node. node.name ≡ place.name) }
    ensures tells { IfOk result (λ node. TellsFile node (file_at (sector_of image.now) n)) }
{
    let fd = read_fd(&sector(image, n));
    let bytes = read_contents(alloc, image, &fd.segs, fd.size)?;
    Ok(Node {
        fd: n,
        parent: place.parent,
        name: place.name,
        attr: fd.attr,
        owner: fd.owner,
        modified: fd.modified,
        created: fd.created,
        links: fd.links,
        bytes,
    })
}

/// The nodes of all files of a surveyed image.
pub fn read_nodes(alloc: Global, survey: &Survey<'_>) -> Result<Nodes, AllocError>
    requires { IsSurvey survey.now }
    ensures { IfOk result
        (λ nodes. AreNodesBelow survey.now nodes survey.now.image.ident.total) }
{
    let places = list_places(alloc, survey.image.ident.total, &survey.links)?;
    let mut nodes = Vec::with_capacity(alloc, survey.files.len())?;
    for n in 0..survey.image.ident.total {
        if let Some(place) = place_of(survey, &places, n) {
            nodes.push(read_node(alloc, survey.image.bytes, n, place)?)?;
        }
    }
    Ok(Nodes::of(nodes))
}
