ghost use Rattle.std.specs.Prelude.{IfErr, IfOk};
ghost use Rattle.rbf_check.specs.Verdict.{IsErrorOf, RepresentsNone};
ghost use Rattle.rbf_check.specs.Tree.{IsTreeOf};

use crate::faults::CheckError;
use crate::nodes::read_nodes;
use crate::space::measure_space;
use crate::survey::survey_image;
use crate::tree::Tree;
use std::alloc::Global;

/// Checks an image against the rules of well formed RBF volumes, and returns the tree of the volume
/// that it represents.
///
/// # Errors
///
/// `Fault` with the least rule that the image breaks, at the least sector: if and only if the image
/// does not represent a volume, unless out of memory. `OutOfMemory` if out of memory.
#[tactic(auto, using(crate::proofs::NoVolume::represents_none))]
pub fn check(alloc: Global, image: &[u8]) -> Result<Tree, CheckError>
    ensures tree { IfOk result (IsTreeOf image.now) }
    ensures fault { IfErr result (IsErrorOf image.now) }
    ensures no_volume { IfErr result (RepresentsNone image.now) }
{
    let survey = survey_image(alloc, image)?;
    let nodes = read_nodes(alloc, &survey)?;
    let space = measure_space(alloc, &survey)?;
    Ok(Tree {
        nodes,
        free: space.free,
        lost: space.lost,
    })
}
