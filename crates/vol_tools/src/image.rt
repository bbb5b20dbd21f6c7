ghost use Rattle.std.specs.Prelude.{IfErr, IfOk};
ghost use Rattle.rbf_check.specs.Verdict.{IsErrorOf};
ghost use Rattle.vol_tools.specs.Repair.{IsRepaired};

use crate::clear::clear_marks;
use rbf_check::{CheckError, lost_list};
use std::alloc::Global;

/// An image without lost clusters.
#[derive(Debug, Drop)]
pub struct Repaired {
    pub image: Vec<u8>,
    /// The number of clusters that were lost and are free now.
    pub freed: u32,
}

/// Clears the marks of the lost clusters of an image (this project's own). All other bits of the
/// image are unchanged.
///
/// # Errors
///
/// Those of [`rbf_check::check`].
pub fn repair(alloc: Global, mut image: Vec<u8>) -> Result<Repaired, CheckError>
    ensures repaired { IfOk result (IsRepaired image.items) }
    ensures fault { IfErr result (IsErrorOf image.items) }
{
    let lost = lost_list(alloc, &image)?;
    clear_marks(&mut image, &lost);
    Ok(Repaired {
        image,
        freed: lost.len() as u32,
    })
}
