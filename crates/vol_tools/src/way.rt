ghost use Rattle.std.specs.Prelude.{◌≡◌, IfOk};
ghost use Rattle.rbf_access.specs.Mounted.{HasFile, IsMounted, OnVolume};
ghost use Rattle.vol_tools.specs.Numbers.{way_end};
ghost use Rattle.vol_tools.specs.Answers.{AnswersWay};
ghost use Rattle.vol_tools.specs.Faults.{Faults, tool_fault};

use crate::fault::ToolFault;
use os9_base::name::Name;
use os9_outer::drive::BlockDriver;
use rbf_access::Volume;
use rbf_walk::{Searcher, walk};

/// Walks from the root along names, for user 0, and returns the descriptor at their end.
pub fn way_to(v: &mut Volume, d: &mut dyn BlockDriver, names: &[Name]) -> Result<u32, ToolFault>
    requires { IsMounted v.old (media d.old) }
    ensures answer { OnVolume (media d.old) (λ on. AnswersWay (way_end on names.now) result) }
    ensures file { IfOk result (HasFile (media d.old)) }
    ensures mounted { IsMounted v.new (media d.new) }
    ensures media_kept { media d.new ≡ media d.old }
    ensures fault { Faults BlockDriver-dyn (tool_fault result) d.old d.new }
{
    let root = v.root();
    let by = Searcher {
        user: 0,
        execute: false,
    };
    let n = walk(v, d, root, names, by)?;
    Ok(n)
}
