ghost use Rattle.std.specs.Prelude.{[], OnOk};
ghost use Rattle.rbf_access.specs.Mounted.{IsMounted};
ghost use Rattle.vol_tools.specs.Tool.{mkdir as mkdir_tool};
ghost use Rattle.vol_tools.specs.Answers.{OnVolumeBefore};
ghost use Rattle.vol_tools.specs.Faults.{Faults, tool_fault};
ghost use Rattle.vol_tools.specs.Others.{KeepsOthers};
ghost use Rattle.vol_tools.specs.Tail.{KeepsTail, OnMedia};

use crate::fault::ToolFault;
use crate::making::make_folder;
use crate::new_place_of;
use os9_base::errors::E_BPNAM;
use os9_base::registers::TimePacket;
use os9_outer::drive::BlockDriver;
use rbf_access::Volume;
use std::alloc::Global;

/// Makes a directory by its path, for user 0 (this project's own). All users have all permissions.
///
/// # Errors
///
/// In this order: `Number` 215 for an invalid path or one whose last name is `.` or `..`; 214 and
/// 216 of the walk, and 214 for a parent that may not be changed; 218 if the name is there; 248 and
/// 217. Then nothing has changed. `Device` if an access of the drive fails: then the tree is
/// unchanged, and clusters may be lost. `OutOfMemory`: then nothing has changed.
pub fn mkdir(
    alloc: Global,
    v: &mut Volume,
    d: &mut dyn BlockDriver,
    path: &[u8],
    now: TimePacket,
) -> Result<(), ToolFault>
    requires { IsMounted v.old (media d.old) }
    ensures answer { OnVolumeBefore (record { tool = mkdir_tool path.now; now = now }) (λ _. [])
        (media d.old) (media d.new) result }
    ensures tail { OnMedia KeepsTail (media d.old) (media d.new) }
    ensures others { OnOk result (OnMedia (KeepsOthers path.now) (media d.old) (media d.new)) }
    ensures mounted { IsMounted v.new (media d.new) }
    ensures fault { Faults BlockDriver-dyn (tool_fault result) d.old d.new }
{
    let Some(place) = new_place_of(alloc, path)? else {
        return Err(ToolFault::Number(E_BPNAM));
    };
    let _ = make_folder(v, d, &place, now)?;
    Ok(())
}
