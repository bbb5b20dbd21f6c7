ghost use Rattle.std.specs.Prelude.{OnOk};
ghost use Rattle.rbf_access.specs.Mounted.{IsSoundMedia};
ghost use Rattle.vol_tools.specs.Answers.{OnVolumeBefore};
ghost use Rattle.vol_tools.specs.Faults.{Faults, tool_fault};
ghost use Rattle.vol_tools.specs.Others.{KeepsOthersBy};
ghost use Rattle.vol_tools.specs.Tail.{KeepsTailBy, OnMedia};
ghost use Rattle.vol_tools.specs.Uses.{at_time, tool_of};

use crate::ToolFault;
use crate::tool::{ToolUse, use_mounted};
use os9_base::registers::TimePacket;
use os9_outer::drive::BlockDriver;
use rbf_access::{VolFault, Volume};
use std::alloc::Global;

/// Mounts the volume of the well formed image in a drive, and uses a tool on it, for user 0 (this
/// project's own). Returns the tool's bytes, none if it has none.
///
/// # Errors
///
/// `Number` if the tool is refused; `Device` if an access of the drive fails in the mount or in the
/// tool; or out of memory.
pub fn use_tool(
    alloc: Global,
    d: &mut dyn BlockDriver,
    tool: &ToolUse,
    now: TimePacket,
) -> Result<Vec<u8>, ToolFault>
    requires { IsSoundMedia (media d.old) }
    ensures answer { OnVolumeBefore (at_time now tool.now) (λ bytes. bytes.items)
        (media d.old) (media d.new) result }
    ensures tail { OnMedia (KeepsTailBy (tool_of tool.now)) (media d.old) (media d.new) }
    ensures others { OnOk result
        (OnMedia (KeepsOthersBy (tool_of tool.now)) (media d.old) (media d.new)) }
    ensures fault { Faults BlockDriver-dyn (tool_fault result) d.old d.new }
{
    match Volume::mount(alloc, d) {
        Ok(mut volume) => use_mounted(alloc, &mut volume, d, tool, now),
        Err(VolFault::Device(number)) => Err(ToolFault::Device(number)),
        Err(VolFault::OutOfMemory) => Err(ToolFault::OutOfMemory),
        Err(VolFault::NotRbf) => unreachable!(),
    }
}
