ghost use Rattle.std.specs.Prelude.{◌≡◌};
ghost use Rattle.os9_base.specs.declared.registers.TimePacket.{TimePacket};
ghost use Rattle.rbf_access.specs.Mounted.{IsMounted};
ghost use Rattle.vol_tools.specs.Tool.{get as get_tool};
ghost use Rattle.vol_tools.specs.Answers.{OnVolumeBefore};
ghost use Rattle.vol_tools.specs.Faults.{Faults, tool_fault};

use crate::fault::ToolFault;
use crate::opening::{Kind, open_file, read_whole};
use crate::path_names;
use os9_base::errors::E_BPNAM;
use os9_outer::drive::BlockDriver;
use rbf_access::Volume;
use std::alloc::Global;

/// The bytes of a file by its path, for user 0 (this project's own). Nothing changes.
///
/// # Errors
///
/// In this order: `Number` 215 for an invalid path; 214 and 216 of the walk; 214 for a directory
/// and for a file that may not be read. `Device` if a read of the drive fails, or `OutOfMemory`.
pub fn get(
    alloc: Global,
    v: &mut Volume,
    d: &mut dyn BlockDriver,
    path: &[u8],
) -> Result<Vec<u8>, ToolFault>
    requires { IsMounted v.old (media d.old) }
    ensures answer { (now : TimePacket) → OnVolumeBefore
        (record { tool = get_tool path.now; now = now }) (λ bytes. bytes.items)
        (media d.old) (media d.new) result }
    ensures mounted { IsMounted v.new (media d.new) }
    ensures media_kept { media d.new ≡ media d.old }
    ensures fault { Faults BlockDriver-dyn (tool_fault result) d.old d.new }
{
    let Some(names) = path_names(alloc, path)? else {
        return Err(ToolFault::Number(E_BPNAM));
    };
    let opened = open_file(v, d, &names, Kind::File)?;
    read_whole(alloc, v, d, &opened)
}
