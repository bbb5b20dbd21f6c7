ghost use Rattle.std.specs.Prelude.{◌≡◌, [], ℕ, List, OnOk, Some};
ghost use Rattle.os9_base.specs.declared.registers.TimePacket.{TimePacket};
ghost use Rattle.rbf_access.specs.Mounted.{IsMounted};
ghost use Rattle.vol_tools.specs.Names.{place as place_model};
ghost use Rattle.vol_tools.specs.Path.{place_of as place_of_model};
ghost use Rattle.vol_tools.specs.Tool.{remove as remove_tool};
ghost use Rattle.vol_tools.specs.Answers.{OnVolumeBefore};
ghost use Rattle.vol_tools.specs.Faults.{Faults, tool_fault};
ghost use Rattle.vol_tools.specs.Others.{KeepsOthers};
ghost use Rattle.vol_tools.specs.Tail.{KeepsTailUnused, OnMedia};

use crate::fault::ToolFault;
use crate::way::way_to;
use crate::{Place, place_of};
use os9_base::errors::E_BPNAM;
use os9_outer::drive::BlockDriver;
use rbf_access::Volume;
use rbf_entries::delete;
use rbf_walk::Searcher;
use std::alloc::Global;

/// Deletes a file by its path, for user 0 (this project's own).
///
/// # Errors
///
/// In this order: `Number` 215 for an invalid path; 214 and 216 of the walk, and 214 for a
/// directory that may not be changed; 216 if the name is not there; 214 for a directory and for a
/// file that may not be written. Then nothing has changed. `Device` if an access of the drive
/// fails: then nothing has changed, or the file is removed and some of its clusters may be lost.
/// `OutOfMemory`: then nothing has changed.
pub fn remove(
    alloc: Global,
    v: &mut Volume,
    d: &mut dyn BlockDriver,
    path: &[u8],
) -> Result<(), ToolFault>
    requires { IsMounted v.old (media d.old) }
    ensures answer { (now : TimePacket) → OnVolumeBefore
        (record { tool = remove_tool path.now; now = now }) (λ _. [])
        (media d.old) (media d.new) result }
    ensures tail { OnMedia KeepsTailUnused (media d.old) (media d.new) }
    ensures others { OnOk result (OnMedia (KeepsOthers path.now) (media d.old) (media d.new)) }
    ensures mounted { IsMounted v.new (media d.new) }
    ensures fault { Faults BlockDriver-dyn (tool_fault result) d.old d.new }
{
    let Some(place) = place_of(alloc, path)? else {
        return Err(ToolFault::Number(E_BPNAM));
    };
    remove_at(v, d, &place)
}

// Deletes the file at a place.
fn remove_at(v: &mut Volume, d: &mut dyn BlockDriver, place: &Place) -> Result<(), ToolFault>
    requires { IsMounted v.old (media d.old) }
    ensures answer { (path : List ℕ) (now : TimePacket)
        → place_of_model path ≡ Some (place_model place.now)
        → OnVolumeBefore (record { tool = remove_tool path; now = now }) (λ _. [])
        (media d.old) (media d.new) result }
    ensures tail { OnMedia KeepsTailUnused (media d.old) (media d.new) }
    ensures others { (path : List ℕ) → place_of_model path ≡ Some (place_model place.now)
        → OnOk result (OnMedia (KeepsOthers path) (media d.old) (media d.new)) }
    ensures mounted { IsMounted v.new (media d.new) }
    ensures fault { Faults BlockDriver-dyn (tool_fault result) d.old d.new }
{
    let dir = way_to(v, d, &place.way)?;
    let by = Searcher {
        user: 0,
        execute: false,
    };
    delete(v, d, dir, &place.name, by)?;
    Ok(())
}
