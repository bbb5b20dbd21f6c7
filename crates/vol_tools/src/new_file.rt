ghost use Rattle.std.specs.Prelude.{[], ℕ, List, OnOk};
ghost use Rattle.rbf_access.specs.Mounted.{IsMounted};
ghost use Rattle.vol_tools.specs.Tool.{put as put_tool};
ghost use Rattle.vol_tools.specs.Answers.{OnVolumeBefore};
ghost use Rattle.vol_tools.specs.Faults.{Faults, tool_fault};
ghost use Rattle.vol_tools.specs.Making.{IsNewPlaceOf};
ghost use Rattle.vol_tools.specs.Others.{KeepsOthers};
ghost use Rattle.vol_tools.specs.Tail.{KeepsTail, OnMedia};

use crate::fault::ToolFault;
use crate::making::make_file;
use crate::{Place, new_place_of};
use os9_base::errors::E_BPNAM;
use os9_base::registers::TimePacket;
use os9_outer::drive::BlockDriver;
use rbf_access::Volume;
use rbf_write::{NewBytes, write_at};
use std::alloc::Global;

/// A file to be made: its path from the root, and its bytes.
#[derive(Clone, Copy, Debug)]
pub struct NewFile<'a> {
    pub path: &'a [u8],
    pub bytes: &'a [u8],
}

/// Makes a file with these bytes by its path, for user 0 (this project's own): its owner may read
/// and write it, others may read it.
///
/// # Errors
///
/// In this order: `Number` 215 for an invalid path or one whose last name is `.` or `..`; 214 and
/// 216 of the walk, and 214 for a directory that may not be changed; 218 if the name is there; 248
/// and 217 for the entry: then nothing has changed. 248 and 217 for the bytes: then the empty file
/// is there. `Device` if an access of the drive fails. `OutOfMemory`: then nothing has changed.
pub fn put(
    alloc: Global,
    v: &mut Volume,
    d: &mut dyn BlockDriver,
    file: &NewFile,
    now: TimePacket,
) -> Result<(), ToolFault>
    requires { IsMounted v.old (media d.old) }
    ensures answer { OnVolumeBefore
        (record { tool = put_tool file.now.path.now file.now.bytes.now; now = now }) (λ _. [])
        (media d.old) (media d.new) result }
    ensures tail { OnMedia KeepsTail (media d.old) (media d.new) }
    ensures others { OnOk result
        (OnMedia (KeepsOthers file.now.path.now) (media d.old) (media d.new)) }
    ensures mounted { IsMounted v.new (media d.new) }
    ensures fault { Faults BlockDriver-dyn (tool_fault result) d.old d.new }
{
    let Some(place) = new_place_of(alloc, file.path)? else {
        return Err(ToolFault::Number(E_BPNAM));
    };
    put_at(v, d, &place, file.bytes, now)
}

// Makes a file with these bytes at a place.
fn put_at(
    v: &mut Volume,
    d: &mut dyn BlockDriver,
    place: &Place,
    bytes: &[u8],
    now: TimePacket,
) -> Result<(), ToolFault>
    requires { IsMounted v.old (media d.old) }
    ensures answer { (path : List ℕ) → IsNewPlaceOf path place.now → OnVolumeBefore
        (record { tool = put_tool path bytes.now; now = now }) (λ _. [])
        (media d.old) (media d.new) result }
    ensures tail { OnMedia KeepsTail (media d.old) (media d.new) }
    ensures others { (path : List ℕ) → IsNewPlaceOf path place.now
        → OnOk result (OnMedia (KeepsOthers path) (media d.old) (media d.new)) }
    ensures mounted { IsMounted v.new (media d.new) }
    ensures fault { Faults BlockDriver-dyn (tool_fault result) d.old d.new }
{
    let n = make_file(v, d, place, now)?;
    let write = NewBytes {
        at: 0,
        bytes,
        date: now,
    };
    write_at(v, d, n, write)?;
    Ok(())
}
