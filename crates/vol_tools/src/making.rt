ghost use Rattle.std.specs.Prelude.{ℕ, List, IfOk, OnOk};
ghost use Rattle.rbf_access.specs.Mounted.{IsMounted};
ghost use Rattle.rbf_write.specs.Files.{HasDataFile};
ghost use Rattle.vol_tools.specs.Faults.{Faults, tool_fault};
ghost use Rattle.vol_tools.specs.Making.{IsNewPlaceOf, MakesOn, new_directory, new_file};
ghost use Rattle.vol_tools.specs.Others.{KeepsOthers};
ghost use Rattle.vol_tools.specs.Tail.{KeepsTail, OnMedia};

use crate::Place;
use crate::fault::ToolFault;
use crate::way::way_to;
use os9_base::registers::TimePacket;
use os9_outer::drive::BlockDriver;
use rbf_access::Volume;
use rbf_entries::{NewEntry, create, make_dir};
use rbf_walk::Searcher;

/// The attributes of a file made by `put`: its owner may read and write it, others may read it.
const FILE_ATTRIBUTES: u8 = 0x0b;

/// The attributes of a directory: all users have all permissions.
const DIRECTORY_ATTRIBUTES: u8 = 0xbf;

/// Makes an empty file at a place, for user 0, and returns the number of its descriptor.
pub fn make_file(
    v: &mut Volume,
    d: &mut dyn BlockDriver,
    place: &Place,
    now: TimePacket,
) -> Result<u32, ToolFault>
    requires { IsMounted v.old (media d.old) }
    ensures answer { MakesOn (new_file now) place.now (media d.old) (media d.new) result }
    ensures data { IfOk result (HasDataFile (media d.new)) }
    ensures tail { OnMedia KeepsTail (media d.old) (media d.new) }
    ensures others { (path : List ℕ) → IsNewPlaceOf path place.now
        → OnOk result (OnMedia (KeepsOthers path) (media d.old) (media d.new)) }
    ensures mounted { IsMounted v.new (media d.new) }
    ensures fault { Faults BlockDriver-dyn (tool_fault result) d.old d.new }
{
    let dir = way_to(v, d, &place.way)?;
    let file = NewEntry {
        name: place.name,
        attr: FILE_ATTRIBUTES,
        date: now,
    };
    let by = Searcher {
        user: 0,
        execute: false,
    };
    let n = create(v, d, dir, &file, by)?;
    Ok(n)
}

/// Makes a directory at a place, for user 0, and returns the number of its descriptor.
pub fn make_folder(
    v: &mut Volume,
    d: &mut dyn BlockDriver,
    place: &Place,
    now: TimePacket,
) -> Result<u32, ToolFault>
    requires { IsMounted v.old (media d.old) }
    ensures answer { MakesOn (new_directory now) place.now (media d.old) (media d.new) result }
    ensures tail { OnMedia KeepsTail (media d.old) (media d.new) }
    ensures others { (path : List ℕ) → IsNewPlaceOf path place.now
        → OnOk result (OnMedia (KeepsOthers path) (media d.old) (media d.new)) }
    ensures mounted { IsMounted v.new (media d.new) }
    ensures fault { Faults BlockDriver-dyn (tool_fault result) d.old d.new }
{
    let dir = way_to(v, d, &place.way)?;
    let file = NewEntry {
        name: place.name,
        attr: DIRECTORY_ATTRIBUTES,
        date: now,
    };
    let n = make_dir(v, d, dir, &file, 0)?;
    Ok(n)
}
