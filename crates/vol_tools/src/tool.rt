ghost use Rattle.std.specs.Prelude.{◌≡◌, OnOk};
ghost use Rattle.rbf_access.specs.Mounted.{IsMounted};
ghost use Rattle.vol_tools.specs.Answers.{OnVolumeBefore};
ghost use Rattle.vol_tools.specs.Faults.{Faults, tool_fault};
ghost use Rattle.vol_tools.specs.Others.{KeepsOthersBy};
ghost use Rattle.vol_tools.specs.Tail.{KeepsTailBy, OnMedia};
ghost use Rattle.vol_tools.specs.Uses.{AnswersNoBytes, at_time, tool_of};

use crate::{NewFile, ToolFault, get, list, mkdir, put, remove};
use os9_base::registers::TimePacket;
use os9_outer::drive::BlockDriver;
use rbf_access::Volume;
use std::alloc::Global;

/// A tool for a volume, with its arguments. The paths are of names joined by `/`, from the root.
#[derive(Clone, Copy, Debug)]
pub enum ToolUse<'a> {
    /// Makes a file with these bytes.
    Put(NewFile<'a>),
    /// Returns the bytes of a file.
    Get(&'a [u8]),
    /// Makes a directory.
    Mkdir(&'a [u8]),
    /// Deletes a file.
    Remove(&'a [u8]),
    /// Returns the lines of a directory.
    List(&'a [u8]),
}

/// Uses a tool on a mounted volume, for user 0, and returns its bytes, none if it has none.
pub fn use_mounted(
    alloc: Global,
    v: &mut Volume,
    d: &mut dyn BlockDriver,
    tool: &ToolUse,
    now: TimePacket,
) -> Result<Vec<u8>, ToolFault>
    requires { IsMounted v.old (media d.old) }
    ensures answer { OnVolumeBefore (at_time now tool.now) (λ bytes. bytes.items)
        (media d.old) (media d.new) result }
    ensures tail { OnMedia (KeepsTailBy (tool_of tool.now)) (media d.old) (media d.new) }
    ensures others { OnOk result
        (OnMedia (KeepsOthersBy (tool_of tool.now)) (media d.old) (media d.new)) }
    ensures fault { Faults BlockDriver-dyn (tool_fault result) d.old d.new }
{
    match tool {
        ToolUse::Put(file) => no_bytes(alloc, put(alloc, v, d, file, now)),
        ToolUse::Get(path) => get(alloc, v, d, path),
        ToolUse::Mkdir(path) => no_bytes(alloc, mkdir(alloc, v, d, path, now)),
        ToolUse::Remove(path) => no_bytes(alloc, remove(alloc, v, d, path)),
        ToolUse::List(path) => list(alloc, v, d, path),
    }
}

/// The answer of a tool without bytes.
fn no_bytes(alloc: Global, done: Result<(), ToolFault>) -> Result<Vec<u8>, ToolFault>
    ensures { AnswersNoBytes (λ bytes. bytes.items) done result }
{
    match done {
        Ok(()) => Ok(Vec::new(alloc)),
        Err(fault) => Err(fault),
    }
}
