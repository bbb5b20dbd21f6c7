ghost use Rattle.std.specs.Prelude.{◌≡◌, ◌+◌, ◌*◌, ◌≤◌, ◌++◌, ◌∷◌, [], drop, length};
ghost use Rattle.os9_base.specs.declared.registers.TimePacket.{TimePacket};
ghost use Rattle.rbf_model.specs.Fields as model;
ghost use Rattle.rbf_model.specs.Fields.{directory_entry};
ghost use Rattle.rbf_model.specs.Walk.{directory_entries};
ghost use Rattle.rbf_access.specs.Mounted.{IsMounted, OnVolume};
ghost use Rattle.vol_tools.specs.Tool.{list as list_tool};
ghost use Rattle.vol_tools.specs.Answers.{OnVolumeBefore};
ghost use Rattle.vol_tools.specs.Faults.{Faults, tool_fault};
ghost use Rattle.vol_tools.specs.Listed.{HasListing, EntryNamesFile, lines_of};
ghost use Rattle.vol_tools.specs.Opening.{AnswersBytes};

use crate::directory_names;
use crate::fault::ToolFault;
use crate::line::push_line;
use crate::opening::{Kind, open_file, read_whole};
use os9_base::errors::E_BPNAM;
use os9_outer::drive::BlockDriver;
use rbf_access::Volume;
use rbf_sector::read_entry;
use std::alloc::Global;

/// The lines of a directory by its path, for user 0 (this project's own); `/` is the root. A line
/// for each used entry except `.` and `..`, in their order: the attributes as two hexadecimal
/// digits, the size, the name, and a line feed. Nothing changes.
///
/// # Errors
///
/// In this order: `Number` 215 for an invalid path; 214 and 216 of the walk; 214 for a file that is
/// not a directory and for a directory that may not be read. `Device` if a read of the drive fails,
/// or `OutOfMemory`.
pub fn list(
    alloc: Global,
    v: &mut Volume,
    d: &mut dyn BlockDriver,
    path: &[u8],
) -> Result<Vec<u8>, ToolFault>
    requires { IsMounted v.old (media d.old) }
    ensures answer { (now : TimePacket) → OnVolumeBefore
        (record { tool = list_tool path.now; now = now }) (λ lines. lines.items)
        (media d.old) (media d.new) result }
    ensures mounted { IsMounted v.new (media d.new) }
    ensures media_kept { media d.new ≡ media d.old }
    ensures fault { Faults BlockDriver-dyn (tool_fault result) d.old d.new }
{
    let Some(names) = directory_names(alloc, path)? else {
        return Err(ToolFault::Number(E_BPNAM));
    };
    let opened = open_file(v, d, &names, Kind::Directory)?;
    let contents = read_whole(alloc, v, d, &opened)?;
    entry_lines(alloc, v, d, &contents)
}

// The lines of the entries of a directory after the first two.
fn entry_lines(
    alloc: Global,
    v: &mut Volume,
    d: &mut dyn BlockDriver,
    contents: &[u8],
) -> Result<Vec<u8>, ToolFault>
    requires mounted { IsMounted v.old (media d.old) }
    requires directory { HasListing (media d.old) contents.now }
    ensures lines { OnVolume (media d.old) (λ on. AnswersBytes
        (λ lines. lines.items ≡ lines_of on (drop 2 (directory_entries contents.now))) result) }
    ensures mounted { IsMounted v.new (media d.new) }
    ensures media_kept { media d.new ≡ media d.old }
    ensures fault { Faults BlockDriver-dyn (tool_fault result) d.old d.new }
{
    let mut lines = Vec::new(alloc);
    for place in 2..contents.len() / 32 {
        push_entry(&mut lines, v, d, &entry_at(contents, place))?;
    }
    Ok(lines)
}

// The entry in a place of a directory.
fn entry_at(contents: &[u8], place: usize) -> [u8; 32]
    requires { 32 * (place + 1) ≤ length contents.now }
    ensures { result ≡ directory_entry contents.now place }
{
    let at = 32 * place;
    let mut entry = [0; 32];
    entry.copy_from_slice(&contents[at..at + 32]);
    entry
}

// Whether the entry is used.
fn is_used(entry: &[u8; 32]) -> bool
    ensures { result ≡ model.is_used entry.now }
{
    entry[0] != 0
}

// Appends the line of an entry, if the entry is used.
fn push_entry(
    lines: &mut Vec<u8>,
    v: &mut Volume,
    d: &mut dyn BlockDriver,
    entry: &[u8; 32],
) -> Result<(), ToolFault>
    requires mounted { IsMounted v.old (media d.old) }
    requires file { EntryNamesFile (media d.old) entry.now }
    ensures line { OnVolume (media d.old) (λ on. AnswersBytes
        (λ _. lines.new.items ≡ lines.old.items ++ lines_of on (entry.now ∷ [])) result) }
    ensures mounted { IsMounted v.new (media d.new) }
    ensures media_kept { media d.new ≡ media d.old }
    ensures fault { Faults BlockDriver-dyn (tool_fault result) d.old d.new }
{
    if !is_used(entry) {
        return Ok(());
    }
    let file = v.fd(d, read_entry(entry).lsn)?;
    push_line(lines, &file, entry)?;
    Ok(())
}
