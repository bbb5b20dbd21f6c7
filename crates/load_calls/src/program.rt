//! A program in a file, and the room it needs.

ghost use Rattle.std.specs.Prelude.{◌≡◌, ◌≤◌, ◌<◌, IsSome, Ok, take};
ghost use Rattle.proc_model.specs.Processes.{Processes};
ghost use Rattle.load_calls.specs.Entering.{TriesFile};
ghost use Rattle.file_rules.specs.Load.{Loaded, Loads};
ghost use Rattle.file_rules.specs.Program.{parameters_of};
ghost use Rattle.file_rules.specs.ProgramFile.{ProgramFile};
ghost use Rattle.guest_memory.specs.Tie.{RepresentsMemory, modules_of};
ghost use Rattle.load_calls.specs.Loading.{HasFirstModule};
ghost use Rattle.load_calls.specs.Starting as model;
ghost use Rattle.load_calls.specs.Starting.{IsProgramIn};
ghost use Rattle.os9_base.specs.declared.limits.TheConstants.{MOST_GROUP_BYTES as MOST};
ghost use Rattle.proc_model.specs.Memory.{MemoryState};
ghost use Rattle.proc_model.specs.ModuleList.{module_entry_at};
ghost use Rattle.proc_model.specs.Records.{IsLiving};
ghost use Rattle.proc_state.specs.Tie.{RepresentsProcesses};
ghost use Rattle.load_calls.specs.Reading.{IsInBuffer};

use crate::front::enter_front;
use crate::reading::ProgramRead;
use fork_calls::naming::area_pages;
use fork_calls::program::NamedProgram;
use guest_memory::memory::Memory;
use os9_base::errors::{E_MEMFUL, E_NORAM};
use os9_base::limits::MAP_SLOTS;
use os9_base::registers::Pid;
use proc_calls::program::{MOST_PAGES, blocks_of_pages};
use proc_model::module::ModuleInfo;
use proc_state::state::ProcState;

/// The type and language of a program in 6809 code (Level Two manual, "Memory modules").
pub(crate) const PROGRAM: u8 = 0x11;

/// The number with which a start of a program with a data area of `pages` pages is refused, whose
/// file is first loaded into `group` blocks (System Programmer's Manual, F$Fork and F$Chain):
/// E$MemFul exactly if the data area has more than 57,344 bytes or there are too few slots, else
/// E$NoRAM exactly if too few blocks are free, counting those of the process's own data area as
/// free. None if there is room.
pub(crate) fn start_refusal(memory: &Memory, p: Pid, group: u8, pages: u16) -> Option<u8>
    requires process { p.0 < 33 }
    requires few { group ≤ 7 }
    ensures { (m : MemoryState) → RepresentsMemory memory.now m
        → result ≡ model.start_refusal m p.0 group pages }
{
    if pages > MOST_PAGES {
        return Some(E_MEMFUL);
    }
    let wanted = blocks_of_pages(pages) + group;
    if wanted > MAP_SLOTS {
        return Some(E_MEMFUL);
    }
    if u32::from(memory.free_blocks()) + u32::from(memory.area(p)) < u32::from(wanted) {
        return Some(E_NORAM);
    }
    None
}

/// Loads the file at the front of the buffer, which was tried and has this first module, and enters
/// its modules. Returns the program that it is, by the registers of the process that starts it. The
/// program's parameters are at the front of the buffer then.
pub(crate) fn enter_program(
    s: &mut ProcState,
    p: Pid,
    read: ProgramRead,
    first: ModuleInfo,
) -> NamedProgram
    requires lives { IsLiving s.old.table p.0 }
    requires short { read.size ≤ MOST }
    requires tried { (m : MemoryState) → RepresentsMemory s.old.memory m
        → TriesFile (take read.size s.old.buffer.items) m (Ok first) }
    requires first { HasFirstModule (take read.size s.old.buffer.items) first }
    ensures enters { (m : Processes) (file : ProgramFile) (loaded : Loaded)
        → RepresentsProcesses s.old m → IsInBuffer s.old.buffer.items file read
        → Loads m.memory file.bytes (Ok loaded) → IsSome (parameters_of m p.0)
        → IsProgramIn m p.0 file loaded result s.new }
    ensures entered { IsSome (module_entry_at (modules_of s.new.memory) result.id.0) }
    ensures lives { IsLiving s.new.table p.0 }
{
    let regs = s.regs(p);
    let pages = area_pages(first.storage, regs.b, regs.y);
    let id = enter_front(s, read.size, first);
    let _ = s.read_bytes(p, regs.u, regs.y);
    NamedProgram {
        id,
        pages,
        parameters: regs.y,
        count: read.next.saturating_sub(u32::from(regs.x)),
    }
}
