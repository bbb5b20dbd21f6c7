//! The file of modules at the front of the buffer.

ghost use Rattle.std.specs.Prelude.{◌≡◌, ◌≤◌, IfOk, IsSome, Ok, take};
ghost use Rattle.proc_model.specs.Processes.{Processes};
ghost use Rattle.load_calls.specs.Entering.{TriesFile};
ghost use Rattle.file_rules.specs.Load.{Loaded, Loads};
ghost use Rattle.guest_memory.specs.Tie.{RepresentsMemory, modules_of};
ghost use Rattle.load_calls.specs.Loading.{HasFirstModule, IsEnteredIn};
ghost use Rattle.os9_base.specs.declared.limits.TheConstants.{MOST_GROUP_BYTES as MOST};
ghost use Rattle.proc_model.specs.Memory.{MemoryState};
ghost use Rattle.proc_model.specs.ModuleList.{module_entry_at};
ghost use Rattle.proc_state.specs.Tie.{RepresentsProcesses};

use crate::entering::enter_tried;
use crate::trial::try_file;
use proc_model::module::{ModId, ModuleInfo};
use proc_state::state::ProcState;

/// The header of the first module of the file of `size` bytes at the front of the buffer, if the
/// file can be loaded and its modules entered (System Programmer's Manual, F$Load).
///
/// # Errors
///
/// Those of `try_file`.
pub(crate) fn try_front(s: &ProcState, size: u16) -> Result<ModuleInfo, u8>
    requires short { size ≤ MOST }
    ensures tries { (m : MemoryState) → RepresentsMemory s.now.memory m
        → TriesFile (take size s.now.buffer.items) m result }
    ensures first { IfOk result (HasFirstModule (take size s.now.buffer.items)) }
{
    try_file(&s.memory, &s.buffer[..size as usize])
}

/// Loads the file of `size` bytes at the front of the buffer, which was tried and has this first
/// module, and enters its modules. Returns the number of the first.
pub(crate) fn enter_front(s: &mut ProcState, size: u16, first: ModuleInfo) -> ModId
    requires short { size ≤ MOST }
    requires tried { (m : MemoryState) → RepresentsMemory s.old.memory m
        → TriesFile (take size s.old.buffer.items) m (Ok first) }
    requires first { HasFirstModule (take size s.old.buffer.items) first }
    ensures loads { (m : Processes) (loaded : Loaded) → RepresentsProcesses s.old m
        → Loads m.memory (take size s.old.buffer.items) (Ok loaded)
        → IsEnteredIn m loaded result s.new }
    ensures entered { IsSome (module_entry_at (modules_of s.new.memory) result.0) }
    ensures records { s.new.table ≡ s.old.table }
{
    let file = &s.buffer[..size as usize];
    enter_tried(&mut s.memory, file, first)
}
