//! A file of modules in memory.

ghost use Rattle.std.specs.Prelude.{◌≡◌, ℕ, ◌≤◌, false, IsSome, Ok, Option, List, length};
ghost use Rattle.load_calls.specs.Entering.{CanEnter, ComesLoaded, EntersFile, IsOfGroup, TriesFile};
ghost use Rattle.file_rules.specs.Load.{Loaded, Loads};
ghost use Rattle.guest_memory.specs.Tie.{RepresentsMemory, modules_of};
ghost use Rattle.os9_base.specs.declared.limits.TheConstants.{MOST_GROUP_BYTES};
ghost use Rattle.proc_model.specs.Loading.{EntersModules};
ghost use Rattle.proc_model.specs.Memory.{MemoryState, with_modules};
ghost use Rattle.proc_model.specs.Module.{step_from};
ghost use Rattle.proc_model.specs.ModuleList.{ModuleEntry, module_entry_at};

use crate::trial::try_file;
use guest_memory::memory::Memory;
use module_format::next_module;
use proc_model::module::{ModId, ModuleInfo, ModuleStep};

/// Loads a file of modules into new blocks and enters its modules, in order, as one group (System
/// Programmer's Manual, F$Load). Returns the number of the first.
///
/// # Errors
///
/// Those of `try_file`. Nothing has changed then.
pub fn enter_file(memory: &mut Memory, file: &[u8]) -> Result<ModId, u8>
    requires short { length file.now ≤ MOST_GROUP_BYTES }
    ensures loads { (m : MemoryState) → RepresentsMemory memory.old m
        → EntersFile file.now m result memory.new }
{
    match try_file(memory, file) {
        Err(number) => Err(number),
        Ok(first) => Ok(enter_tried(memory, file, first)),
    }
}

/// Loads a tried file with this first module into new blocks, and enters its modules, in order, as
/// one group. Returns the number of the first.
pub fn enter_tried(memory: &mut Memory, file: &[u8], first: ModuleInfo) -> ModId
    requires short { length file.now ≤ MOST_GROUP_BYTES }
    requires tried { (m : MemoryState) → RepresentsMemory memory.old m
        → TriesFile file.now m (Ok first) }
    requires first { step_from file.now 0 ≡ ModuleStep.Module first }
    ensures loads { (m : MemoryState) (loaded : Loaded) → RepresentsMemory memory.old m
        → Loads m file.now (Ok loaded) → ComesLoaded m (Ok loaded) (Ok result) memory.new }
    ensures entered { IsSome (module_entry_at (modules_of memory.new) result.0) }
    ensures stay { (number : ℕ) → IsSome (module_entry_at (modules_of memory.old) number)
        → IsSome (module_entry_at (modules_of memory.new) number) }
{
    let rest = first.at + u32::from(first.size);
    match memory.enter(file, first, false) {
        Err(_) => unreachable!(),
        Ok(id) => {
            enter_others(memory, file, id, rest);
            id
        }
    }
}

/// Enters the tried modules of a file from place `start` on, in the group of the module of this
/// number.
fn enter_others(memory: &mut Memory, file: &[u8], id: ModId, start: u32)
    requires short { length file.now ≤ MOST_GROUP_BYTES }
    requires within { start ≤ length file.now }
    requires can { CanEnter file.now id.0 start memory.old }
    ensures entered { (m : MemoryState) (group : List ℕ) (after : List (Option ModuleEntry))
        → RepresentsMemory memory.old m → IsOfGroup group id.0 m
        → EntersModules file.now group false start m.modules (Ok after)
        → RepresentsMemory memory.new (with_modules m after) }
{
    let mut from = start;
    loop {
        match next_module(file, from) {
            ModuleStep::End => return,
            ModuleStep::Fault(_, _) => unreachable!(),
            ModuleStep::Module(info) => {
                from = info.at + u32::from(info.size);
                memory.enter_beside(id, info);
            }
        }
    }
}
