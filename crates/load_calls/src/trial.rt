//! The trial of a file of modules before it is entered.

ghost use Rattle.std.specs.Prelude.{◌≡◌, ℕ, ◌≤◌, false, IfOk, Ok, Option, List, length};
ghost use Rattle.load_calls.specs.Entering.{TriesFile};
ghost use Rattle.guest_memory.specs.Tie.{RepresentsMemory};
ghost use Rattle.os9_base.specs.declared.limits.TheConstants.{MOST_GROUP_BYTES};
ghost use Rattle.proc_model.specs.Loading.{EntersModules};
ghost use Rattle.proc_model.specs.Memory.{MemoryState};
ghost use Rattle.proc_model.specs.Module.{step_from};
ghost use Rattle.proc_model.specs.ModuleList.{ModuleEntry};
ghost use Rattle.proc_model.specs.Objects.{block_count};

use crate::trying::try_modules;
use guest_memory::memory::Memory;
use module_format::next_module;
use os9_base::errors::{E_BMID, E_NORAM};
use os9_base::limits::BLOCK_BYTES;
use proc_model::module::{ModuleInfo, ModuleStep};

/// The header of the first module of a file, if the file can be loaded and its modules entered
/// (System Programmer's Manual, F$Load). Nothing is entered.
///
/// # Errors
///
/// That of the first refused module, as for `try_modules`; else E$BMID exactly if the file has no
/// module, else E$NoRAM exactly if fewer blocks are free than it needs.
pub fn try_file(memory: &Memory, file: &[u8]) -> Result<ModuleInfo, u8>
    requires short { length file.now ≤ MOST_GROUP_BYTES }
    ensures tries { (m : MemoryState) → RepresentsMemory memory.now m
        → TriesFile file.now m result }
    ensures first { IfOk result (λ info. step_from file.now 0 ≡ ModuleStep.Module info) }
{
    match try_modules(memory.modules(), file) {
        Err(number) => Err(number),
        Ok(()) => try_room(memory, file),
    }
}

/// The same for a file whose modules were tried.
///
/// # Errors
///
/// E$BMID exactly if the file has no module, else E$NoRAM exactly if fewer blocks are free than it
/// needs.
fn try_room(memory: &Memory, file: &[u8]) -> Result<ModuleInfo, u8>
    requires short { length file.now ≤ MOST_GROUP_BYTES }
    requires tried { (m : MemoryState) (group : List ℕ) → RepresentsMemory memory.now m
        → (after : List (Option ModuleEntry))
        × EntersModules file.now group false 0 m.modules (Ok after) }
    ensures tries { (m : MemoryState) → RepresentsMemory memory.now m
        → TriesFile file.now m result }
    ensures first { IfOk result (λ info. step_from file.now 0 ≡ ModuleStep.Module info) }
{
    match next_module(file, 0) {
        ModuleStep::End => Err(E_BMID),
        ModuleStep::Fault(_, _) => unreachable!(),
        ModuleStep::Module(info) => {
            if memory.free_blocks() < u16::from(blocks_of(file.len())) {
                Err(E_NORAM)
            } else {
                Ok(info)
            }
        }
    }
}

/// The number of blocks that a file of modules of `bytes` bytes needs.
pub fn blocks_of(bytes: usize) -> u8
    requires short { bytes ≤ MOST_GROUP_BYTES }
    ensures blocks { result ≡ block_count bytes }
    ensures few { result ≤ 7 }
{
    bytes.div_ceil(usize::from(BLOCK_BYTES)) as u8
}
