//! Loading programs into the memory of a process.

ghost use Rattle.std.specs.Prelude.{◌≡◌, ℕ, ◌*◌, ◌<◌, ◌≤◌, None, Some, is_some, IsSome, IfOk, MatchResult, length, take};
ghost use Rattle.std.specs.Option.{ForSome};
ghost use Rattle.guest_memory.specs.Tie.{RepresentsMemory, ReturnsMemoryResult as AnswersMemory, modules_of};
ghost use Rattle.proc_model.specs.Memory.{MemoryState};
ghost use Rattle.proc_model.specs.ModuleList.{ModuleEntry, module_entry_at};
ghost use Rattle.proc_model.specs.Processes.{Processes};
ghost use Rattle.proc_state.specs.Tie.{RepresentsProcesses};
ghost use Rattle.fork_calls.specs.Loading.{IsProgramLoaded, IsNotLoaded, begun};
ghost use Rattle.fork_calls.specs.Naming.{meant};

use crate::program::NamedProgram;
use crate::starting::{Beginning, beginning_of};
use guest_memory::memory::Memory;
use os9_base::errors::E_MEMFUL;
use os9_base::registers::Pid;
use proc_calls::errors::memory_error;
use proc_calls::program::{MOST_PAGES, PAGE_BYTES, blocks_of_pages};
use proc_model::memory::MemoryFault;
use proc_state::state::ProcState;

/// The memory of a process begins anew with a program: a data area of zeros, with the parameters at
/// its end, and the group of the program's module, which has one more link. Returns what else the
/// process begins with.
///
/// # Errors
///
/// E$MemFul exactly if the data area has more than 57,344 bytes, the slots are too few or the
/// module has all the links that it can have; else E$NoRAM exactly if too few blocks are free.
/// Nothing has changed then.
pub fn load_program(s: &mut ProcState, p: Pid, program: NamedProgram) -> Result<Beginning, u8>
    requires process { p.0 < 33 }
    requires entered { IsSome (module_entry_at (modules_of s.old.memory) program.id.0) }
    ensures loaded { (m : Processes) (entry : ModuleEntry) → RepresentsProcesses s.old m
        → module_entry_at m.memory.modules program.id.0 ≡ Some entry
        → MatchResult result
        (IsProgramLoaded m p.0 (meant program entry (take program.parameters s.old.buffer.items))
        s.new) (IsNotLoaded m p.0 (meant program entry (take program.parameters s.old.buffer.items))
        s.new) }
    ensures entered { IfOk result (λ start. ForSome start.own.primary
        (λ id. IsSome (module_entry_at (modules_of s.new.memory) id.0))) }
    ensures until { IfOk result (λ start. start.own.until ≡ None) }
    ensures records { s.new.table ≡ s.old.table }
{
    if program.pages > MOST_PAGES {
        return Err(E_MEMFUL);
    }
    let start = beginning_of(&s.memory, program);
    let parameters = &s.buffer[..program.parameters as usize];
    match begin(&mut s.memory, p, program, parameters) {
        Ok(()) => Ok(start),
        Err(fault) => Err(memory_error(fault)),
    }
}

/// The memory in which a process begins with a program and these parameters, and the program's
/// module has one more link.
fn begin(
    memory: &mut Memory,
    p: Pid,
    program: NamedProgram,
    parameters: &[u8],
) -> Result<(), MemoryFault>
    requires process { p.0 < 33 }
    requires entered { IsSome (module_entry_at (modules_of memory.old) program.id.0) }
    requires most { program.pages ≤ MOST_PAGES }
    requires whole { length parameters.now ≡ program.parameters }
    ensures begun { (m : MemoryState) (entry : ModuleEntry) → RepresentsMemory memory.old m
        → AnswersMemory (begun m p.0 (meant program entry parameters.now)) m result memory.new }
    ensures entered { (number : ℕ) → is_some (module_entry_at (modules_of memory.new) number)
        ≡ is_some (module_entry_at (modules_of memory.old) number) }
{
    memory.start(p, program.id, blocks_of_pages(program.pages))?;
    let at = program.pages * PAGE_BYTES - program.parameters;
    memory.store(p, at, parameters);
    memory.link(program.id);
    Ok(())
}
