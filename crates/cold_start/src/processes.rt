//! The start of a machine.

ghost use Rattle.std.specs.Prelude.{◌≡◌, ◌≢◌, ℕ, ◌≤◌, IsSome, IfOk, IfErr, OnOk, length};
ghost use Rattle.guest_memory.specs.Tie.{modules_of};
ghost use Rattle.machine_model.specs.declared.ends.BootFault.{BootFault};
ghost use Rattle.proc_model.specs.ModuleList.{module_entry_at};
ghost use Rattle.machine_model.specs.ProcessStart.{StartsProcesses, RefusesBoot};
ghost use Rattle.proc_model.specs.Processes.{Processes};
ghost use Rattle.proc_state.specs.First.{first_processes};
ghost use Rattle.proc_state.specs.Tie.{RepresentsProcesses};
ghost use Rattle.cold_start.specs.Beginning.{HasFirstIn};

use crate::boot::enter_boot;
use crate::first::{begin, first_program};
use machine_model::ends::BootFault;
use os9_base::limits::MOST_GROUP_BYTES;
use proc_model::module::ModId;
use proc_state::state::ProcState;
use std::alloc::Global;

/// The processes of a machine with 8 to 256 blocks that starts the first program of a boot file,
/// `SysGo` (Level Two manual, "Booting"). Only this call takes memory for them.
///
/// # Errors
///
/// `BadModule` for the first refused module of the file, with its place and its error. `NoFirst` if
/// no module is the first program. `TooLarge` if the file has more than seven blocks of 8,192
/// bytes, or there are too few blocks or slots for it and the program's data area.
pub fn start(alloc: Global, blocks: u16, boot: &[u8]) -> Result<ProcState, BootFault>
    requires least { 8 ≤ blocks }
    requires most { blocks ≤ 256 }
    ensures start { IfOk result (λ processes.
        (m : Processes) × StartsProcesses boot.now blocks m × RepresentsProcesses processes m) }
    ensures accepted { OnOk result ((fault : BootFault) → ¬ RefusesBoot boot.now blocks fault) }
    ensures refused { IfErr result (λ fault. fault ≢ BootFault.OutOfMemory
        → RefusesBoot boot.now blocks fault) }
    ensures count { IfOk result (λ processes. processes.tick ≡ 0) }
{
    if boot.len() > MOST_GROUP_BYTES as usize {
        return Err(BootFault::TooLarge);
    }
    let mut processes = ProcState::new(alloc, blocks)?;
    let first = load_boot(&mut processes, boot)?;
    match begin(&mut processes, first) {
        Ok(()) => Ok(processes),
        Err(_) => Err(BootFault::TooLarge),
    }
}

/// Enters the modules of a boot file, and returns its first program. No process has begun yet.
///
/// # Errors
///
/// `BadModule` for the first refused module, and `NoFirst` if no module is the first program.
fn load_boot(processes: &mut ProcState, boot: &[u8]) -> Result<ModId, BootFault>
    requires short { length boot.now ≤ MOST_GROUP_BYTES }
    requires empty { (blocks : ℕ) × (8 ≤ blocks)
        × RepresentsProcesses processes.old (first_processes blocks) }
    ensures found { (blocks : ℕ) → RepresentsProcesses processes.old (first_processes blocks)
        → IfOk result (λ id. HasFirstIn boot.now blocks id.0 processes.new) }
    ensures refused { (blocks : ℕ) → RepresentsProcesses processes.old (first_processes blocks)
        → IfErr result (RefusesBoot boot.now blocks) }
    ensures entered { IfOk result
        (λ id. IsSome (module_entry_at (modules_of processes.new.memory) id.0)) }
{
    enter_boot(&mut processes.memory, boot)?;
    let Some(first) = first_program(processes.memory.modules()) else {
        return Err(BootFault::NoFirst);
    };
    Ok(first)
}
