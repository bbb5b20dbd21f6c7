//! A boot file in memory.

ghost use Rattle.std.specs.Prelude.{◌≡◌, ℕ, ◌+◌, ◌<◌, ◌≤◌, Some, Ok, Err, OnOk, IfErr, true, length};
ghost use Rattle.guest_memory.specs.Tie.{RepresentsMemory};
ghost use Rattle.proc_model.specs.Loading.{EntersModules, entry_refusal};
ghost use Rattle.proc_model.specs.Memory.{MemoryState, first_memory};
ghost use Rattle.machine_model.specs.ProcessStart.{RefusesBoot, boot_group};
ghost use Rattle.cold_start.specs.Booting.{IsEmptyMemory, IsBooting, HasGroup, BeginsBoot, EntersBeside, EntersRest, HasBoot};

use crate::modules::{Refusal, module_from, takes};
use guest_memory::memory::Memory;
use machine_model::ends::BootFault;
use os9_base::limits::MOST_GROUP_BYTES;
use proc_model::module::{ModId, ModuleInfo};

/// Loads a boot file into the first blocks of a memory and enters its modules, in order, as one
/// group (Level Two manual, "Booting"). Nothing has appeared in the memory yet.
///
/// # Errors
///
/// `BadModule` for the first refused module, and `NoFirst` if the file has no module.
pub fn enter_boot(memory: &mut Memory, boot: &[u8]) -> Result<(), BootFault>
    requires short { length boot.now ≤ MOST_GROUP_BYTES }
    requires empty { IsEmptyMemory memory.old }
    ensures entered { (blocks : ℕ) → RepresentsMemory memory.old (first_memory blocks)
        → OnOk result (HasBoot boot.now blocks memory.new) }
    ensures refused { (blocks : ℕ) → IfErr result (RefusesBoot boot.now blocks) }
{
    let Some(info) = module_from(boot, 0)? else {
        return Err(BootFault::NoFirst);
    };
    let rest = info.at + u32::from(info.size);
    let id = enter_first(memory, boot, info);
    enter_others(memory, boot, id, rest)?;
    Ok(())
}

/// Loads a boot file into the first blocks of a memory, and enters its first module.
fn enter_first(memory: &mut Memory, boot: &[u8], info: ModuleInfo) -> ModId
    requires short { length boot.now ≤ MOST_GROUP_BYTES }
    requires inside { info.at + info.size ≤ length boot.now }
    requires runs { info.entry < info.size }
    requires empty { IsEmptyMemory memory.old }
    ensures entered { (blocks : ℕ) → RepresentsMemory memory.old (first_memory blocks)
        → BeginsBoot boot.now blocks info result.0 memory.new }
    ensures booting { IsBooting boot.now result.0 memory.new }
{
    match memory.enter(boot, info, true) {
        Ok(id) => id,
        Err(_) => unreachable!(),
    }
}

/// Enters the modules of a boot file from a place on, in the group of the module of this number.
///
/// # Errors
///
/// The first refused module; those before it are entered.
fn enter_others(memory: &mut Memory, boot: &[u8], id: ModId, start: u32) -> Result<(), Refusal>
    requires short { length boot.now ≤ MOST_GROUP_BYTES }
    requires within { start ≤ length boot.now }
    requires booting { IsBooting boot.now id.0 memory.old }
    ensures entered { (m : MemoryState) → RepresentsMemory memory.old m → HasGroup boot.now id.0 m
        → OnOk result (EntersRest boot.now start m memory.new) }
    ensures refused { (m : MemoryState) → RepresentsMemory memory.old m → HasGroup boot.now id.0 m
        → IfErr result (λ refusal. EntersModules boot.now (boot_group boot.now) true start
        m.modules (Err (refusal.at, refusal.error))) }
{
    let mut from = start;
    while let Some(info) = module_from(boot, from)? {
        from = info.at + u32::from(info.size);
        enter_next(memory, boot, id, info)?;
    }
    Ok(())
}

/// Enters one module of a boot file, in the group of the module of this number.
///
/// # Errors
///
/// The directory refuses the module.
fn enter_next(memory: &mut Memory, boot: &[u8], id: ModId, info: ModuleInfo) -> Result<(), Refusal>
    requires inside { info.at + info.size ≤ length boot.now }
    requires runs { info.entry < info.size }
    requires booting { IsBooting boot.now id.0 memory.old }
    ensures entered { (m : MemoryState) → RepresentsMemory memory.old m → HasGroup boot.now id.0 m
        → OnOk result (EntersBeside boot.now id.0 m info memory.new) }
    ensures refused { (m : MemoryState) → RepresentsMemory memory.old m
        → IfErr result (λ refusal. (refusal.at ≡ info.at)
        × (entry_refusal m.modules info ≡ Some refusal.error)) }
{
    takes(memory.modules(), &info)?;
    memory.enter_beside(id, info);
    Ok(())
}
