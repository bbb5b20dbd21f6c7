//! Giving up links to modules by address.

ghost use Rattle.std.specs.Prelude.{◌≡◌, ◌<◌, IsSome, IfSome, option_map, position};
ghost use Rattle.std.specs.Bool.{OnTrue};
ghost use Rattle.std.specs.Option.{option_map_or};
ghost use Rattle.guest_memory.specs.Tie.{modules_of};
ghost use Rattle.proc_model.specs.Memory.{map_at, group_at};
ghost use Rattle.proc_model.specs.ModuleList.{module_entry_at, passes};
ghost use Rattle.proc_model.specs.Slots.{group_slot};
ghost use Rattle.proc_model.specs.Records.{IsLiving};
ghost use Rattle.proc_model.specs.Processes.{Processes, with_memory};
ghost use Rattle.proc_model.specs.ModuleLinks.{is_at as is_at_model};
ghost use Rattle.proc_model.specs.UnLink.{f_unlink as f_unlink_model, with_links_left, without_group_link};
ghost use Rattle.proc_state.specs.Tie.{RepresentsProcesses, ReturnsDoneOrRefused, ReturnsCallEnd};

use os9_base::call::CallEnd;
use os9_base::errors::E_MNF;
use os9_base::limits::{BLOCK_BYTES, MODULE_ENTRIES};
use os9_base::registers::Pid;
use proc_model::module::ModId;
use proc_state::outcome::call_end;
use proc_state::state::ProcState;

/// F$UnLink: gives up a link to a module (System Programmer's Manual, F$UnLink). Takes the address
/// of the module's header in U. The group leaves the map with the last link of the process to it.
///
/// # Errors
///
/// E$MNF exactly if the map has no entered module at this address. Nothing has changed then.
pub fn f_unlink(s: &mut ProcState, p: Pid) -> CallEnd
    requires lives { IsLiving s.old.table p.0 }
    ensures call { (m : Processes) → RepresentsProcesses s.old m
        → ReturnsCallEnd m p.0 (f_unlink_model m p.0) result s.new }
    ensures lives { IsLiving s.new.table p.0 }
{
    call_end(unlink(s, p))
}

fn unlink(s: &mut ProcState, p: Pid) -> Result<(), u8>
    requires lives { IsLiving s.old.table p.0 }
    ensures call { (m : Processes) → RepresentsProcesses s.old m
        → ReturnsDoneOrRefused m (f_unlink_model m p.0) result s.new }
    ensures lives { IsLiving s.new.table p.0 }
{
    let regs = s.regs(p);
    let Some(id) = module_at(s, p, regs.u) else {
        return Err(E_MNF);
    };
    drop_group_link(s, p, id);
    s.unlink_module(id);
    Ok(())
}

/// The entered module that the map of a process has at an address.
fn module_at(s: &ProcState, p: Pid, address: u16) -> Option<ModId>
    requires { p.0 < 33 }
    ensures found { (m : Processes) → RepresentsProcesses s.now m → option_map (λ id. id.0) result
        ≡ position (passes (is_at_model (map_at m.memory p.0) address)) m.memory.modules }
    ensures entered { IfSome result
        (λ id. IsSome (module_entry_at (modules_of s.now.memory) id.0)) }
{
    for number in 0..MODULE_ENTRIES {
        if is_at(s, p, ModId(number), address) {
            return Some(ModId(number));
        }
    }
    None
}

/// Is there a module of this number, and does the map of a process have it at this address?
fn is_at(s: &ProcState, p: Pid, id: ModId, address: u16) -> bool
    requires { p.0 < 33 }
    ensures tied { (m : Processes) → RepresentsProcesses s.now m → result
        ≡ passes (is_at_model (map_at m.memory p.0) address)
        (module_entry_at m.memory.modules id.0) }
    ensures entered { OnTrue result (IsSome (module_entry_at (modules_of s.now.memory) id.0)) }
{
    if !s.memory.modules().is_entered(id) {
        return false;
    }
    let info = s.memory.info(id);
    match s.memory.group_slot(p, id) {
        Some(slot) => u32::from(BLOCK_BYTES) * u32::from(slot) + info.at == u32::from(address),
        None => false,
    }
}

/// Removes one link of a process to the group of an entered module, if its map has the group.
fn drop_group_link(s: &mut ProcState, p: Pid, id: ModId)
    requires process { p.0 < 33 }
    requires entered { IsSome (module_entry_at (modules_of s.old.memory) id.0) }
    ensures tied { (m : Processes) → RepresentsProcesses s.old m → RepresentsProcesses s.new
        (option_map_or (without_group_link m p.0 (group_at m.memory id.0))
        (group_slot (map_at m.memory p.0) (group_at m.memory id.0)) m) }
    ensures modules { modules_of s.new.memory ≡ modules_of s.old.memory }
    ensures records { s.new.table ≡ s.old.table }
{
    if let Some(slot) = s.memory.group_slot(p, id) {
        drop_link_at(s, p, id, slot);
    }
}

/// Removes one link of a process to the group of an entered module, which begins at this slot.
fn drop_link_at(s: &mut ProcState, p: Pid, id: ModId, slot: u8)
    requires process { p.0 < 33 }
    requires slot { slot < 8 }
    requires entered { IsSome (module_entry_at (modules_of s.old.memory) id.0) }
    ensures tied { (m : Processes) → RepresentsProcesses s.old m
        → RepresentsProcesses s.new (without_group_link m p.0 (group_at m.memory id.0) slot) }
    ensures modules { modules_of s.new.memory ≡ modules_of s.old.memory }
    ensures records { s.new.table ≡ s.old.table }
{
    let mut own = s.own(p);
    let left = own.links[slot as usize].saturating_sub(1);
    keep_linked(s, p, id, left);
    own.links[slot as usize] = left;
    s.set_own(p, own);
}

/// Removes the group of an entered module from the map of a process, if `left`, the number of its
/// links to the group, is 0.
fn keep_linked(s: &mut ProcState, p: Pid, id: ModId, left: u16)
    requires process { p.0 < 33 }
    requires entered { IsSome (module_entry_at (modules_of s.old.memory) id.0) }
    ensures tied { (m : Processes) → RepresentsProcesses s.old m → RepresentsProcesses s.new
        (with_memory m (with_links_left m.memory p.0 (group_at m.memory id.0) left)) }
    ensures modules { modules_of s.new.memory ≡ modules_of s.old.memory }
    ensures own { s.new.own ≡ s.old.own }
    ensures tick { s.new.tick ≡ s.old.tick }
    ensures records { s.new.table ≡ s.old.table }
{
    if left == 0 {
        s.memory.unmap(p, id);
    }
}
