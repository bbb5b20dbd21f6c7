//! Links to modules.

ghost use Rattle.std.specs.Prelude.{◌≡◌, ◌+◌, ◌*◌, ◌<◌, ◌≤◌, Some, IsSome, IsSomeAnd, IfSome, OnSome, slice_index, slice_index_or};
ghost use Rattle.std.specs.Option.{ForSome};
ghost use Rattle.guest_memory.specs.Tie.{modules_of, group_len};
ghost use Rattle.proc_model.specs.Memory.{group_at};
ghost use Rattle.proc_model.specs.MemoryChanges.{linked};
ghost use Rattle.proc_model.specs.ModuleList.{ModuleEntry, module_entry_at};
ghost use Rattle.proc_model.specs.Records.{IsLiving};
ghost use Rattle.proc_model.specs.Processes.{Processes, no_own, own_at, regs_at, with_memory, with_own, with_regs_of};
ghost use Rattle.proc_model.specs.Link.{f_link as f_link_model, Mapped, mapped_group, links_at, with_links_at, linked_regs as linked_regs_model};
ghost use Rattle.proc_model.specs.ModuleLinks.{header_address};
ghost use Rattle.proc_model.specs.UnLoad.{f_unload as f_unload_model};
ghost use Rattle.proc_state.specs.Tie.{RepresentsProcesses, ReturnsDoneOrRefused, ReturnsCallEnd};
ghost use Rattle.proc_calls.specs.Linked.{entered_as, links_entered};
ghost use Rattle.proc_calls.specs.Named.{slot_in, link_slot as link_slot_model};

use crate::named::named_module;
use os9_base::call::CallEnd;
use os9_base::errors::E_MEMFUL;
use os9_base::limits::BLOCK_BYTES;
use os9_base::registers::{Pid, Regs};
use proc_model::memory::MOST_LINKS;
use proc_model::module::{ModId, ModuleInfo};
use proc_model::own::Own;
use proc_state::outcome::call_end;
use proc_state::state::ProcState;

/// F$Link: links a module (System Programmer's Manual, F$Link). Takes the type and language in A
/// and the address of the name in X. Returns the module's type and language in A, its attributes
/// and revision in B, the address after the name in X, its entry in Y and its header's address in
/// U.
///
/// # Errors
///
/// E$BPAddr and E$BNam of the name, else E$MNF exactly if no such module is entered, else E$MemFul
/// exactly if too few slots are left in the map, or no links. Nothing has changed then.
pub fn f_link(s: &mut ProcState, p: Pid) -> CallEnd
    requires lives { IsLiving s.old.table p.0 }
    ensures call { (m : Processes) → RepresentsProcesses s.old m
        → ReturnsCallEnd m p.0 (f_link_model m p.0) result s.new }
    ensures lives { IsLiving s.new.table p.0 }
{
    call_end(link(s, p))
}

fn link(s: &mut ProcState, p: Pid) -> Result<(), u8>
    requires lives { IsLiving s.old.table p.0 }
    ensures call { (m : Processes) → RepresentsProcesses s.old m
        → ReturnsDoneOrRefused m (f_link_model m p.0) result s.new }
    ensures lives { IsLiving s.new.table p.0 }
{
    let (id, count) = named_module(s, p)?;
    link_module(s, p, id, u32::from(count))
}

/// A process links an entered module, and its X grows by `count`: the length of the module's name,
/// or of a path list. The results are those of F$Link.
///
/// # Errors
///
/// E$MemFul exactly if too few slots are left in the map, or no links. Nothing has changed then.
pub fn link_module(s: &mut ProcState, p: Pid, id: ModId, count: u32) -> Result<(), u8>
    requires lives { IsLiving s.old.table p.0 }
    requires entered { IsSome (module_entry_at (modules_of s.old.memory) id.0) }
    ensures call { (m : Processes) (entry : ModuleEntry) → RepresentsProcesses s.old m
        → module_entry_at m.memory.modules id.0 ≡ Some entry
        → ReturnsDoneOrRefused m (links_entered m p.0 (entered_as id entry) count) result s.new }
    ensures lives { IsLiving s.new.table p.0 }
{
    let Some(slot) = link_slot(s, p, id) else {
        return Err(E_MEMFUL);
    };
    let info = s.memory.info(id);
    map_group(s, p, id);
    add_link(s, p, id, slot);
    let regs = s.regs(p);
    s.set_regs(p, linked_regs(regs, info, slot, count));
    Ok(())
}

/// The slot at which the group of an entered module is or would be mapped in the map of a process;
/// None if there are too few slots or no links are left.
fn link_slot(s: &ProcState, p: Pid, id: ModId) -> Option<u8>
    requires process { p.0 < 33 }
    requires entered { IsSome (module_entry_at (modules_of s.now.memory) id.0) }
    ensures slot { (m : Processes) → RepresentsProcesses s.now m
        → ForSome (module_entry_at m.memory.modules id.0)
        (λ entry. result ≡ link_slot_model m p.0 entry) }
    ensures links { OnSome result (IsSomeAnd (module_entry_at (modules_of s.now.memory) id.0)
        (λ entry. entry.links < 65535)) }
    ensures own { IfSome result (λ slot.
        slice_index (slice_index_or s.now.own.items p.0 no_own).links slot < 65535) }
    ensures fits { IfSome result (λ slot. slot + group_len s.now.memory id.0 ≤ 8) }
    ensures some { 1 ≤ group_len s.now.memory id.0 }
{
    let slot = group_place(s, p, id)?;
    if s.memory.modules().links(id) >= u32::from(MOST_LINKS) {
        return None;
    }
    if s.own(p).links[slot as usize] >= MOST_LINKS {
        return None;
    }
    Some(slot)
}

/// The slot at which the group of an entered module is mapped in the map of a process, or would be
/// mapped if there is room.
fn group_place(s: &ProcState, p: Pid, id: ModId) -> Option<u8>
    requires process { p.0 < 33 }
    requires entered { IsSome (module_entry_at (modules_of s.now.memory) id.0) }
    ensures slot { (m : Processes) → RepresentsProcesses s.now m
        → result ≡ slot_in m p.0 (group_at m.memory id.0) }
    ensures fits { IfSome result (λ slot. slot + group_len s.now.memory id.0 ≤ 8) }
    ensures some { 1 ≤ group_len s.now.memory id.0 }
{
    match s.memory.group_slot(p, id) {
        Some(slot) => Some(slot),
        None => s.memory.free_slot(p, id),
    }
}

/// Maps the group of an entered module if it is not in the map of a process yet.
fn map_group(s: &mut ProcState, p: Pid, id: ModId)
    requires process { p.0 < 33 }
    requires entered { IsSome (module_entry_at (modules_of s.old.memory) id.0) }
    ensures tied { (m : Processes) (mapped : Mapped) → RepresentsProcesses s.old m
        → mapped_group m.memory p.0 (group_at m.memory id.0) ≡ Some mapped
        → RepresentsProcesses s.new (with_memory m mapped.memory) }
    ensures modules { modules_of s.new.memory ≡ modules_of s.old.memory }
    ensures own { s.new.own ≡ s.old.own }
    ensures records { s.new.table ≡ s.old.table }
{
    if s.memory.group_slot(p, id).is_none() {
        let _ = s.memory.map_group(p, id);
    }
}

/// Counts one more link of an entered module, and of the process to the group at a slot of its map.
fn add_link(s: &mut ProcState, p: Pid, id: ModId, slot: u8)
    requires process { p.0 < 33 }
    requires slot { slot < 8 }
    requires links { IsSomeAnd (module_entry_at (modules_of s.old.memory) id.0)
        (λ entry. entry.links < 65535) }
    requires own { slice_index (slice_index_or s.old.own.items p.0 no_own).links slot < 65535 }
    ensures tied { (m : Processes) → RepresentsProcesses s.old m
        → RepresentsProcesses s.new (with_own (with_memory m (linked m.memory id.0)) p.0
        (with_links_at (own_at m p.0) slot (links_at (own_at m p.0) slot + 1))) }
    ensures records { s.new.table ≡ s.old.table }
{
    s.memory.link(id);
    let mut own = s.own(p);
    own.links[slot as usize] += 1;
    s.set_own(p, own);
}

/// The registers after a link: X grows by `count`.
fn linked_regs(regs: Regs, info: ModuleInfo, slot: u8, count: u32) -> Regs
    requires slot { slot < 8 }
    requires fits { 8192 * slot + (info.at + info.size) ≤ 65536 }
    requires runs { info.entry < info.size }
    ensures { (entry : ModuleEntry) → entry.info ≡ info
        → result ≡ linked_regs_model regs entry (header_address slot entry) count }
{
    let u = u16::from(slot) * BLOCK_BYTES + info.at as u16;
    Regs {
        a: info.kind,
        b: info.attr,
        x: regs.x.wrapping_add((count % 65_536) as u16),
        y: u + info.entry,
        u,
        ..regs
    }
}

/// F$UnLoad: gives up a link to a module by its name (System Programmer's Manual, F$UnLoad). Takes
/// the type and language in A and the address of the name in X. Maps that name the module's group
/// keep it.
///
/// # Errors
///
/// E$BPAddr and E$BNam of the name, else E$MNF exactly if no such module is entered. Nothing has
/// changed then.
pub fn f_unload(s: &mut ProcState, p: Pid) -> CallEnd
    requires lives { IsLiving s.old.table p.0 }
    ensures call { (m : Processes) → RepresentsProcesses s.old m
        → ReturnsCallEnd m p.0 (f_unload_model m p.0) result s.new }
    ensures lives { IsLiving s.new.table p.0 }
{
    call_end(unload(s, p))
}

fn unload(s: &mut ProcState, p: Pid) -> Result<(), u8>
    requires lives { IsLiving s.old.table p.0 }
    ensures call { (m : Processes) → RepresentsProcesses s.old m
        → ReturnsDoneOrRefused m (f_unload_model m p.0) result s.new }
    ensures lives { IsLiving s.new.table p.0 }
{
    let (id, _) = named_module(s, p)?;
    s.unlink_module(id);
    Ok(())
}
