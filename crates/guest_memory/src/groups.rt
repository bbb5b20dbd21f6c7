//! The groups of entered modules in the maps of processes.

ghost use Rattle.std.specs.Prelude.{◌≡◌, ◌+◌, ◌<◌, ◌≤◌, None, IsSome, IfSome, option_map, position};
ghost use Rattle.proc_model.specs.declared.group.BlockId.{BlockId};
ghost use Rattle.proc_model.specs.Memory.{MemoryState, map_at, group_at};
ghost use Rattle.proc_model.specs.MemoryChanges.{group_mapped, group_unmapped};
ghost use Rattle.proc_model.specs.ModuleList.{module_entry_at};
ghost use Rattle.proc_model.specs.Slots as model;
ghost use Rattle.proc_model.specs.Slots.{place_names};
ghost use Rattle.guest_memory.specs.Tie.{RepresentsMemory, MapsGroup, modules_of, group_len, slot_of_group};

use crate::memory::Memory;
use block_map::map::Map;
use os9_base::limits::MAP_SLOTS;
use os9_base::registers::Pid;
use proc_model::group::BlockId;
use proc_model::module::ModId;

impl Memory {
    /// The slot at which the group of an entered module begins in the map of a process; None if the
    /// process does not map it.
    pub fn group_slot(&self, p: Pid, id: ModId) -> Option<u8>
        requires process { p.0 < 33 }
        requires entered { IsSome (module_entry_at (modules_of self.now) id.0) }
        ensures slot { result ≡ slot_of_group self.now p.0 id.0 }
        ensures tied { (m : MemoryState) → RepresentsMemory self.now m
            → result ≡ model.group_slot (map_at m p.0) (group_at m id.0) }
        ensures fits { IfSome result (λ slot. slot + group_len self.now id.0 ≤ 8) }
        ensures some { 1 ≤ group_len self.now id.0 }
    {
        let first = self.dir.group(id).blocks[0];
        slot_of(&self.maps[p.0 as usize], first)
    }

    /// Maps the group of an entered module, which the process does not map, into the highest run of
    /// free slots of its length (F$Link). Returns the first of these slots; None exactly if there
    /// is no such run, and nothing has changed then.
    pub fn map_group(&mut self, p: Pid, id: ModId) -> Option<u8>
        requires process { p.0 < 33 }
        requires entered { IsSome (module_entry_at (modules_of self.old) id.0) }
        requires unmapped { slot_of_group self.old p.0 id.0 ≡ None }
        ensures maps { (m : MemoryState) → RepresentsMemory self.old m
            → MapsGroup (group_mapped m p.0 (group_at m id.0)) m result self.new }
        ensures modules { modules_of self.new ≡ modules_of self.old }
    {
        let group = self.dir.group(id);
        match self.maps[p.0 as usize].map_group(&mut self.pool, &group) {
            Ok(first) => Some(first),
            Err(_) => None,
        }
    }

    /// Removes the group of an entered module from the map of a process, if the process maps it
    /// (F$UnLink).
    pub fn unmap(&mut self, p: Pid, id: ModId)
        requires process { p.0 < 33 }
        requires entered { IsSome (module_entry_at (modules_of self.old) id.0) }
        ensures unmaps { (m : MemoryState) → RepresentsMemory self.old m
            → RepresentsMemory self.new (group_unmapped m p.0 (group_at m id.0)) }
        ensures modules { modules_of self.new ≡ modules_of self.old }
    {
        if let Some(slot) = self.group_slot(p, id) {
            self.maps[p.0 as usize].unmap(&mut self.pool, slot);
        }
    }
}

/// The slot that names a block, if one does.
fn slot_of(map: &Map, block: BlockId) -> Option<u8>
    ensures { result
        ≡ position (λ place. place_names block.0 (option_map (λ (id : BlockId). id.0) place))
        map.now.places }
{
    for slot in 0..MAP_SLOTS {
        if map.place(slot).is_some_and(|found| found.0 == block.0) {
            return Some(slot);
        }
    }
    None
}
