//! The memory of a process that begins.

ghost use Rattle.std.specs.Prelude.{◌≡◌, ◌*◌, ◌<◌, IsSome, IsSomeAnd, OnOk};
ghost use Rattle.os9_base.specs.Cells.{FitsIn};
ghost use Rattle.proc_model.specs.Memory.{MemoryState};
ghost use Rattle.proc_model.specs.MemoryChanges.{started};
ghost use Rattle.proc_model.specs.ModuleList.{module_entry_at};
ghost use Rattle.guest_memory.specs.Tie.{RepresentsMemory, ReturnsMemoryResult, cells_of, modules_of};

use crate::memory::Memory;
use os9_base::limits::MAP_SLOTS;
use os9_base::registers::Pid;
use proc_model::memory::{MOST_LINKS, MemoryFault};
use proc_model::module::ModId;

impl Memory {
    /// Clears the map of a process and fills it anew: a data area of `blocks` new blocks from slot
    /// 0 up, whose bytes are zeros, and the group of an entered module in the highest slots
    /// (F$Fork, F$Chain).
    ///
    /// # Errors
    ///
    /// `MemFull` exactly if the module has 65,535 links or the slots are too few; else `NoRam`
    /// exactly if fewer blocks are free, counting the blocks of the old data area as free. Nothing
    /// has changed then.
    pub fn start(&mut self, p: Pid, id: ModId, blocks: u8) -> Result<(), MemoryFault>
        requires process { p.0 < 33 }
        requires entered { IsSome (module_entry_at (modules_of self.old) id.0) }
        ensures starts { (m : MemoryState) → RepresentsMemory self.old m
            → ReturnsMemoryResult (started m p.0 id.0 blocks) m result self.new }
        ensures area { OnOk result (FitsIn (cells_of self.new p.0) 0 (8192 * blocks)) }
        ensures links { OnOk result (IsSomeAnd (module_entry_at (modules_of self.new) id.0)
            (λ entry. entry.links < 65535)) }
        ensures modules { modules_of self.new ≡ modules_of self.old }
    {
        let group = self.dir.group(id);
        if self.dir.links(id) >= u32::from(MOST_LINKS) {
            return Err(MemoryFault::MemFull);
        }
        if u16::from(blocks) + u16::from(group.len) > u16::from(MAP_SLOTS) {
            return Err(MemoryFault::MemFull);
        }
        let area = self.maps[p.0 as usize].low();
        if self.pool.free_blocks() + u16::from(area) < u16::from(blocks) {
            return Err(MemoryFault::NoRam);
        }
        let map = &mut self.maps[p.0 as usize];
        map.clear(&mut self.pool);
        let _ = map.map_low(&mut self.pool, blocks);
        let _ = map.map_group(&mut self.pool, &group);
        Ok(())
    }
}
