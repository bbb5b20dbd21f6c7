ghost use Rattle.std.specs.Prelude.{◌≡◌, ◌<◌};
ghost use Rattle.proc_model.specs.Memory.{MemoryState};
ghost use Rattle.proc_model.specs.MemoryChanges as model;
ghost use Rattle.proc_model.specs.MemoryChanges.{grown, cleared};
ghost use Rattle.guest_memory.specs.Tie.{RepresentsMemory, ReturnsMemoryResult, modules_of};

use crate::memory::Memory;
use block_map::map::MapFault;
use os9_base::registers::Pid;
use proc_model::memory::MemoryFault;

impl Memory {
    /// The data area of a process grows by `count` new blocks, whose bytes are zeros (F$Mem).
    ///
    /// # Errors
    ///
    /// `MemFull` exactly if one of the slots that follow the data area is named or there are fewer;
    /// else `NoRam` exactly if fewer blocks are free. Nothing has changed then.
    pub fn grow(&mut self, p: Pid, count: u8) -> Result<(), MemoryFault>
        requires { p.0 < 33 }
        ensures grows { (m : MemoryState) → RepresentsMemory self.old m
            → ReturnsMemoryResult (grown m p.0 count) m result self.new }
        ensures modules { modules_of self.new ≡ modules_of self.old }
    {
        let map = &mut self.maps[p.0 as usize];
        match map.map_low(&mut self.pool, count) {
            Ok(()) => Ok(()),
            Err(MapFault::NoSlot) => Err(MemoryFault::MemFull),
            Err(MapFault::NoBlock) => Err(MemoryFault::NoRam),
        }
    }

    /// At most `count` blocks of a process's data area are kept, the first ones (F$Mem).
    pub fn cut(&mut self, p: Pid, count: u8)
        requires { p.0 < 33 }
        ensures cuts { (m : MemoryState) → RepresentsMemory self.old m
            → RepresentsMemory self.new (model.cut m p.0 count) }
        ensures modules { modules_of self.new ≡ modules_of self.old }
    {
        self.maps[p.0 as usize].cut_low(&mut self.pool, count);
    }

    /// The map of a process names nothing any more (F$Exit).
    pub fn clear(&mut self, p: Pid)
        requires { p.0 < 33 }
        ensures { (m : MemoryState) → RepresentsMemory self.old m
            → RepresentsMemory self.new (cleared m p.0) }
    {
        self.maps[p.0 as usize].clear(&mut self.pool);
    }
}
