//! The bytes of a process.

ghost use Rattle.std.specs.Prelude.{◌≡◌, ◌<◌, length};
ghost use Rattle.os9_base.specs.Cells.{FitsIn};
ghost use Rattle.proc_model.specs.Memory.{MemoryState};
ghost use Rattle.proc_model.specs.MemoryChanges.{stored};
ghost use Rattle.guest_memory.specs.Tie.{RepresentsMemory, cells_of, modules_of};

use crate::memory::Memory;
use os9_base::memory::UserMem;
use os9_base::registers::Pid;

impl Memory {
    /// Stores bytes in the memory of a process, from an address on; they fit there.
    pub fn store(&mut self, p: Pid, at: u16, bytes: &[u8])
        requires process { p.0 < 33 }
        requires fits { FitsIn (cells_of self.old p.0) at (length bytes.now) }
        ensures stores { (m : MemoryState) → RepresentsMemory self.old m
            → RepresentsMemory self.new (stored m p.0 at bytes.now) }
        ensures modules { modules_of self.new ≡ modules_of self.old }
    {
        self.maps[p.0 as usize]
            .view(&mut self.pool)
            .store(at, bytes);
    }
}
