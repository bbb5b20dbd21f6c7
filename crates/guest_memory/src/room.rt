//! The room left in memory.

ghost use Rattle.std.specs.Prelude.{◌≡◌, ◌+◌, ◌<◌, ◌≤◌, IfSome};
ghost use Rattle.proc_model.specs.Memory as model;
ghost use Rattle.proc_model.specs.Memory.{MemoryState, map_at};
ghost use Rattle.proc_model.specs.Slots.{highest_free_run};
ghost use Rattle.guest_memory.specs.Tie.{RepresentsMemory};

use crate::memory::Memory;
use os9_base::registers::Pid;

impl Memory {
    /// The number of free blocks: those that no map and no entered group names (Level Two manual,
    /// "Memory management").
    pub fn free_blocks(&self) -> u16
        ensures tied { (m : MemoryState) → RepresentsMemory self.now m → result
            ≡ model.free_blocks m }
    {
        self.pool.free_blocks()
    }

    /// The slot at which a group of `len` blocks would be mapped (F$Link): the first of the highest
    /// run of free slots of this length; None if there is no such run.
    pub fn free_run(&self, p: Pid, len: u8) -> Option<u8>
        requires process { p.0 < 33 }
        requires some { 1 ≤ len }
        ensures slot { (m : MemoryState) → RepresentsMemory self.now m
            → result ≡ highest_free_run (map_at m p.0) len }
        ensures fits { IfSome result (λ slot. slot + len ≤ 8) }
    {
        self.maps[p.0 as usize].highest_free_run(len)
    }
}
