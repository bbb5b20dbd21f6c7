//! The instructions of a process.

ghost use Rattle.std.specs.Prelude.{◌≡◌, ◌<◌};
ghost use Rattle.proc_model.specs.Memory.{MemoryState};
ghost use Rattle.guest_memory.specs.Running.{RunsInMemory};
ghost use Rattle.guest_memory.specs.Tie.{RepresentsMemory, modules_of};

use crate::memory::Memory;
use cpu6809::Ran;
use os9_base::registers::{Pid, Regs};

impl Memory {
    /// Executes up to `n` instructions of a process one after another. It stops earlier after an
    /// instruction that the next one does not follow, as [`cpu6809::run`] does.
    pub fn run(&mut self, p: Pid, regs: &mut Regs, n: u32) -> Ran
        requires process { p.0 < 33 }
        ensures run { (m : MemoryState) → RepresentsMemory self.old m
            → (t : MemoryState) × RunsInMemory p.0 n result regs.old m regs.new t
            × RepresentsMemory self.new t }
        ensures modules { modules_of self.new ≡ modules_of self.old }
    {
        cpu6809::run(regs, &mut self.maps[p.0 as usize].view(&mut self.pool), n)
    }
}
