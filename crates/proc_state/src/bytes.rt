//! The bytes of a process that a call reads.

ghost use Rattle.std.specs.Prelude.{◌≡◌, ◌<◌, ◌≤◌, ◌↔◌, IsTrue, IfSome, is_some, option_map, length, take};
ghost use Rattle.std.specs.Bool.{OnTrue};
ghost use Rattle.os9_base.specs.Cells.{FitsIn};
ghost use Rattle.proc_model.specs.Processes.{Processes, cells_at};
ghost use Rattle.proc_model.specs.UserBytes.{user_bytes};
ghost use Rattle.os9_base.specs.UserLines.{line_at};
ghost use Rattle.guest_memory.specs.Tie.{IsMemorySame as IsSameMemory, cells_of};
ghost use Rattle.proc_state.specs.Tie.{RepresentsProcesses, AreProcessesSame, bytes_read};

use crate::state::ProcState;
use guest_memory::memory::Memory;
use os9_base::registers::Pid;

impl ProcState {
    /// Reads `count` bytes of a process from an address on into the front of the buffer. Returns
    /// whether each of them is in a named slot and none past `FFFF`.
    pub fn read_bytes(&mut self, p: Pid, at: u16, count: u16) -> bool
        requires { p.0 < 33 }
        ensures read { (m : Processes) → RepresentsProcesses self.old m
            → user_bytes (cells_at m p.0) at count ≡ bytes_read result count self.new.buffer.items }
        ensures fits { OnTrue result (FitsIn (cells_of self.new.memory p.0) at count) }
        ensures same { AreProcessesSame self.old self.new }
    {
        read_front(&mut self.memory, p, at, count, &mut self.buffer)
    }

    /// Is each of `count` bytes of a process from an address on in a named slot, and none past
    /// `FFFF`?
    pub fn is_named(&self, p: Pid, at: u16, count: u16) -> bool
        requires { p.0 < 33 }
        ensures there { (m : Processes) → RepresentsProcesses self.now m
            → result ≡ is_some (user_bytes (cells_at m p.0) at count) }
        ensures fits { IsTrue result ↔ FitsIn (cells_of self.now.memory p.0) at count }
    {
        self.memory.is_named(p, at, count)
    }

    /// Reads the bytes of a process from an address on, up to and with the first carriage return,
    /// but at most `most`, into the front of the buffer. Returns the number of bytes, or None if
    /// one of them is in no named slot or past `FFFF`.
    pub fn read_line(&mut self, p: Pid, at: u16, most: u16) -> Option<usize>
        requires { p.0 < 33 }
        ensures line { (m : Processes) → RepresentsProcesses self.old m
            → line_at (cells_at m p.0) at most
            ≡ option_map (λ count. take count self.new.buffer.items) result }
        ensures short { IfSome result (λ count. count ≤ most) }
        ensures same { AreProcessesSame self.old self.new }
    {
        self.memory.read_line(p, at, most, &mut self.buffer)
    }
}

/// Reads `count` bytes of a process from an address on into the front of a buffer, if each of them
/// is in a named slot and none past `FFFF`.
fn read_front(memory: &mut Memory, p: Pid, at: u16, count: u16, into: &mut [u8]) -> bool
    requires process { p.0 < 33 }
    requires room { count ≤ length into.old }
    ensures read { user_bytes (cells_of memory.old p.0) at count
        ≡ bytes_read result count into.new }
    ensures fits { OnTrue result (FitsIn (cells_of memory.new p.0) at count) }
    ensures same { IsSameMemory memory.old memory.new }
{
    if !memory.fits(p, at, count) {
        return false;
    }
    memory.load(p, at, &mut into[..count as usize]);
    true
}
