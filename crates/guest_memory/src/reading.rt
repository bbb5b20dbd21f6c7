//! Reading bytes and names in the memory of a process.

ghost use Rattle.std.specs.Prelude.{◌≡◌, ◌+◌, ◌*◌, ◌<◌, ◌≤◌, ◌↔◌, Some, IsTrue, IsSome, IfSome, option_map, length, take};
ghost use Rattle.os9_base.specs.Cells.{FitsIn, HoldsBytes};
ghost use Rattle.proc_model.specs.Memory.{MemoryState, map_at, group_at};
ghost use Rattle.proc_model.specs.ModuleList.{module_entry_at};
ghost use Rattle.proc_model.specs.Slots.{highest_free_run};
ghost use Rattle.os9_base.specs.UserNames.{user_cell, run_bytes, name_at};
ghost use Rattle.guest_memory.specs.Tie as model;
ghost use Rattle.guest_memory.specs.Tie.{RepresentsMemory, IsMemorySame, cells_of, modules_of, seen_cells};

use crate::memory::Memory;
use os9_base::limits::BLOCK_BYTES;
use os9_base::memory::UserMem;
use os9_base::name::Name;
use os9_base::name_fault::NameFault;
use os9_base::read::{read_name, read_run};
use os9_base::registers::Pid;
use proc_model::module::{ModId, ModuleInfo};

impl Memory {
    /// The byte of a process at an offset from an address; None if it is in no named slot or past
    /// `FFFF`.
    pub fn byte(&self, p: Pid, at: u16, offset: u16) -> Option<u8>
        requires { p.0 < 33 }
        ensures byte { result ≡ user_cell (cells_of self.now p.0) (at + offset) }
        ensures tied { (m : MemoryState) → RepresentsMemory self.now m
            → result ≡ user_cell (seen_cells m p.0) (at + offset) }
    {
        let address = at.checked_add(offset)?;
        let slot = (address / BLOCK_BYTES) as u8;
        let id = self.maps[p.0 as usize].place(slot)?;
        let bytes = self.pool.bytes(id);
        Some(bytes[(address % BLOCK_BYTES) as usize])
    }

    /// Do `len` bytes of a process from an address on lie in named slots, up to `FFFF`?
    pub fn fits(&mut self, p: Pid, at: u16, len: u16) -> bool
        requires { p.0 < 33 }
        ensures fits { IsTrue result ↔ FitsIn (cells_of self.old p.0) at len }
        ensures same { IsMemorySame self.old self.new }
    {
        self.maps[p.0 as usize].view(&mut self.pool).fits(at, len)
    }

    /// Fills a buffer with the bytes of a process from an address on.
    pub fn load(&mut self, p: Pid, at: u16, into: &mut [u8])
        requires process { p.0 < 33 }
        requires fits { FitsIn (cells_of self.old p.0) at (length into.old) }
        ensures loaded { HoldsBytes (cells_of self.old p.0) at into.new }
        ensures same { IsMemorySame self.old self.new }
    {
        self.maps[p.0 as usize].view(&mut self.pool).load(at, into);
    }

    /// Reads the name at an address of a process (System Programmer's Manual, F$PrsNam).
    ///
    /// # Errors
    ///
    /// `Unreadable` exactly if a byte that has to be read is in no named slot or past `FFFF`, else
    /// `NoName` exactly if the bytes are not a name.
    pub fn name(&mut self, p: Pid, at: u16) -> Result<Name, NameFault>
        requires { p.0 < 33 }
        ensures name { result ≡ name_at (cells_of self.old p.0) at }
        ensures tied { (m : MemoryState) → RepresentsMemory self.old m
            → result ≡ name_at (seen_cells m p.0) at }
        ensures same { IsMemorySame self.old self.new }
    {
        let view = self.maps[p.0 as usize].view(&mut self.pool);
        read_name(&view, at)
    }

    /// Reads the bytes of a run of name characters from an address of a process on into the front
    /// of a buffer, at most 30. Returns the number of bytes, or None if one of them is in no named
    /// slot or past `FFFF`.
    pub fn name_run(&mut self, p: Pid, at: u16, into: &mut [u8]) -> Option<usize>
        requires process { p.0 < 33 }
        requires room { length into.old ≡ 30 }
        ensures run { run_bytes (cells_of self.old p.0) at 30
            ≡ option_map (λ count. take count into.new) result }
        ensures tied { (m : MemoryState) → RepresentsMemory self.old m
            → run_bytes (seen_cells m p.0) at 30
            ≡ option_map (λ count. take count into.new) result }
        ensures short { IfSome result (λ count. count ≤ 30) }
        ensures room { length into.new ≡ 30 }
        ensures same { IsMemorySame self.old self.new }
    {
        let view = self.maps[p.0 as usize].view(&mut self.pool);
        read_run(&view, at, into)
    }

    /// The number of blocks in the data area of a process.
    pub fn area(&self, p: Pid) -> u8
        requires { p.0 < 33 }
        ensures tied { (m : MemoryState) → RepresentsMemory self.now m → result
            ≡ (map_at m p.0).low }
        ensures most { result ≤ 8 }
    {
        self.maps[p.0 as usize].low()
    }

    /// The slot at which the group of an entered module would be mapped (F$Link): the first of the
    /// highest run of free slots of its length; None if there is no such run.
    pub fn free_slot(&self, p: Pid, id: ModId) -> Option<u8>
        requires process { p.0 < 33 }
        requires entered { IsSome (module_entry_at (modules_of self.now) id.0) }
        ensures slot { (m : MemoryState) → RepresentsMemory self.now m
            → result ≡ highest_free_run (map_at m p.0) (length (group_at m id.0)) }
        ensures fits { IfSome result (λ slot. slot + model.group_len self.now id.0 ≤ 8) }
    {
        let group = self.dir.group(id);
        self.free_run(p, group.len)
    }

    /// The number of blocks in the group of an entered module: 1 to 7.
    pub fn group_len(&self, id: ModId) -> u8
        requires { IsSome (module_entry_at (modules_of self.now) id.0) }
        ensures len { result ≡ model.group_len self.now id.0 }
        ensures tied { (m : MemoryState) → RepresentsMemory self.now m
            → result ≡ length (group_at m id.0) }
        ensures some { 1 ≤ result }
        ensures few { result ≤ 7 }
    {
        self.dir.group(id).len
    }

    /// What the header of an entered module says; its `at` is the module's offset in its group.
    pub fn info(&self, id: ModId) -> ModuleInfo
        requires { IsSome (module_entry_at (modules_of self.now) id.0) }
        ensures tied { (m : MemoryState) → RepresentsMemory self.now m
            → option_map (λ entry. entry.info) (module_entry_at m.modules id.0) ≡ Some result }
        ensures inside { result.at + result.size ≤ 8192 * model.group_len self.now id.0 }
        ensures runs { result.entry < result.size }
        ensures few { model.group_len self.now id.0 ≤ 7 }
    {
        self.dir.info(id)
    }
}
