//! What a process begins with.

ghost use Rattle.std.specs.Prelude.{◌≡◌, ℕ, ◌+◌, ◌*◌, ◌<◌, ◌≤◌, None, Some, IsSome, List, length};
ghost use Rattle.guest_memory.specs.Tie.{RepresentsMemory, modules_of};
ghost use Rattle.proc_model.specs.Memory.{MemoryState};
ghost use Rattle.proc_model.specs.ModuleList.{ModuleEntry, module_entry_at};
ghost use Rattle.proc_model.specs.Program as model;
ghost use Rattle.fork_calls.specs.Naming.{meant};

use crate::program::NamedProgram;
use guest_memory::memory::Memory;
use os9_base::limits::{BLOCK_BYTES, MAP_SLOTS};
use os9_base::registers::Regs;
use proc_calls::program::{MOST_PAGES, PAGE_BYTES};
use proc_model::module::ModuleInfo;
use proc_model::own::Own;

/// What a process begins with, other than its memory.
#[derive(Clone, Copy, Debug)]
pub struct Beginning {
    pub regs: Regs,
    pub own: Own,
}

/// The registers, and the other data of a process, when it begins with a program.
pub fn beginning_of(memory: &Memory, program: NamedProgram) -> Beginning
    requires entered { IsSome (module_entry_at (modules_of memory.now) program.id.0) }
    requires most { program.pages ≤ MOST_PAGES }
    ensures regs { (m : MemoryState) (entry : ModuleEntry) (bytes : List ℕ)
        → RepresentsMemory memory.now m → module_entry_at m.modules program.id.0 ≡ Some entry
        → length bytes ≡ program.parameters
        → result.regs ≡ model.start_regs (meant program entry bytes) }
    ensures own { (m : MemoryState) (entry : ModuleEntry) (bytes : List ℕ)
        → RepresentsMemory memory.now m → module_entry_at m.modules program.id.0 ≡ Some entry
        → result.own ≡ model.start_own (meant program entry bytes) }
    ensures primary { result.own.primary ≡ Some program.id }
    ensures until { result.own.until ≡ None }
{
    let slot = MAP_SLOTS - memory.group_len(program.id);
    Beginning {
        regs: start_regs(program, memory.info(program.id), slot),
        own: start_own(program, slot),
    }
}

/// The registers of a process that begins with a program whose group begins at this slot.
fn start_regs(program: NamedProgram, info: ModuleInfo, slot: u8) -> Regs
    requires most { program.pages ≤ MOST_PAGES }
    requires slot { slot < 8 }
    requires fits { 8192 * slot + (info.at + info.size) ≤ 65536 }
    requires runs { info.entry < info.size }
    ensures { (entry : ModuleEntry) (bytes : List ℕ) → entry.info ≡ info
        → slot + length entry.group ≡ 8 → length bytes ≡ program.parameters
        → result ≡ model.start_regs (meant program entry bytes) }
{
    let size = program.pages * PAGE_BYTES;
    let at = size - program.parameters;
    Regs {
        a: (program.parameters / 256) as u8,
        b: (program.parameters % 256) as u8,
        dp: 0,
        cc: 0,
        x: at,
        y: size,
        u: 0,
        s: at,
        pc: u16::from(slot) * BLOCK_BYTES + info.at as u16 + info.entry,
    }
}

/// The data, other than its record and its memory, of a process that begins with a program whose
/// group begins at this slot.
fn start_own(program: NamedProgram, slot: u8) -> Own
    requires most { program.pages ≤ MOST_PAGES }
    requires slot { slot < 8 }
    ensures own { (entry : ModuleEntry) (bytes : List ℕ) → slot + length entry.group ≡ 8
        → result ≡ model.start_own (meant program entry bytes) }
    ensures primary { result.primary ≡ Some program.id }
    ensures until { result.until ≡ None }
{
    let mut links = [0; 8];
    links[slot as usize] = 1;
    Own {
        size: program.pages * PAGE_BYTES,
        primary: Some(program.id),
        links,
        call: None,
        until: None,
        woken: false,
    }
}
