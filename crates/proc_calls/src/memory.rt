//! The size of the data area.

ghost use Rattle.std.specs.Prelude.{◌≡◌, ◌*◌, ◌+◌, ◌≤◌, ◌<◌};
ghost use Rattle.proc_model.specs.Records.{IsLiving};
ghost use Rattle.proc_model.specs.CallResult.{changes, done};
ghost use Rattle.proc_model.specs.Processes.{Processes, with_memory};
ghost use Rattle.proc_model.specs.Mem.{f_mem as f_mem_model, size_regs as size_regs_model, resized, sets_pages, with_size};
ghost use Rattle.proc_model.specs.UserBytes.{d_of as d_of_model};
ghost use Rattle.proc_state.specs.Tie.{RepresentsProcesses, ReturnsDoneOrRefused, ReturnsCallEnd};

use crate::errors::memory_error;
use crate::program::{MOST_PAGES, PAGE_BYTES, blocks_of_pages};
use os9_base::call::CallEnd;
use os9_base::errors::E_MEMFUL;
use os9_base::registers::{Pid, Regs};
use proc_model::own::Own;
use proc_state::outcome::call_end;
use proc_state::state::ProcState;

/// F$Mem: sets the size of the data area (System Programmer's Manual, F$Mem). Takes the size in
/// bytes in D, or 0 to ask for the current size. Returns the size, rounded up to pages of 256
/// bytes, in D and Y. Blocks that are not needed any more are given back.
///
/// # Errors
///
/// E$MemFul exactly if the size is more than 57,344 bytes or a slot that the data area needs is
/// named, else E$NoRAM exactly if too few blocks are free. Nothing has changed then.
pub fn f_mem(s: &mut ProcState, p: Pid) -> CallEnd
    requires lives { IsLiving s.old.table p.0 }
    ensures call { (m : Processes) → RepresentsProcesses s.old m
        → ReturnsCallEnd m p.0 (f_mem_model m p.0) result s.new }
    ensures lives { IsLiving s.new.table p.0 }
{
    call_end(mem(s, p))
}

fn mem(s: &mut ProcState, p: Pid) -> Result<(), u8>
    requires lives { IsLiving s.old.table p.0 }
    ensures call { (m : Processes) → RepresentsProcesses s.old m
        → ReturnsDoneOrRefused m (f_mem_model m p.0) result s.new }
    ensures lives { IsLiving s.new.table p.0 }
{
    let regs = s.regs(p);
    let asked = d_of(regs);
    if asked == 0 {
        let own = s.own(p);
        s.set_regs(p, size_regs(regs, own.size));
        return Ok(());
    }
    set_pages(s, p, asked.div_ceil(PAGE_BYTES))
}

/// The data area gets this number of pages.
fn set_pages(s: &mut ProcState, p: Pid, pages: u16) -> Result<(), u8>
    requires lives { IsLiving s.old.table p.0 }
    requires some { pages ≤ 256 }
    ensures call { (m : Processes) → RepresentsProcesses s.old m
        → ReturnsDoneOrRefused m (sets_pages m p.0 pages) result s.new }
    ensures lives { IsLiving s.new.table p.0 }
{
    if pages > MOST_PAGES {
        return Err(E_MEMFUL);
    }
    resize(s, p, blocks_of_pages(pages))?;
    set_size(s, p, pages * PAGE_BYTES);
    Ok(())
}

/// The data area gets this number of blocks.
fn resize(s: &mut ProcState, p: Pid, count: u8) -> Result<(), u8>
    requires lives { IsLiving s.old.table p.0 }
    ensures call { (m : Processes) → RepresentsProcesses s.old m
        → ReturnsDoneOrRefused m (changes (resized m.memory p.0 count)
        (λ memory. done (with_memory m memory))) result s.new }
    ensures records { s.new.table ≡ s.old.table }
{
    let had = s.memory.area(p);
    if had < count {
        match s.memory.grow(p, count - had) {
            Ok(()) => Ok(()),
            Err(fault) => Err(memory_error(fault)),
        }
    } else {
        s.memory.cut(p, count);
        Ok(())
    }
}

/// Sets the recorded size of the data area in bytes, and returns it in the registers.
fn set_size(s: &mut ProcState, p: Pid, size: u16)
    requires lives { IsLiving s.old.table p.0 }
    ensures tied { (m : Processes) → RepresentsProcesses s.old m
        → RepresentsProcesses s.new (with_size m p.0 size m.memory) }
    ensures lives { IsLiving s.new.table p.0 }
{
    let own = s.own(p);
    s.set_own(p, Own { size, ..own });
    s.set_regs(p, size_regs(s.regs(p), size));
}

/// D: A is its high byte and B its low byte.
fn d_of(regs: Regs) -> u16
    ensures { result ≡ d_of_model regs }
{
    u16::from(regs.a) * 256 + u16::from(regs.b)
}

/// The registers with a size in bytes as the result.
fn size_regs(regs: Regs, size: u16) -> Regs
    ensures { result ≡ size_regs_model regs size }
{
    let a = (size / 256) as u8;
    let b = (size % 256) as u8;
    Regs {
        a,
        b,
        y: size,
        ..regs
    }
}
