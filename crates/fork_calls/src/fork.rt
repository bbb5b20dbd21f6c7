//! F$Fork: the beginning of a process.

ghost use Rattle.std.specs.Prelude.{◌≡◌, None, Some, IsSome, take};
ghost use Rattle.std.specs.Option.{ForSome};
ghost use Rattle.guest_memory.specs.Tie.{modules_of};
ghost use Rattle.proc_model.specs.ModuleList.{ModuleEntry, module_entry_at};
ghost use Rattle.proc_model.specs.Records.{IsLiving, free_process};
ghost use Rattle.proc_model.specs.Fork as model;
ghost use Rattle.proc_model.specs.Processes.{Processes};
ghost use Rattle.proc_model.specs.Program.{Program};
ghost use Rattle.proc_state.specs.Tie.{RepresentsProcesses, ReturnsDoneOrRefused, ReturnsCallEnd};
ghost use Rattle.fork_calls.specs.Loading.{with_new_child};
ghost use Rattle.fork_calls.specs.Naming.{meant};
ghost use Rattle.fork_calls.specs.Starting.{starts_child};

use crate::loading::load_program;
use crate::program::NamedProgram;
use crate::reading::read_program;
use crate::starting::Beginning;
use os9_base::call::CallEnd;
use os9_base::errors::E_PRCFUL;
use os9_base::registers::{Pid, Regs};
use proc_state::outcome::call_end;
use proc_state::state::ProcState;

/// F$Fork: starts a process (System Programmer's Manual, F$Fork). Takes the type and language of
/// the program in A, the pages of its data area in B, the address of its name in X, and the size
/// and the address of its parameters in Y and U. Returns the number of the new process in A, and
/// the address after the name in X. The new process is a child of this one and has its user and its
/// priority.
///
/// # Errors
///
/// Those of the name, the parameters and the program, as in [`read_program`], else E$PrcFul exactly
/// if there are 31 records, else E$MemFul and E$NoRAM exactly if there is no room for its memory,
/// as in [`load_program`]. Nothing has changed then.
pub fn f_fork(s: &mut ProcState, p: Pid) -> CallEnd
    requires lives { IsLiving s.old.table p.0 }
    ensures call { (m : Processes) → RepresentsProcesses s.old m
        → ReturnsCallEnd m p.0 (model.f_fork m p.0) result s.new }
    ensures lives { IsLiving s.new.table p.0 }
{
    call_end(fork(s, p))
}

fn fork(s: &mut ProcState, p: Pid) -> Result<(), u8>
    requires lives { IsLiving s.old.table p.0 }
    ensures call { (m : Processes) → RepresentsProcesses s.old m
        → ReturnsDoneOrRefused m (model.f_fork m p.0) result s.new }
    ensures lives { IsLiving s.new.table p.0 }
{
    let program = read_program(s, p)?;
    start_child(s, p, program)
}

/// A process gets a child, which starts a program. The parameters are at the front of the buffer.
/// The results are those of F$Fork.
///
/// # Errors
///
/// E$PrcFul exactly if there are 31 records; else E$MemFul and E$NoRAM exactly if there is no room
/// for its memory, as in [`load_program`]. Nothing has changed then.
pub fn start_child(s: &mut ProcState, p: Pid, program: NamedProgram) -> Result<(), u8>
    requires lives { IsLiving s.old.table p.0 }
    requires entered { IsSome (module_entry_at (modules_of s.old.memory) program.id.0) }
    ensures call { (m : Processes) (entry : ModuleEntry) → RepresentsProcesses s.old m
        → module_entry_at m.memory.modules program.id.0 ≡ Some entry
        → ReturnsDoneOrRefused m (starts_child m p.0 (meant program entry
        (take program.parameters s.old.buffer.items))) result s.new }
    ensures lives { IsLiving s.new.table p.0 }
{
    let Some(child) = s.table.free() else {
        return Err(E_PRCFUL);
    };
    let regs = s.regs(p);
    let start = load_program(s, child, program)?;
    add_child(s, p, child, start);
    s.set_regs(p, forked_regs(regs, child, program.count));
    Ok(())
}

/// A process gets a child with the least free number and this beginning.
fn add_child(s: &mut ProcState, p: Pid, child: Pid, start: Beginning)
    requires lives { IsLiving s.old.table p.0 }
    requires free { free_process s.old.table ≡ Some child.0 }
    requires entered { ForSome start.own.primary
        (λ id. IsSome (module_entry_at (modules_of s.old.memory) id.0)) }
    requires until { start.own.until ≡ None }
    ensures tied { (m : Processes) → RepresentsProcesses s.old m
        → RepresentsProcesses s.new (with_new_child m p.0 child.0 start) }
    ensures lives { IsLiving s.new.table p.0 }
{
    let user = s.table.user(p);
    let priority = s.table.priority(p);
    s.set_own(child, start.own);
    let made = s.make(p, user, priority).unwrap();
    s.set_regs(made, start.regs);
}

/// The registers of a process that has forked this child with a program whose name, or path list,
/// has `count` characters.
pub fn forked_regs(regs: Regs, child: Pid, count: u32) -> Regs
    ensures { (program : Program) → program.count ≡ count
        → result ≡ model.forked_regs regs child.0 program }
{
    Regs {
        a: child.0,
        x: regs.x.wrapping_add((count % 65_536) as u16),
        ..regs
    }
}
