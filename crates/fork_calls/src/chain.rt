//! F$Chain: another program in the same process.

ghost use Rattle.std.specs.Prelude.{◌≡◌, None, Some, IsSome, take};
ghost use Rattle.std.specs.Option.{ForSome};
ghost use Rattle.guest_memory.specs.Tie.{modules_of};
ghost use Rattle.proc_model.specs.ModuleList.{ModuleEntry, module_entry_at};
ghost use Rattle.proc_model.specs.Records.{IsLiving, with_regs};
ghost use Rattle.proc_model.specs.Signals.{with_intercept};
ghost use Rattle.proc_model.specs.Chain as model;
ghost use Rattle.proc_model.specs.Processes.{Processes, own_at, with_records};
ghost use Rattle.proc_model.specs.ModuleLinks.{without_primary_link};
ghost use Rattle.proc_state.specs.Tie.{RepresentsProcesses, ReturnsDoneOrRefused, ReturnsCallEnd};
ghost use Rattle.fork_calls.specs.Chaining.{begun_so};
ghost use Rattle.fork_calls.specs.Naming.{meant};
ghost use Rattle.fork_calls.specs.Starting.{starts_anew};

use crate::loading::load_program;
use crate::program::NamedProgram;
use crate::reading::read_program;
use crate::starting::Beginning;
use os9_base::call::CallEnd;
use os9_base::registers::{Pid, Regs};
use proc_state::outcome::call_end;
use proc_state::state::ProcState;

/// F$Chain: starts another program in this process (System Programmer's Manual, F$Chain). Takes the
/// type and language of the program in A, the pages of its data area in B, the address of its name
/// in X, and the size and the address of its parameters in Y and U. The process keeps its number,
/// its parent, its user, its priority, its children and a pending signal; it gives up its map, its
/// intercept and, once the new program is linked, a link to its old primary module.
///
/// # Errors
///
/// Those of the name, the parameters and the program, as in [`read_program`], else E$MemFul and
/// E$NoRAM exactly if there is no room for its memory, as in [`load_program`]; the blocks of its
/// own data area count as free. Nothing has changed then.
pub fn f_chain(s: &mut ProcState, p: Pid) -> CallEnd
    requires lives { IsLiving s.old.table p.0 }
    ensures call { (m : Processes) → RepresentsProcesses s.old m
        → ReturnsCallEnd m p.0 (model.f_chain m p.0) result s.new }
    ensures lives { IsLiving s.new.table p.0 }
{
    call_end(chain(s, p))
}

fn chain(s: &mut ProcState, p: Pid) -> Result<(), u8>
    requires lives { IsLiving s.old.table p.0 }
    ensures call { (m : Processes) → RepresentsProcesses s.old m
        → ReturnsDoneOrRefused m (model.f_chain m p.0) result s.new }
    ensures lives { IsLiving s.new.table p.0 }
{
    let program = read_program(s, p)?;
    start_anew(s, p, program)
}

/// A process begins anew with a program. The parameters are at the front of the buffer. The process
/// changes as by F$Chain.
///
/// # Errors
///
/// E$MemFul and E$NoRAM exactly if there is no room for its memory, as in [`load_program`]; the
/// blocks of its own data area count as free. Nothing has changed then.
pub fn start_anew(s: &mut ProcState, p: Pid, program: NamedProgram) -> Result<(), u8>
    requires lives { IsLiving s.old.table p.0 }
    requires entered { IsSome (module_entry_at (modules_of s.old.memory) program.id.0) }
    ensures call { (m : Processes) (entry : ModuleEntry) → RepresentsProcesses s.old m
        → module_entry_at m.memory.modules program.id.0 ≡ Some entry
        → ReturnsDoneOrRefused m (starts_anew m p.0 (meant program entry
        (take program.parameters s.old.buffer.items))) result s.new }
    ensures lives { IsLiving s.new.table p.0 }
{
    let start = load_program(s, p, program)?;
    begin_anew(s, p, start);
    Ok(())
}

/// A process begins anew with a program in its memory, and gives up the link to its old primary
/// module, if it has one.
fn begin_anew(s: &mut ProcState, p: Pid, start: Beginning)
    requires lives { IsLiving s.old.table p.0 }
    requires entered { ForSome start.own.primary
        (λ id. IsSome (module_entry_at (modules_of s.old.memory) id.0)) }
    requires until { start.own.until ≡ None }
    ensures tied { (m : Processes) → RepresentsProcesses s.old m
        → RepresentsProcesses s.new (without_primary_link (begun_so m p.0 start) (own_at m p.0)) }
    ensures lives { IsLiving s.new.table p.0 }
{
    let old = s.own(p);
    renew_record(s, p, start.regs);
    s.set_own(p, start.own);
    s.unlink_primary(old);
}

/// The record of a process gets these registers, and has no intercept any more.
fn renew_record(s: &mut ProcState, p: Pid, regs: Regs)
    requires lives { IsLiving s.old.table p.0 }
    ensures tied { (m : Processes) → RepresentsProcesses s.old m → RepresentsProcesses s.new
        (with_records m (with_intercept (with_regs m.records p.0 regs) p.0 None)) }
    ensures lives { IsLiving s.new.table p.0 }
    ensures modules { modules_of s.new.memory ≡ modules_of s.old.memory }
    ensures own { s.new.own ≡ s.old.own }
    ensures tick { s.new.tick ≡ s.old.tick }
{
    s.table.set_regs(p, regs);
    s.table.intercept(p, 0, 0);
}
