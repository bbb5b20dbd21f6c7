//! The entered module that the registers of a call name.

ghost use Rattle.std.specs.Prelude.{◌≡◌, is_some, option_and_then};
ghost use Rattle.proc_model.specs.Processes.{Processes};
ghost use Rattle.proc_model.specs.ModuleLinks.{found_entry};
ghost use Rattle.file_rules.specs.Program.{named_program};
ghost use Rattle.guest_memory.specs.Tie.{RepresentsMemory};
ghost use Rattle.proc_model.specs.Memory.{MemoryState};
ghost use Rattle.proc_model.specs.Records.{IsLiving};
ghost use Rattle.proc_state.specs.Tie.{AreProcessesSame, RepresentsProcesses};

use fork_calls::naming::read_name;
use guest_memory::memory::Memory;
use os9_base::name::Name;
use os9_base::registers::Pid;
use proc_state::state::ProcState;

/// Are the bytes at X one name, and is a module with that name and the type and language in A
/// entered (System Programmer's Manual, F$Fork and F$Chain)? If not, X is a path list.
pub(crate) fn names_program(s: &mut ProcState, p: Pid) -> bool
    requires lives { IsLiving s.old.table p.0 }
    ensures named { (m : Processes) → RepresentsProcesses s.old m → result
        ≡ is_some (named_program m p.0) }
    ensures same { AreProcessesSame s.old s.new }
{
    let regs = s.regs(p);
    let name = read_name(&mut s.memory, p, regs.x);
    is_entered(&s.memory, name.module_name(), regs.a)
}

/// Is there a name, and is a module with that name and this type and language entered?
fn is_entered(memory: &Memory, name: Option<Name>, kind: u8) -> bool
    ensures { (m : MemoryState) → RepresentsMemory memory.now m
        → result ≡ is_some (option_and_then (λ name. found_entry m.modules name kind) name) }
{
    match name {
        Some(name) => memory.modules().find(&name, kind).is_some(),
        None => false,
    }
}
