//! Modules that a call names.

ghost use Rattle.std.specs.Prelude.{◌≡◌, ◌<◌, IsSome, IfOk, MatchResult};
ghost use Rattle.guest_memory.specs.Tie.{modules_of};
ghost use Rattle.proc_model.specs.ModuleList.{module_entry_at};
ghost use Rattle.proc_model.specs.Records.{IsLiving};
ghost use Rattle.os9_base.specs.UserNames.{name_at};
ghost use Rattle.proc_model.specs.Processes.{Processes, cells_at};
ghost use Rattle.proc_state.specs.Tie.{RepresentsProcesses, AreProcessesSame};
ghost use Rattle.proc_calls.specs.Named.{name_or_error, IsModuleNamed, IsUnnamed};

use os9_base::errors::{E_BNAM, E_BPADDR, E_MNF};
use os9_base::name::Name;
use os9_base::name_fault::NameFault;
use os9_base::registers::Pid;
use proc_model::module::ModId;
use proc_state::state::ProcState;

/// The module with the name at X and the type and language in A, and the length of the name.
///
/// # Errors
///
/// E$BPAddr and E$BNam of the name, else E$MNF exactly if no such module is entered.
pub fn named_module(s: &mut ProcState, p: Pid) -> Result<(ModId, u8), u8>
    requires lives { IsLiving s.old.table p.0 }
    ensures named { (m : Processes) → RepresentsProcesses s.old m
        → MatchResult result (λ found. IsModuleNamed m p.0 found.0.0 found.1) (IsUnnamed m p.0) }
    ensures entered { IfOk result
        (λ found. IsSome (module_entry_at (modules_of s.new.memory) found.0.0)) }
    ensures same { AreProcessesSame s.old s.new }
{
    let regs = s.regs(p);
    let name = read_name(s, p, regs.x)?;
    match s.memory.modules().find(&name, regs.a) {
        Some(id) => Ok((id, name.len())),
        None => Err(E_MNF),
    }
}

/// The name at an address of a process.
fn read_name(s: &mut ProcState, p: Pid, at: u16) -> Result<Name, u8>
    requires { p.0 < 33 }
    ensures name { (m : Processes) → RepresentsProcesses s.old m
        → result ≡ name_or_error (name_at (cells_at m p.0) at) }
    ensures same { AreProcessesSame s.old s.new }
{
    match s.memory.name(p, at) {
        Ok(name) => Ok(name),
        Err(NameFault::Unreadable) => Err(E_BPADDR),
        Err(NameFault::NoName) => Err(E_BNAM),
    }
}
