//! The program that the registers of a call name.

ghost use Rattle.std.specs.Prelude.{◌≡◌, IsSome, IfOk, MatchResult};
ghost use Rattle.guest_memory.specs.Tie.{modules_of};
ghost use Rattle.proc_model.specs.ModuleList.{module_entry_at};
ghost use Rattle.proc_model.specs.Records.{IsLiving};
ghost use Rattle.proc_model.specs.Processes.{Processes};
ghost use Rattle.proc_state.specs.Tie.{RepresentsProcesses, AreProcessesSame};
ghost use Rattle.fork_calls.specs.Naming.{IsProgramRead, IsUnread};

use crate::naming::{area_pages, find_program, read_name};
use crate::program::NamedProgram;
use os9_base::errors::E_BPADDR;
use os9_base::registers::Pid;
use proc_state::state::ProcState;

/// Reads the program that the registers of a process name (System Programmer's Manual, F$Fork and
/// F$Chain): its type and language in A, the pages of its data area in B, the address of its name
/// in X, the size and the address of its parameters in Y and U.
///
/// # Errors
///
/// E$BPAddr exactly if a byte of the name or of the parameters is in no named slot or past `FFFF`,
/// else E$NEMod if A does not ask for a program, else E$BNam if the bytes at X are not one name,
/// else E$MNF if no such module is entered, else E$NEMod if the module is not a program in 6809
/// code.
pub fn read_program(s: &mut ProcState, p: Pid) -> Result<NamedProgram, u8>
    requires lives { IsLiving s.old.table p.0 }
    ensures read { (m : Processes) → RepresentsProcesses s.old m
        → MatchResult result (λ program. IsProgramRead m p.0 program s.new.buffer.items)
        (IsUnread m p.0) }
    ensures entered { IfOk result
        (λ program. IsSome (module_entry_at (modules_of s.new.memory) program.id.0)) }
    ensures same { AreProcessesSame s.old s.new }
{
    let regs = s.regs(p);
    let name = read_name(&mut s.memory, p, regs.x);
    if name.is_unreadable() {
        return Err(E_BPADDR);
    }
    if !s.read_bytes(p, regs.u, regs.y) {
        return Err(E_BPADDR);
    }
    let (id, count) = find_program(&s.memory, regs.a, name.module_name())?;
    let info = s.memory.info(id);
    Ok(NamedProgram {
        id,
        pages: area_pages(info.storage, regs.b, regs.y),
        parameters: regs.y,
        count: u32::from(count),
    })
}
