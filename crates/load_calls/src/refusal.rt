//! The tests of F$Fork and F$Chain on their registers after their path list is read.

ghost use Rattle.std.specs.Prelude.{◌≡◌};
ghost use Rattle.proc_model.specs.Processes.{Processes};
ghost use Rattle.proc_model.specs.Program as model;
ghost use Rattle.file_rules.specs.Program.{tests_program};
ghost use Rattle.file_rules.specs.ProgramFile.{ProgramFile};
ghost use Rattle.file_rules.specs.Step.{Step};
ghost use Rattle.file_routes.specs.Routes.{refuses_by};
ghost use Rattle.proc_model.specs.Records.{IsLiving};
ghost use Rattle.proc_state.specs.Tie.{RepresentsProcesses};

use os9_base::errors::{E_BPADDR, E_NEMOD};
use os9_base::registers::Pid;
use proc_state::state::ProcState;

/// The type and language of a program in 6809 code (Level Two manual, "Memory modules").
const PROGRAM: u8 = 0x11;

/// The type of a program, in any language.
const ANY_PROGRAM: u8 = 0x10;

/// The number with which a call that starts a program of a file is refused, by its registers
/// (System Programmer's Manual, F$Fork and F$Chain): E$BPAddr exactly if a byte of the parameters
/// is in no named slot or past `FFFF`; else E$NEMod exactly if A does not ask for a program. None
/// if the call goes on.
pub fn program_refusal(s: &ProcState, p: Pid) -> Option<u8>
    requires { IsLiving s.now.table p.0 }
    ensures { (m : Processes) (step : Step ProgramFile) → RepresentsProcesses s.now m
        → refuses_by result step ≡ tests_program m p.0 step }
{
    let regs = s.regs(p);
    if !s.is_named(p, regs.u, regs.y) {
        Some(E_BPADDR)
    } else if !asks_for_program(regs.a) {
        Some(E_NEMOD)
    } else {
        None
    }
}

/// May a call ask for this type and language: any, a program in any language, or in 6809 code?
fn asks_for_program(kind: u8) -> bool
    ensures { result ≡ model.asks_for_program kind }
{
    matches!(kind, 0 | ANY_PROGRAM | PROGRAM)
}
