//! F$Chain of a program in a file (System Programmer's Manual, F$Chain).

ghost use Rattle.std.specs.Prelude.{◌≡◌, ◌≤◌, IsSome, Ok, take, vec_len};
ghost use Rattle.proc_model.specs.Processes.{Processes};
ghost use Rattle.load_calls.specs.Entering.{TriesFile};
ghost use Rattle.file_rules.specs.Program.{chains, parameters_of, starts_first};
ghost use Rattle.file_rules.specs.ProgramFile.{ProgramFile};
ghost use Rattle.guest_memory.specs.Tie.{RepresentsMemory};
ghost use Rattle.file_state.specs.Tie.{AreSoundFiles};
ghost use Rattle.load_calls.specs.Attempts.{ChainsFrom};
ghost use Rattle.os9_base.specs.declared.registers.TimePacket.{TimePacket};
ghost use Rattle.load_calls.specs.Loading.{GoesOn, HasFirstModule};
ghost use Rattle.os9_base.specs.declared.limits.TheConstants.{MOST_GROUP_BYTES as MOST};
ghost use Rattle.proc_model.specs.Memory.{MemoryState};
ghost use Rattle.proc_model.specs.Records.{IsLiving};
ghost use Rattle.io_state.specs.Context.{InCall, SameTerminals};
ghost use Rattle.file_state.specs.Context.{machine_seen};
ghost use Rattle.file_drives.specs.Drives.{drives_seen};
ghost use Rattle.proc_state.specs.Tie.{RepresentsProcesses};
ghost use Rattle.load_calls.specs.Reading.{IsInBuffer};

use crate::front::try_front;
use crate::named::names_program;
use crate::program::{PROGRAM, enter_program, start_refusal};
use crate::reading::{ProgramRead, read_program};
use crate::refusal::program_refusal;
use crate::trial::blocks_of;
use device_table::devices::Devices;
use file_state::machine::Machine;
use fork_calls::chain::{f_chain as chain_named, start_anew};
use fork_calls::naming::area_pages;
use io_state::requester::Requester;
use os9_base::call::CallEnd;
use os9_base::errors::E_NEMOD;
use os9_base::registers::Pid;
use os9_outer::drive::BlockDriver;
use proc_model::module::ModuleInfo;
use proc_state::outcome::call_end;
use proc_state::state::ProcState;

/// F$Chain: starts another program in this process (System Programmer's Manual, F$Chain). Takes the
/// type and language of the program in A, the pages of its data area in B, its name or its file's
/// path list at X, and the size and the address of its parameters in Y and U. The process keeps its
/// paths and directories.
///
/// # Errors
///
/// If an entered module is named, those of `chain_named`. Else those of `read_program`, including
/// those of `program_refusal` if the list was read, and the number of the drive's fault if it
/// fails; else those of `chain_read`. Nothing has changed then.
pub fn f_chain(machine: &mut Machine, devices: &mut Devices, by: Requester) -> CallEnd
    requires calls { InCall by machine.old.processes }
    requires sound { AreSoundFiles machine.old.files (drives_seen BlockDriver-box devices.old) }
    ensures call { (now : TimePacket) → ChainsFrom now by.p.0 result (vec_len devices.old.terms)
        (machine_seen BlockDriver-box machine.old devices.old)
        (machine_seen BlockDriver-box machine.new devices.new) }
    ensures kept { SameTerminals by machine.new.processes devices.old devices.new }
    ensures io { machine.new.files.io ≡ machine.old.files.io }
    ensures directories { machine.new.files.directories ≡ machine.old.files.directories }
    ensures records { machine.new.files.records ≡ machine.old.files.records }
{
    if names_program(&mut machine.processes, by.p) {
        return chain_named(&mut machine.processes, by.p);
    }
    let refusal = program_refusal(&machine.processes, by.p);
    match read_program(machine, devices, by, refusal) {
        Err(number) => CallEnd::Error(number),
        Ok(read) => call_end(chain_read(&mut machine.processes, by.p, read)),
    }
}

/// A process begins anew with the program of the file at the front of the buffer.
///
/// # Errors
///
/// Those of `try_front`; else E$NEMod exactly if the first module is not a program in 6809 code,
/// else those of `start_refusal`. Nothing has changed then.
pub(crate) fn chain_read(s: &mut ProcState, p: Pid, read: ProgramRead) -> Result<(), u8>
    requires lives { IsLiving s.old.table p.0 }
    requires short { read.size ≤ MOST }
    ensures call { (m : Processes) (file : ProgramFile) → RepresentsProcesses s.old m
        → IsInBuffer s.old.buffer.items file read → IsSome (parameters_of m p.0)
        → GoesOn m file (starts_first chains m p.0) result s.new }
    ensures lives { IsLiving s.new.table p.0 }
{
    match try_front(s, read.size) {
        Err(number) => Err(number),
        Ok(first) => chain_tried(s, p, read, first),
    }
}

/// The same for a tried file with this first module.
///
/// # Errors
///
/// As `chain_read` after the trial.
fn chain_tried(s: &mut ProcState, p: Pid, read: ProgramRead, first: ModuleInfo) -> Result<(), u8>
    requires lives { IsLiving s.old.table p.0 }
    requires short { read.size ≤ MOST }
    requires tried { (m : MemoryState) → RepresentsMemory s.old.memory m
        → TriesFile (take read.size s.old.buffer.items) m (Ok first) }
    requires first { HasFirstModule (take read.size s.old.buffer.items) first }
    ensures call { (m : Processes) (file : ProgramFile) → RepresentsProcesses s.old m
        → IsInBuffer s.old.buffer.items file read → IsSome (parameters_of m p.0)
        → GoesOn m file (starts_first chains m p.0) result s.new }
    ensures lives { IsLiving s.new.table p.0 }
{
    if first.kind != PROGRAM {
        return Err(E_NEMOD);
    }
    let regs = s.regs(p);
    let pages = area_pages(first.storage, regs.b, regs.y);
    match start_refusal(&s.memory, p, blocks_of(read.size as usize), pages) {
        Some(number) => Err(number),
        None => {
            let program = enter_program(s, p, read, first);
            start_anew(s, p, program)
        }
    }
}
