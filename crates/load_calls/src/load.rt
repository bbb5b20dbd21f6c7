//! F$Load (System Programmer's Manual, F$Load).

ghost use Rattle.std.specs.Prelude.{◌≡◌, ◌<◌, ◌≤◌, Ok, take, vec_len};
ghost use Rattle.proc_model.specs.Processes.{Processes};
ghost use Rattle.load_calls.specs.Entering.{TriesFile};
ghost use Rattle.file_rules.specs.Load.{links_first};
ghost use Rattle.file_rules.specs.ProgramFile.{ProgramFile};
ghost use Rattle.guest_memory.specs.Tie.{RepresentsMemory};
ghost use Rattle.file_state.specs.Tie.{AreSoundFiles};
ghost use Rattle.load_calls.specs.Attempts.{LoadAttemptedFrom};
ghost use Rattle.os9_base.specs.declared.registers.TimePacket.{TimePacket};
ghost use Rattle.load_calls.specs.Loading as model;
ghost use Rattle.load_calls.specs.Loading.{GoesOn, HasFirstModule};
ghost use Rattle.os9_base.specs.declared.limits.TheConstants.{MOST_GROUP_BYTES as MOST};
ghost use Rattle.proc_model.specs.Memory.{MemoryState};
ghost use Rattle.proc_model.specs.Records.{IsLiving};
ghost use Rattle.io_state.specs.Context.{InCall, SameTerminals};
ghost use Rattle.file_state.specs.Context.{machine_seen};
ghost use Rattle.file_drives.specs.Drives.{drives_seen};
ghost use Rattle.proc_state.specs.Tie.{RepresentsProcesses};
ghost use Rattle.load_calls.specs.Reading.{IsInBuffer};

use crate::front::{enter_front, try_front};
use crate::reading::{ProgramRead, read_program};
use crate::trial::blocks_of;
use device_table::devices::Devices;
use file_state::machine::Machine;
use io_state::requester::Requester;
use os9_base::call::CallEnd;
use os9_base::errors::E_MEMFUL;
use os9_base::registers::Pid;
use os9_outer::drive::BlockDriver;
use proc_calls::links::link_module;
use proc_model::memory::MOST_LINKS;
use proc_model::module::ModuleInfo;
use proc_state::outcome::call_end;
use proc_state::state::ProcState;

/// F$Load: loads a file of modules (System Programmer's Manual, F$Load). Takes the path list at X;
/// returns the first module's type and language in A, its attributes and revision in B, X past the
/// list, its entry in Y and its header's address in U. All modules of the file are entered as one
/// group, and the process gets a link to the first.
///
/// # Errors
///
/// Those of `read_program`, and the number of the drive's fault if it fails; else those of
/// `try_front`; else E$MemFul exactly if the map has too few slots left or no links are left.
/// Nothing has changed then.
pub fn f_load(machine: &mut Machine, devices: &mut Devices, by: Requester) -> CallEnd
    requires calls { InCall by machine.old.processes }
    requires sound { AreSoundFiles machine.old.files (drives_seen BlockDriver-box devices.old) }
    ensures call { (now : TimePacket) → LoadAttemptedFrom now by.p.0 result
        (vec_len devices.old.terms) (machine_seen BlockDriver-box machine.old devices.old)
        (machine_seen BlockDriver-box machine.new devices.new) }
    ensures kept { SameTerminals by machine.new.processes devices.old devices.new }
    ensures io { machine.new.files.io ≡ machine.old.files.io }
    ensures directories { machine.new.files.directories ≡ machine.old.files.directories }
    ensures records { machine.new.files.records ≡ machine.old.files.records }
{
    match read_program(machine, devices, by, None) {
        Err(number) => CallEnd::Error(number),
        Ok(read) => call_end(load_read(&mut machine.processes, by.p, read)),
    }
}

/// A process loads the file at the front of the buffer, and links its first module.
///
/// # Errors
///
/// Those of `try_front`, else E$MemFul exactly if its map has too few slots left or no links are
/// left. Nothing has changed then.
pub(crate) fn load_read(s: &mut ProcState, p: Pid, read: ProgramRead) -> Result<(), u8>
    requires lives { IsLiving s.old.table p.0 }
    requires short { read.size ≤ MOST }
    ensures call { (m : Processes) (file : ProgramFile) → RepresentsProcesses s.old m
        → IsInBuffer s.old.buffer.items file read → GoesOn m file (links_first m p.0) result s.new }
    ensures lives { IsLiving s.new.table p.0 }
{
    match try_front(s, read.size) {
        Err(number) => Err(number),
        Ok(first) => load_tried(s, p, read, first),
    }
}

/// The same for a tried file with this first module.
///
/// # Errors
///
/// E$MemFul exactly if its map has too few slots left or no links are left. Nothing has changed
/// then.
fn load_tried(s: &mut ProcState, p: Pid, read: ProgramRead, first: ModuleInfo) -> Result<(), u8>
    requires lives { IsLiving s.old.table p.0 }
    requires short { read.size ≤ MOST }
    requires tried { (m : MemoryState) → RepresentsMemory s.old.memory m
        → TriesFile (take read.size s.old.buffer.items) m (Ok first) }
    requires first { HasFirstModule (take read.size s.old.buffer.items) first }
    ensures call { (m : Processes) (file : ProgramFile) → RepresentsProcesses s.old m
        → IsInBuffer s.old.buffer.items file read → GoesOn m file (links_first m p.0) result s.new }
    ensures lives { IsLiving s.new.table p.0 }
{
    let x = s.regs(p).x;
    if !has_place(s, p, blocks_of(read.size as usize)) {
        return Err(E_MEMFUL);
    }
    let id = enter_front(s, read.size, first);
    link_module(s, p, id, read.next.saturating_sub(u32::from(x)))
}

/// Does the map of a process have `blocks` free slots in a row, and may the process have one link
/// more at the slot where the group would be mapped?
fn has_place(s: &ProcState, p: Pid, blocks: u8) -> bool
    requires process { p.0 < 33 }
    requires some { 1 ≤ blocks }
    ensures { (m : Processes) → RepresentsProcesses s.now m → result
        ≡ model.has_place m p.0 blocks }
{
    match s.memory.free_run(p, blocks) {
        Some(slot) => s.own(p).links[slot as usize] < MOST_LINKS,
        None => false,
    }
}
