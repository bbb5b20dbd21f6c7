//! Calls that take a path list.

ghost use Rattle.std.specs.Prelude.{◌≡◌, List, length, vec_len};
ghost use Rattle.io_state.specs.Context.{SameTerminals};
ghost use Rattle.file_state.specs.Context.{InFirstAttempt, machine_seen};
ghost use Rattle.call_dispatch.specs.Bounds.{attempt_calls};
ghost use Rattle.call_dispatch.specs.Calls.{list_call};
ghost use Rattle.call_dispatch.specs.Dates.{IsTimeFor};
ghost use Rattle.file_state.specs.Counted.{AttemptsWithin};
ghost use Rattle.file_state.specs.Tie.{AreSoundFiles};
ghost use Rattle.os9_base.specs.declared.registers.TimePacket.{TimePacket};
ghost use Rattle.os9_outer.specs.TerminalState.{TerminalState};
ghost use Rattle.file_drives.specs.Drives.{drives_seen};

use device_table::devices::Devices;
use file_state::machine::Machine;
use io_state::requester::Requester;
use name_calls::chgdir::i_chgdir;
use name_calls::create::i_create;
use name_calls::delete::{i_delete, i_deletx};
use name_calls::makdir::i_makdir;
use name_calls::open::i_open;
use os9_base::call::CallEnd;
use os9_outer::drive::BlockDriver;

/// A call that takes a path list (System Programmer's Manual, "I/O service requests").
#[derive(Clone, Copy, Debug, PartialEq, Eq)]
pub enum ListCall {
    /// I$Create: makes a file; opens a terminal or a pipe.
    Create,
    /// I$Open: opens a path.
    Open,
    /// I$MakDir: makes a directory.
    MakDir,
    /// I$ChgDir: changes a directory of the process.
    ChgDir,
    /// I$Delete: deletes a file.
    Delete,
    /// I$DeletX: deletes a file, from the directory that the mode chooses.
    DeletX,
}

/// An attempt, at the time `by.time`, of a call that takes a path list, by a living process
/// (System Programmer's Manual, "I/O service requests"). The result is not yet given to the
/// process. The call never waits, and puts no byte on a terminal.
///
/// # Errors
///
/// Those of the calls, in the order of their definitions.
pub fn attempt_on_list(
    machine: &mut Machine,
    devices: &mut Devices,
    by: Requester,
    call: ListCall,
) -> CallEnd
    requires calls { InFirstAttempt by machine.old }
    requires sound { AreSoundFiles machine.old.files (drives_seen BlockDriver-box devices.old) }
    ensures call { (time : TimePacket) (terms : List TerminalState)
        → IsTimeFor (list_call call) by.time time → length terms ≡ vec_len devices.old.terms
        → AttemptsWithin (attempt_calls (list_call call)) (list_call call) time by.p.0 result terms
        terms (machine_seen BlockDriver-box machine.old devices.old)
        (machine_seen BlockDriver-box machine.new devices.new) }
    ensures kept { SameTerminals by machine.new.processes devices.old devices.new }
{
    match call {
        ListCall::Create => i_create(machine, devices, by),
        ListCall::Open => i_open(machine, devices, by),
        ListCall::MakDir => i_makdir(machine, devices, by),
        ListCall::ChgDir => i_chgdir(machine, devices, by),
        ListCall::Delete => i_delete(machine, devices, by),
        ListCall::DeletX => i_deletx(machine, devices, by),
    }
}
