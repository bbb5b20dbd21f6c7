//! Calls on the number of a path.

ghost use Rattle.std.specs.Prelude.{vec_len};
ghost use Rattle.io_state.specs.Context.{AsManyTerminals, InCall};
ghost use Rattle.file_state.specs.Context.{machine_seen};
ghost use Rattle.device_table.specs.Seen.{terminals_seen};
ghost use Rattle.call_dispatch.specs.Attempts.{MayAttemptPathCall, TriesAt};
ghost use Rattle.call_dispatch.specs.Numbers.{number_call};
ghost use Rattle.file_state.specs.Tie.{AreSoundFiles};
ghost use Rattle.file_drives.specs.Drives.{drives_seen};

use crate::device::attempt_on_device;
use crate::path::{close_path, seek_path, use_path};
use crate::path_use::PathUse;
use device_table::devices::Devices;
use file_state::machine::Machine;
use io_model::io_call::IoCall;
use io_state::requester::Requester;
use os9_base::call::CallEnd;
use os9_outer::drive::BlockDriver;
use os9_outer::terminal::CharDriver;

/// A call on the number of a path, which takes no path list (System Programmer's Manual, "I/O
/// service requests").
#[derive(Clone, Copy, Debug, PartialEq, Eq)]
pub enum NumberCall {
    /// I$Dup: gives a path another number.
    Dup,
    /// I$Seek: sets the position of a path.
    Seek,
    /// I$Close: closes a path number.
    Close,
    /// A use of the path.
    Use(PathUse),
}

/// An attempt, at the time `by.time`, of a call on the number of a path, by a living process
/// (System Programmer's Manual, "I/O service requests"). The result is not yet given to the
/// process. If a call of the process is pending, this is a further attempt of it. `NoMemory` is
/// returned only if there was no memory for a byte that is put on a terminal, or for an entry of
/// the history.
///
/// # Errors
///
/// Those of the calls, in the order of their definitions.
pub fn attempt_on_number(
    machine: &mut Machine,
    devices: &mut Devices,
    by: Requester,
    call: NumberCall,
) -> CallEnd
    requires calls { InCall by machine.old.processes }
    requires may { MayAttemptPathCall (number_call call) machine.old.processes machine.old.files
        by.p.0 (vec_len devices.old.terms) }
    requires sound { AreSoundFiles machine.old.files (drives_seen BlockDriver-box devices.old) }
    ensures call { TriesAt (number_call call) by.time by.p.0 result
        (terminals_seen CharDriver-box devices.old) (terminals_seen CharDriver-box devices.new)
        (machine_seen BlockDriver-box machine.old devices.old)
        (machine_seen BlockDriver-box machine.new devices.new) }
    ensures kept { AsManyTerminals by machine.new.processes devices.old devices.new }
{
    match call {
        NumberCall::Dup => attempt_on_device(machine, devices, by, IoCall::Dup),
        NumberCall::Seek => seek_path(machine, by),
        NumberCall::Close => close_path(machine, devices, by),
        NumberCall::Use(used) => use_path(machine, devices, by, used),
    }
}
