//! Calls on terminals and pipes, as calls on paths, files and directories.

ghost use Rattle.std.specs.Prelude.{◌≡◌, None, vec_len};
ghost use Rattle.io_state.specs.Context.{InCall, SameDrives};
ghost use Rattle.file_state.specs.Context.{machine_seen};
ghost use Rattle.device_table.specs.Seen.{terminals_seen};
ghost use Rattle.call_dispatch.specs.Attempts.{TriesOnDevice};
ghost use Rattle.call_dispatch.specs.Staying.{MayAttemptIo};
ghost use Rattle.io_model.specs.Io.{pending_at};

use crate::device_calls::attempt_on_stream;
use device_table::devices::Devices;
use file_state::machine::Machine;
use io_model::io_call::IoCall;
use io_state::requester::Requester;
use os9_base::call::CallEnd;
use os9_outer::drive::BlockDriver;
use os9_outer::terminal::CharDriver;

/// An attempt of a call on terminals and pipes, in the state of files: it is the attempt of each
/// call on paths, files and directories that is this device call (System Programmer's Manual, "I/O
/// service requests"). No drive is called, and volumes, directories and locks stay; no request of
/// the process for a record is left. `NoMemory` is returned only if a byte was to be put on a
/// terminal.
///
/// # Errors
///
/// Those of the calls, in the order of their definitions.
pub fn attempt_on_device(
    machine: &mut Machine,
    devices: &mut Devices,
    by: Requester,
    call: IoCall,
) -> CallEnd
    requires calls { InCall by machine.old.processes }
    requires may { MayAttemptIo call machine.old.processes machine.old.files.io by.p.0
        (vec_len devices.old.terms) }
    requires status { call ≡ IoCall.SetStt → pending_at machine.old.files.io by.p.0 ≡ None }
    ensures call { TriesOnDevice call by.p.0 (vec_len devices.old.drives) result
        (terminals_seen CharDriver-box devices.old) (terminals_seen CharDriver-box devices.new)
        (machine_seen BlockDriver-box machine.old devices.old)
        (machine_seen BlockDriver-box machine.new devices.new) }
    ensures kept { SameDrives by machine.new.processes devices.old devices.new }
{
    machine.files.records.cancel(by.p);
    attempt_on_stream(
        &mut machine.processes,
        &mut machine.files.io,
        devices,
        by,
        call,
    )
}
