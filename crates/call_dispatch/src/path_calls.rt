//! The calls on paths, files and directories by their names.

ghost use Rattle.std.specs.Prelude.{◌≡◌, vec_len};
ghost use Rattle.io_state.specs.Context.{AsManyTerminals, InCall};
ghost use Rattle.file_state.specs.Context.{machine_seen};
ghost use Rattle.device_table.specs.Seen.{terminals_seen};
ghost use Rattle.call_dispatch.specs.Attempts.{MayAttemptPathCall, TriesAt};
ghost use Rattle.call_dispatch.specs.Calls.{kind_call};
ghost use Rattle.call_dispatch.specs.Dates as model;
ghost use Rattle.file_state.specs.Tie.{AreSoundFiles};
ghost use Rattle.file_drives.specs.Drives.{drives_seen};

use crate::lists::{ListCall, attempt_on_list};
use crate::numbers::{NumberCall, attempt_on_number};
use crate::path_use::PathUse;
use device_table::devices::Devices;
use file_rules::path_call::PathCall;
use file_state::machine::Machine;
use io_state::requester::Requester;
use os9_base::call::CallEnd;
use os9_outer::drive::BlockDriver;
use os9_outer::terminal::CharDriver;

/// What a call takes: the number of a path, or a path list.
#[derive(Clone, Copy, Debug, PartialEq, Eq)]
pub enum CallKind {
    /// The number of a path.
    Number(NumberCall),
    /// A path list.
    List(ListCall),
}

/// What a call takes.
fn kind_of(call: PathCall) -> CallKind
    ensures { kind_call result ≡ call }
{
    match call {
        PathCall::Dup => CallKind::Number(NumberCall::Dup),
        PathCall::Create => CallKind::List(ListCall::Create),
        PathCall::Open => CallKind::List(ListCall::Open),
        PathCall::MakDir => CallKind::List(ListCall::MakDir),
        PathCall::ChgDir => CallKind::List(ListCall::ChgDir),
        PathCall::Delete => CallKind::List(ListCall::Delete),
        PathCall::DeletX => CallKind::List(ListCall::DeletX),
        PathCall::Seek => CallKind::Number(NumberCall::Seek),
        PathCall::Read => CallKind::Number(NumberCall::Use(PathUse::Read)),
        PathCall::Write => CallKind::Number(NumberCall::Use(PathUse::Write)),
        PathCall::ReadLn => CallKind::Number(NumberCall::Use(PathUse::ReadLn)),
        PathCall::WritLn => CallKind::Number(NumberCall::Use(PathUse::WritLn)),
        PathCall::GetStt => CallKind::Number(NumberCall::Use(PathUse::GetStt)),
        PathCall::SetStt => CallKind::Number(NumberCall::Use(PathUse::SetStt)),
        PathCall::Close => CallKind::Number(NumberCall::Close),
        PathCall::PErr => CallKind::Number(NumberCall::Use(PathUse::PErr)),
    }
}

/// Whether the call may set the date of a file.
pub fn sets_date(call: PathCall) -> bool
    ensures { result ≡ model.sets_date call }
{
    match call {
        PathCall::Create
        | PathCall::MakDir
        | PathCall::Write
        | PathCall::WritLn
        | PathCall::SetStt
        | PathCall::PErr => true,
        PathCall::Dup
        | PathCall::Open
        | PathCall::ChgDir
        | PathCall::Delete
        | PathCall::DeletX
        | PathCall::Seek
        | PathCall::Read
        | PathCall::ReadLn
        | PathCall::GetStt
        | PathCall::Close => false,
    }
}

/// An attempt, at the time `by.time`, of a call on paths, files and directories by a living
/// process (System Programmer's Manual, "I/O service requests"). A call that sets no date is the
/// same at any time. The result is not yet given to the process. If a call of the process is
/// pending, this is a further attempt of it, with the registers that it was made with. `NoMemory`
/// is returned only if there was no memory for a byte that is put on a terminal, or for an entry of
/// the history.
///
/// # Errors
///
/// Those of the calls, in the order of their definitions.
pub fn attempt_on_path(
    machine: &mut Machine,
    devices: &mut Devices,
    by: Requester,
    call: PathCall,
) -> CallEnd
    requires calls { InCall by machine.old.processes }
    requires may { MayAttemptPathCall call machine.old.processes machine.old.files by.p.0
        (vec_len devices.old.terms) }
    requires sound { AreSoundFiles machine.old.files (drives_seen BlockDriver-box devices.old) }
    ensures call { TriesAt call by.time by.p.0 result (terminals_seen CharDriver-box devices.old)
        (terminals_seen CharDriver-box devices.new)
        (machine_seen BlockDriver-box machine.old devices.old)
        (machine_seen BlockDriver-box machine.new devices.new) }
    ensures kept { AsManyTerminals by machine.new.processes devices.old devices.new }
{
    match kind_of(call) {
        CallKind::Number(number) => attempt_on_number(machine, devices, by, number),
        CallKind::List(list) => {
            // A call that takes a path list is never pending.
            prove!(machine.files.io.pending(by.p).is_none());
            attempt_on_list(machine, devices, by, list)
        }
    }
}
