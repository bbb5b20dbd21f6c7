//! What the code of a call asks for.

ghost use Rattle.std.specs.Prelude.{◌≡◌};
ghost use Rattle.machine_model.specs.Services as model;
ghost use Rattle.machine_model.specs.Services.{service_of};
ghost use Rattle.os9_kernel.specs.Services.{IsPlainService, service_in_machine};

use file_rules::path_call::{PathCall, path_call};
use os9_base::calls::F_LOAD;
use proc_model::proc_call::{ProcCall, proc_call};
use time_rules::time_call::{TimeCall, time_call};

/// A call that may load a file of modules.
#[derive(Clone, Copy, Debug, PartialEq, Eq)]
pub enum LoadCall {
    /// F$Load: loads one file.
    Load,
    /// F$Fork: a child starts a program, from an entered module or from a file.
    Fork,
    /// F$Chain: the process itself starts a program.
    Chain,
}

/// What the code of a call asks for.
#[derive(Clone, Copy, Debug, PartialEq, Eq)]
pub enum Service {
    Load(LoadCall),
    /// A call on processes and modules that loads nothing.
    Process(ProcCall),
    Time(TimeCall),
    /// A call on paths, files and directories.
    Path(PathCall),
    /// An unknown code.
    Unknown,
}

/// What a code asks for (System Programmer's Manual, "System calls").
pub(crate) fn service_by_code(code: u8) -> Service
    ensures is { service_of code ≡ service_in_machine result }
    ensures plain { IsPlainService result }
{
    if code == F_LOAD {
        return Service::Load(LoadCall::Load);
    }
    match proc_call(code) {
        Some(call) => on_processes(call),
        None => match time_call(code) {
            Some(call) => Service::Time(call),
            None => match path_call(code) {
                Some(call) => Service::Path(call),
                None => Service::Unknown,
            },
        },
    }
}

/// The service of a call on processes and modules.
fn on_processes(call: ProcCall) -> Service
    ensures is { service_in_machine result ≡ model.on_processes call }
    ensures plain { IsPlainService result }
{
    match call {
        ProcCall::Fork => Service::Load(LoadCall::Fork),
        ProcCall::Chain => Service::Load(LoadCall::Chain),
        _ => Service::Process(call),
    }
}
