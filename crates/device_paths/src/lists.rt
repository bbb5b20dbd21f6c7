//! The path lists of calls.

ghost use Rattle.std.specs.Prelude.{◌≡◌, ◌<◌};
ghost use Rattle.proc_model.specs.Processes.{Processes, cells_at};
ghost use Rattle.io_model.specs.PathList.{path_list};
ghost use Rattle.device_paths.specs.Listed.{listed_of};
ghost use Rattle.proc_state.specs.Tie.{RepresentsProcesses, AreProcessesSame};

use crate::list::{Listed, read_path_list};
use os9_base::name_fault::NameFault;
use os9_base::registers::Pid;
use proc_state::state::ProcState;

/// The path list at an address of a process.
///
/// # Errors
///
/// `Unreadable` exactly if a byte that must be read is in no named slot or past `FFFF`, else
/// `NoName` exactly if there is no name where one is required.
pub(crate) fn read_list(s: &mut ProcState, p: Pid, at: u16) -> Result<Listed, NameFault>
    requires { p.0 < 33 }
    ensures list { (m : Processes) → RepresentsProcesses s.old m
        → result ≡ listed_of (path_list (cells_at m p.0) at) }
    ensures same { AreProcessesSame s.old s.new }
{
    read_path_list(&mut s.memory, p, at)
}
