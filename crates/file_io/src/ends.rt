//! The ends of calls.

ghost use Rattle.std.specs.Prelude.{◌≡◌, None};
ghost use Rattle.file_state.specs.Context.{InFileCall};
ghost use Rattle.proc_model.specs.Processes.{Processes, with_regs_of};
ghost use Rattle.file_io.specs.Opened.{IsPathOf, moved_to};
ghost use Rattle.io_model.specs.Io.{with_call};
ghost use Rattle.proc_model.specs.Records.{IsLiving};
ghost use Rattle.proc_state.specs.Tie.{RepresentsProcesses};

use file_state::machine::Machine;
use file_state::state::OpenFile;
use io_state::ends::answer;
use io_state::requester::Requester;
use os9_base::call::CallEnd;
use os9_base::registers::Regs;

/// Ends the call as done, with these registers of its process and this position of its path.
/// Nothing is kept of the call.
pub(crate) fn answer_at(
    machine: &mut Machine,
    by: Requester,
    told: Regs,
    opened: &OpenFile,
    at: u32,
) -> CallEnd
    requires calls { InFileCall by machine.old }
    requires path { IsPathOf machine.old.files.io opened.now }
    ensures end { result ≡ CallEnd.Done }
    ensures tied { (m : Processes) → RepresentsProcesses machine.old.processes m
        → RepresentsProcesses machine.new.processes (with_regs_of m by.p.0 told) }
    ensures io { machine.new.files.io
        ≡ with_call (moved_to machine.old.files.io opened.now at) by.p.0 None }
    ensures rest { machine.new.files ≡ record machine.old.files { io = machine.new.files.io } }
    ensures lives { IsLiving machine.new.processes.table by.p.0 }
{
    let end = answer(&mut machine.processes, &mut machine.files.io, by.p, told);
    machine.files.io.set_position(opened.path, at);
    end
}
