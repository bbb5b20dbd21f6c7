//! The requirements of an attempt hold in every state of a run.

ghost use Rattle.std.specs.Prelude.{◌≡◌, ◌<◌, ℕ, Some};
ghost use Rattle.proc_model.specs.Processes.{Processes};
ghost use Rattle.proc_model.specs.Ready.{attempts, act_of};
ghost use Rattle.call_dispatch.specs.Staying.{MayAttemptIo};
ghost use Rattle.call_laws.specs.Pending.{ArePending};
ghost use Rattle.call_laws.specs.Terminals.{AreOnTerminals};
ghost use Rattle.io_model.specs.Codes.{io_call_of};
ghost use Rattle.io_model.specs.Io.{Io};
ghost use Rattle.io_model.specs.declared.io_call.IoCall.{IoCall};
ghost use Rattle.proc_state.specs.Tie.{RepresentsProcesses};
ghost use Rattle.proc_state.specs.declared.state.ProcState.{ProcState};

/// If a call on paths is the next event of a process, among processes that these represent, the
/// requirements of [`attempt_on_stream`](crate::device_calls::attempt_on_stream) hold: what is kept
/// of pending calls belongs to them, and the terminal of each open path exists.
pub fn a_process_may_attempt_its_call()
    ensures { (processes : ProcState) (m : Processes) (io : Io) (terms p code : ℕ) (call : IoCall)
        → p < 33 → RepresentsProcesses processes m → ArePending m io → AreOnTerminals terms io.paths
        → act_of m p ≡ attempts code → io_call_of code ≡ Some call
        → MayAttemptIo call processes io p terms }
{}
