//! One attempt of a call on terminals, pipes and paths.

ghost use Rattle.std.specs.Prelude.{◌≡◌, ◌≢◌, ℕ, List};
ghost use Rattle.proc_model.specs.CallResult.{CallResult};
ghost use Rattle.proc_model.specs.Processes.{Processes};
ghost use Rattle.call_laws.specs.PathOthers.{LeavesPaths};
ghost use Rattle.io_model.specs.Attempts.{IoAttempts};
ghost use Rattle.io_model.specs.declared.io_call.IoCall.{IoCall};
ghost use Rattle.io_model.specs.Io.{Io};
ghost use Rattle.os9_outer.specs.TerminalState.{TerminalState};

/// An attempt of a call on a terminal or a pipe leaves the path numbers of every other process, the
/// paths that they name, and its pending call.
pub fn an_attempt_leaves_the_paths_of_others()
    ensures { (call : IoCall) (m : Processes) (old new : Io) (drives p : ℕ) (result : CallResult)
        (before after : List TerminalState) → IoAttempts call m old drives p result new before after
        → LeavesPaths p old new }
{}
