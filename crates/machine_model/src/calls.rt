//! Calls on processes and modules, as laws over all of them.

ghost use Rattle.std.specs.Prelude.{◌≡◌, ℕ};
ghost use Rattle.proc_model.specs.declared.proc_call.ProcCall.{ProcCall};
ghost use Rattle.proc_model.specs.Attempts.{attempted, after_attempt};
ghost use Rattle.proc_model.specs.End.{ended};
ghost use Rattle.proc_model.specs.Processes.{Processes};

/// Neither an attempt of a call on processes and modules nor the end of a process changes the tick.
pub fn calls_keep_the_tick()
    ensures attempt { (m : Processes) (p : ℕ) (call : ProcCall)
        → (after_attempt m p (attempted call m p)).tick ≡ m.tick }
    ensures end { (m : Processes) (p status : ℕ) → (ended m p status).tick ≡ m.tick }
{}
