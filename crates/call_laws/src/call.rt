//! One attempt of a call on processes and modules.

ghost use Rattle.std.specs.Prelude.{ℕ};
ghost use Rattle.call_laws.specs.Isolation.{LeavesOtherProcesses};
ghost use Rattle.call_laws.specs.Others.{AttemptsCall};
ghost use Rattle.proc_model.specs.Attempts.{after_attempt, attempted};
ghost use Rattle.proc_model.specs.declared.proc_call.ProcCall.{ProcCall};
ghost use Rattle.proc_model.specs.Processes.{Processes};
ghost use Rattle.machine_model.specs.ProcessEvent.{call_event_end};
ghost use Rattle.proc_model.specs.Records.{IsLiving};

/// An attempt of a call on processes and modules leaves unchanged the bytes of each object outside
/// the map of the process, and every other process except what the call changes of it.
pub fn a_call_leaves_what_it_does_not_name()
    ensures { (m : Processes) (p : ℕ) (call : ProcCall) → IsLiving m.records p
        → AttemptsCall m p call
        → LeavesOtherProcesses m p
        (call_event_end (attempted call m p)) (after_attempt m p (attempted call m p)) }
{}
