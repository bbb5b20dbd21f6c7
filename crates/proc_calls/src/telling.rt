//! A call reports its end to its process.

ghost use Rattle.std.specs.Prelude.{◌≡◌};
ghost use Rattle.os9_base.specs.declared.call.CallEnd.TheVariants.{Wait};
ghost use Rattle.proc_model.specs.Attempts.{after_attempt, attempt_end};
ghost use Rattle.proc_model.specs.CallResult.{CallResult};
ghost use Rattle.proc_model.specs.Processes.{Processes};
ghost use Rattle.proc_state.specs.Tie.{RepresentsProcesses, ReturnsCallEnd};
ghost use Rattle.proc_calls.specs.Telling.{LivesOn, SchedulesWait};

use os9_base::call::CallEnd;
use os9_base::registers::Pid;
use os9_sched::Wait as Waiting;
use proc_state::state::ProcState;

/// Reports the end of a call to its process. It goes on if the call is done or refused, and waits
/// for `wait` if the call waits.
pub fn tell(s: &mut ProcState, p: Pid, end: CallEnd, wait: Waiting)
    requires lives { LivesOn end s.old.table p.0 }
    ensures told { (m : Processes) (call : CallResult) → ReturnsCallEnd m p.0 call end s.old
        → RepresentsProcesses s.new (after_attempt m p.0 call) }
    ensures same { (m : Processes) (call : CallResult) → ReturnsCallEnd m p.0 call end s.old
        → end ≡ attempt_end call }
    ensures lives { LivesOn end s.new.table p.0 }
    ensures waits { end ≡ Wait → SchedulesWait s.old s.new p.0 wait }
    ensures own { end ≡ Wait → s.new.own ≡ s.old.own }
{
    match end {
        CallEnd::Done => s.succeed(p),
        CallEnd::Error(number) => s.refuse(p, number),
        CallEnd::Wait => s.wait(p, wait.cause, wait.until),
        CallEnd::Ended | CallEnd::NoMemory => {}
    }
}
