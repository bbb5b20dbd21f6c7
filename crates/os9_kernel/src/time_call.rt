//! Attempts of calls on the time.

ghost use Rattle.std.specs.Prelude.{◌≡◌, ◌<◌};
ghost use Rattle.machine_model.specs.Services.{on_time, service_of};
ghost use Rattle.os9_kernel.specs.Calls.{KernelEvent};
ghost use Rattle.os9_kernel.specs.Next.{DoesNext};
ghost use Rattle.os9_kernel.specs.Outside.{Outside};
ghost use Rattle.os9_kernel.specs.Tie.{HasState, executed, pending};

use crate::act::Act;
use crate::calls::event_end;
use crate::kernel::Kernel;
use call_dispatch::time_calls::attempt_on_clock;
use machine_model::ends::EventEnd;
use os9_base::registers::Pid;
use time_rules::time_call::TimeCall;

impl Kernel {
    /// An attempt of a call on the time.
    pub(crate) fn time_call(&mut self, p: Pid, code: u8, call: TimeCall) -> EventEnd
        requires next { DoesNext self.old p (Act.Attempt code) }
        requires serves { service_of code ≡ on_time call }
        requires stands { HasState self.old }
        ensures event { (devices : Outside) → KernelEvent self.old self.new devices devices result }
        ensures progress { result ≡ EventEnd.Ran → pending self.new < pending self.old }
        ensures executed { executed self.new ≡ executed self.old }
    {
        let end = attempt_on_clock(&mut self.machine.processes, &mut self.clock, p, call);
        self.tell_end(p, end);
        self.looked_until = 0;
        event_end(end)
    }
}
