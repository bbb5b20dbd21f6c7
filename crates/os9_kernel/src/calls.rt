//! Attempts of calls on processes and modules that load nothing, and unknown codes.

ghost use Rattle.std.specs.Prelude.{◌≡◌, ◌<◌, List};
ghost use Rattle.file_drives.specs.Drives.{DriveView};
ghost use Rattle.file_rules.specs.Files.{Files};
ghost use Rattle.file_state.specs.Tie.{RepresentsFiles};
ghost use Rattle.machine_model.specs.Services.{no_call, on_processes, service_of};
ghost use Rattle.os9_kernel.specs.Calls.{KernelEvent};
ghost use Rattle.os9_kernel.specs.Ends.{event_end_of};
ghost use Rattle.os9_kernel.specs.Next.{DoesNext};
ghost use Rattle.os9_kernel.specs.Outside.{Outside};
ghost use Rattle.os9_kernel.specs.Paths.{files_then};
ghost use Rattle.os9_kernel.specs.Services.{LoadsNothing};
ghost use Rattle.os9_kernel.specs.Tie.{HasState, IsKnown, executed, pending};

use crate::act::Act;
use crate::kernel::Kernel;
use crate::marks::Marks;
use machine_model::ends::EventEnd;
use os9_base::call::CallEnd;
use os9_base::errors::E_UNKSVC;
use os9_base::registers::Pid;
use proc_model::proc_call::ProcCall;

impl Kernel {
    /// An attempt of a call on processes and modules that loads nothing.
    pub(crate) fn process_call(&mut self, p: Pid, code: u8, call: ProcCall) -> EventEnd
        requires next { DoesNext self.old p (Act.Attempt code) }
        requires serves { service_of code ≡ on_processes call }
        requires plain { LoadsNothing call }
        requires stands { HasState self.old }
        ensures event { (devices : Outside) → KernelEvent self.old self.new devices devices result }
        ensures progress { result ≡ EventEnd.Ran → pending self.new < pending self.old }
        ensures executed { executed self.new ≡ executed self.old }
    {
        let end = call_dispatch::attempt_on_process(&mut self.machine.processes, p, call);
        self.follow(p, end);
        self.looked_until = 0;
        event_end(end)
    }

    /// The effect on the files of how a call on processes and modules ended: the paths of an ended
    /// process are closed, and it no longer has a directory.
    fn follow(&mut self, p: Pid, end: CallEnd)
        requires { p.0 < 33 }
        ensures files { (views : List DriveView) (files : Files)
            → RepresentsFiles self.old.machine.files views files
            → RepresentsFiles self.new.machine.files views (files_then end files p.0) }
        ensures processes { self.new.machine.processes ≡ self.old.machine.processes }
        ensures known { IsKnown self.old → IsKnown self.new }
        ensures clock { self.new.clock ≡ self.old.clock }
        ensures chosen { self.new.chosen ≡ self.old.chosen }
        ensures executed { executed self.new ≡ executed self.old }
    {
        match end {
            CallEnd::Ended => {
                self.machine.files.end(p);
                self.known.marks = Marks::Everyone;
            }
            CallEnd::Done | CallEnd::Error(_) | CallEnd::Wait | CallEnd::NoMemory => {}
        }
    }

    /// An unknown code: it is refused with E$UnkSvc.
    pub(crate) fn refuse_unknown(&mut self, p: Pid, code: u8) -> EventEnd
        requires next { DoesNext self.old p (Act.Attempt code) }
        requires serves { service_of code ≡ no_call }
        ensures event { (devices : Outside) → KernelEvent self.old self.new devices devices result }
        ensures progress { pending self.new < pending self.old }
        ensures executed { executed self.new ≡ executed self.old }
    {
        self.machine.processes.refuse(p, E_UNKSVC);
        self.looked_until = 0;
        EventEnd::Ran
    }
}

/// How a call with this end ends its event.
pub(crate) fn event_end(end: CallEnd) -> EventEnd
    ensures { result ≡ event_end_of end }
{
    match end {
        CallEnd::Done => EventEnd::Ran,
        CallEnd::Error(_) => EventEnd::Ran,
        CallEnd::Wait => EventEnd::Waits,
        CallEnd::Ended => EventEnd::Ended,
        CallEnd::NoMemory => EventEnd::NoMemory,
    }
}
