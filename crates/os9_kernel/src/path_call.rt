//! Attempts of calls on paths, files and directories.

ghost use Rattle.std.specs.Prelude.{◌≡◌, ◌<◌, ℕ, true, Some, IfSome, vec_len};
ghost use Rattle.proc_calls.specs.Telling.{LivesOn, SchedulesWait};
ghost use Rattle.proc_state.specs.Tie.{RepresentsProcesses};
ghost use Rattle.proc_model.specs.Processes.{Processes};
ghost use Rattle.call_dispatch.specs.Dates.{sets_date as sets_date_model};
ghost use Rattle.file_state.specs.Attempt.{records_settled};
ghost use Rattle.machine_model.specs.Services.{on_paths, service_of};
ghost use Rattle.file_rules.specs.Attempts.{asker_of};
ghost use Rattle.file_rules.specs.Files.{Asker};
ghost use Rattle.io_model.specs.Path.{ArePaths};
ghost use Rattle.os9_base.specs.declared.registers.TimePacket.{TimePacket as TimePacketModel};
ghost use Rattle.os9_kernel.specs.Calls.{KernelEvent};
ghost use Rattle.os9_kernel.specs.Causes.{awaited};
ghost use Rattle.os9_kernel.specs.Telling.{ReportsCallEnd};
ghost use Rattle.os9_kernel.specs.Marks.{Concerns, named_cause};
ghost use Rattle.os9_kernel.specs.Next.{DoesNext};
ghost use Rattle.os9_kernel.specs.Outside.{OnDevices, outside};
ghost use Rattle.os9_kernel.specs.Tie.{RepresentsSomeState, executed, pending};
ghost use Rattle.os9_sched.specs.declared.member.Cause.{Cause as CauseModel};
ghost use Rattle.proc_model.specs.Records.{IsLiving};
ghost use Rattle.time_rules.specs.Clock.{IsClock, IsNow};
ghost use Rattle.file_laws.specs.Devices.{number_in as number_in_model};
ghost use Rattle.lock_laws.specs.Touches.{cause_on as cause_on_model};

use crate::act::Act;
use crate::calls::event_end;
use crate::kernel::Kernel;
use crate::marks::Marks;
use call_dispatch::clock::now;
use call_dispatch::path_calls::{attempt_on_path, sets_date};
use device_table::devices::Devices;
use file_rules::path_call::PathCall;
use io_model::modes::STANDARD_ERROR;
use io_model::path::Target;
use io_state::requester::Requester;
use machine_model::ends::EventEnd;
use os9_base::call::CallEnd;
use os9_base::registers::{Pid, Regs, TimePacket};
use os9_outer::drive::BlockDriver;
use os9_outer::terminal::CharDriver;
use os9_sched::{Cause, Wait};
use proc_calls::telling::tell;
use record_locks::records::Records;

/// What is told of a call that does not wait.
const NO_WAIT: Wait = Wait {
    cause: Cause::Child,
    until: None,
};

impl Kernel {
    /// An attempt of a call on paths, files and directories.
    pub(crate) fn path_call(
        &mut self,
        p: Pid,
        code: u8,
        call: PathCall,
        devices: &mut Devices,
    ) -> EventEnd
        requires next { DoesNext self.old p (Act.Attempt code) }
        requires serves { service_of code ≡ on_paths call }
        requires stands { RepresentsSomeState self.old
            (outside BlockDriver-box CharDriver-box devices.old) }
        ensures event { OnDevices
            (λ before after. KernelEvent self.old self.new before after result)
            BlockDriver-box CharDriver-box devices.old devices.new }
        ensures progress { result ≡ EventEnd.Ran → pending self.new < pending self.old }
        ensures executed { executed self.new ≡ executed self.old }
        ensures terminals { vec_len devices.new.terms ≡ vec_len devices.old.terms }
        ensures drives { vec_len devices.new.drives ≡ vec_len devices.old.drives }
    {
        self.known.marks = self.marks_with(p, call);
        let by = Requester {
            p,
            regs: self.machine.processes.table.regs(p),
            time: self.time_for(call),
        };
        let end = attempt_on_path(&mut self.machine, devices, by, call);
        forget_request(&mut self.machine.files.records, p, end);
        self.tell_end(p, end);
        self.looked_until = 0;
        event_end(end)
    }

    /// The marks, and whom an attempt of this call of a process concerns. The path of the call is
    /// looked up only if not everyone is marked.
    fn marks_with(&self, p: Pid, call: PathCall) -> Marks
        requires { IsLiving self.now.machine.processes.table p.0 }
        ensures kept { (q : ℕ) (cause : CauseModel) → Concerns self.now.known.marks q cause
            → Concerns result q cause }
        ensures own { (cause : CauseModel) → Concerns result p.0 cause }
        ensures waiters { (m : Processes) (now : TimePacketModel) (q : ℕ) (cause : CauseModel)
            → RepresentsProcesses self.now.machine.processes m
            → named_cause self.now.machine.files.io p.0 (number_in_model call (asker_of m p.0 now))
            ≡ Some cause
            → Concerns result q cause }
        ensures paths { ArePaths self.now.machine.files.io.paths }
    {
        // Each path that a number names is there.
        prove!(
            self.machine.files.io.pending(p).is_none() || self.machine.files.io.pending(p).is_some()
        );
        match self.known.marks {
            Marks::Everyone => Marks::Everyone,
            Marks::Nobody | Marks::Waiters { .. } => {
                self.known.marks.add(p, self.cause_named(p, call))
            }
        }
    }

    /// What calls wait for on the path that a call of a process names by its number.
    fn cause_named(&self, p: Pid, call: PathCall) -> Option<Cause>
        requires { IsLiving self.now.machine.processes.table p.0 }
        ensures is { (m : Processes) (now : TimePacketModel)
            → RepresentsProcesses self.now.machine.processes m
            → result ≡ named_cause self.now.machine.files.io p.0
            (number_in_model call (asker_of m p.0 now)) }
    {
        let number = number_in(call, self.machine.processes.regs(p));
        let (_, desc) = self.machine.files.io.open_path(p, number)?;
        cause_on(desc.target)
    }

    /// The time for a call that sets a date. For any other call, any time is right.
    fn time_for(&self, call: PathCall) -> TimePacket
        requires { IsClock self.now.clock self.now.machine.processes.tick }
        ensures { sets_date_model call ≡ true
            → IsNow self.now.clock self.now.machine.processes.tick result }
    {
        if sets_date(call) {
            now(&self.clock, self.machine.processes.tick)
        } else {
            self.clock.from
        }
    }

    /// Gives a process the result of its call, if it lives. If it waits, it waits on what its path
    /// was opened on; if it does not, no cause is needed.
    pub(crate) fn tell_end(&mut self, p: Pid, end: CallEnd)
        requires lives { LivesOn end self.old.machine.processes.table p.0 }
        requires process { p.0 < 33 }
        ensures told { ReportsCallEnd end p.0 self.old.machine.processes
            self.new.machine.processes }
        ensures lives { LivesOn end self.new.machine.processes.table p.0 }
        ensures waits { end ≡ CallEnd.Wait → IfSome (awaited self.old.machine.files p.0) (λ wait.
            SchedulesWait self.old.machine.processes self.new.machine.processes p.0 wait) }
        ensures files { self.new.machine.files ≡ self.old.machine.files }
        ensures known { self.new.known ≡ self.old.known }
        ensures clock { self.new.clock ≡ self.old.clock }
        ensures chosen { self.new.chosen ≡ self.old.chosen }
        ensures executed { executed self.new ≡ executed self.old }
    {
        let wait = self.wait_at(p, end);
        tell(&mut self.machine.processes, p, end, wait);
    }

    /// What a process waits for, if its call ended so that it waits.
    fn wait_at(&self, p: Pid, end: CallEnd) -> Wait
        requires { p.0 < 33 }
        ensures { end ≡ CallEnd.Wait → IfSome (awaited self.now.machine.files p.0)
            (λ wait. result ≡ wait) }
    {
        match end {
            CallEnd::Wait => self.machine.files.waits_for(p).unwrap_or(NO_WAIT),
            CallEnd::Done | CallEnd::Error(_) | CallEnd::Ended | CallEnd::NoMemory => NO_WAIT,
        }
    }
}

/// Forgets the request in which a process waited for a record, if its call waits no longer.
fn forget_request(records: &mut Records, p: Pid, end: CallEnd)
    requires { p.0 < 33 }
    ensures { records.new ≡ records_settled p.0 end records.old }
{
    match end {
        CallEnd::Wait => {}
        CallEnd::Done | CallEnd::Error(_) | CallEnd::Ended | CallEnd::NoMemory => records.cancel(p),
    }
}

/// The number of a path that a call takes.
fn number_in(call: PathCall, regs: Regs) -> u8
    ensures { (asker : Asker) → asker.caller.regs ≡ regs → number_in_model call asker ≡ result }
{
    match call {
        PathCall::PErr => STANDARD_ERROR,
        _ => regs.a,
    }
}

/// What calls wait for on this: a key of a terminal, bytes or room of a pipe, or a record of a
/// file.
fn cause_on(target: Target) -> Option<Cause>
    ensures { result ≡ cause_on_model target }
{
    match target {
        Target::File(drive, number) => Some(Cause::Lock(drive, number)),
        Target::Folder(_, _) => None,
        Target::Term(terminal) => Some(Cause::Term(terminal)),
        Target::Pipe(pipe) => Some(Cause::Pipe(pipe)),
    }
}
