//! Attempts of calls that may load a file: F$Load, F$Fork and F$Chain.

ghost use Rattle.std.specs.Prelude.{◌≡◌, ◌<◌, List, vec_len};
ghost use Rattle.file_state.specs.Context.{machine_seen};
ghost use Rattle.os9_base.specs.declared.registers.TimePacket.{TimePacket};
ghost use Rattle.proc_calls.specs.Telling.{LivesOn};
ghost use Rattle.proc_model.specs.Records.{IsLiving};
ghost use Rattle.file_drives.specs.Drives.{DriveView, drives_seen};
ghost use Rattle.file_rules.specs.Files.{Files};
ghost use Rattle.file_state.specs.Tie.{AreSoundFiles, RepresentsFiles};
ghost use Rattle.machine_model.specs.Services.{service_of};
ghost use Rattle.os9_kernel.specs.Calls.{KernelEvent};
ghost use Rattle.os9_kernel.specs.Loads.{LoadsOnEach};
ghost use Rattle.os9_kernel.specs.Next.{DoesNext};
ghost use Rattle.os9_kernel.specs.Outside.{OnDevices, outside};
ghost use Rattle.os9_kernel.specs.Paths.{MayBegin, files_begun, number_in_a};
ghost use Rattle.os9_kernel.specs.Services.{load_in_machine};
ghost use Rattle.os9_kernel.specs.Tie.{RepresentsSomeState, executed, pending};

use crate::act::Act;
use crate::calls::event_end;
use crate::kernel::Kernel;
use crate::marks::Marks;
use crate::service::LoadCall;
use device_table::devices::Devices;
use io_state::requester::Requester;
use load_calls::chain::f_chain;
use load_calls::fork::f_fork;
use load_calls::load::f_load;
use machine_model::ends::EventEnd;
use os9_base::call::CallEnd;
use os9_base::registers::Pid;
use os9_outer::drive::BlockDriver;
use os9_outer::terminal::CharDriver;

impl Kernel {
    /// An attempt of a call that may load a file.
    pub(crate) fn load(
        &mut self,
        p: Pid,
        code: u8,
        call: LoadCall,
        devices: &mut Devices,
    ) -> EventEnd
        requires next { DoesNext self.old p (Act.Attempt code) }
        requires serves { service_of code ≡ load_in_machine call }
        requires stands { RepresentsSomeState self.old
            (outside BlockDriver-box CharDriver-box devices.old) }
        ensures event { OnDevices
            (λ before after. KernelEvent self.old self.new before after result)
            BlockDriver-box CharDriver-box devices.old devices.new }
        ensures progress { result ≡ EventEnd.Ran → pending self.new < pending self.old }
        ensures executed { executed self.new ≡ executed self.old }
        ensures terminals { vec_len devices.new.terms ≡ vec_len devices.old.terms }
        ensures drives { vec_len devices.new.drives ≡ vec_len devices.old.drives }
    {
        let end = self.try_load(p, call, devices);
        self.begin(p, call, end);
        self.tell_end(p, end);
        self.looked_until = 0;
        self.known.marks = Marks::Everyone;
        event_end(end)
    }

    /// An attempt of the call. Its process does not have the result yet, and a child has no paths
    /// yet.
    fn try_load(&mut self, p: Pid, call: LoadCall, devices: &mut Devices) -> CallEnd
        requires lives { IsLiving self.old.machine.processes.table p.0 }
        requires sound { AreSoundFiles self.old.machine.files
            (drives_seen BlockDriver-box devices.old) }
        ensures call { (now : TimePacket)
            → LoadsOnEach call now (vec_len devices.old.terms) p.0 result
            (machine_seen BlockDriver-box self.old.machine devices.old)
            (machine_seen BlockDriver-box self.new.machine devices.new) }
        ensures lives { LivesOn result self.new.machine.processes.table p.0 }
        ensures clock { self.new.clock ≡ self.old.clock }
        ensures chosen { self.new.chosen ≡ self.old.chosen }
        ensures executed { executed self.new ≡ executed self.old }
        ensures terms_kept { devices.new.terms ≡ devices.old.terms }
    {
        // These calls set no date, so any time is right.
        let by = Requester {
            p,
            regs: self.machine.processes.table.regs(p),
            time: self.clock.from,
        };
        match call {
            LoadCall::Load => f_load(&mut self.machine, devices, by),
            LoadCall::Fork => f_fork(&mut self.machine, devices, by),
            LoadCall::Chain => f_chain(&mut self.machine, devices, by),
        }
    }

    /// Gives the child that F$Fork started, whose number is in its parent's A, the standard paths
    /// and the directories of its parent.
    fn begin(&mut self, p: Pid, call: LoadCall, end: CallEnd)
        requires process { p.0 < 33 }
        requires begins { call ≡ LoadCall.Fork → end ≡ CallEnd.Done
            → IsLiving self.old.machine.processes.table p.0 × MayBegin self.old.machine.files.io
            (number_in_a self.old.machine.processes.table p.0) }
        ensures files { (views : List DriveView) (files : Files)
            → RepresentsFiles self.old.machine.files views files
            → RepresentsFiles self.new.machine.files views
            (files_begun call end files p.0 (number_in_a self.old.machine.processes.table p.0)) }
        ensures processes { self.new.machine.processes ≡ self.old.machine.processes }
        ensures clock { self.new.clock ≡ self.old.clock }
        ensures chosen { self.new.chosen ≡ self.old.chosen }
        ensures executed { executed self.new ≡ executed self.old }
    {
        match (call, end) {
            (LoadCall::Fork, CallEnd::Done) => {
                let child = Pid(self.number_in_a(p));
                self.machine.files.start(p, child);
            }
            (LoadCall::Fork, CallEnd::Error(_) | CallEnd::Wait | CallEnd::Ended | CallEnd::NoMemory)
            | (LoadCall::Load | LoadCall::Chain, _) => {}
        }
    }

    /// The number in A of a process.
    fn number_in_a(&self, p: Pid) -> u8
        requires { IsLiving self.now.machine.processes.table p.0 }
        ensures number { result ≡ number_in_a self.now.machine.processes.table p.0 }
        ensures process { p.0 < 33 }
    {
        self.machine.processes.regs(p).a
    }
}
