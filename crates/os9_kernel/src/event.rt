//! The events of a process: attempts of its call, deliveries of signals, and instructions.

ghost use Rattle.std.specs.Prelude.{◌≡◌, ◌≢◌, ◌<◌, ◌+◌, ◌^◌, vec_len};
ghost use Rattle.os9_kernel.specs.Calls.{KernelEvent};
ghost use Rattle.os9_kernel.specs.Next.{DoesNext, HasTurn};
ghost use Rattle.os9_kernel.specs.Outside.{OnDevices, Outside, outside};
ghost use Rattle.os9_kernel.specs.Tie.{RepresentsSomeState, executed, pending};

use crate::act::Act;
use crate::kernel::Kernel;
use crate::marks::Marks;
use crate::service::{Service, service_by_code};
use crate::turn::Turn;
use cpu6809::Stop;
use device_table::devices::Devices;
use machine_model::ends::EventEnd;
use os9_base::call::CallEnd;
use os9_base::registers::Pid;
use os9_outer::drive::BlockDriver;
use os9_outer::terminal::CharDriver;
use proc_state::regs::set_regs;

impl Kernel {
    /// An attempt of the call of the chosen process, with this code.
    pub(crate) fn attempt(&mut self, p: Pid, code: u8, devices: &mut Devices) -> EventEnd
        requires next { DoesNext self.old p (Act.Attempt code) }
        requires stands { RepresentsSomeState self.old
            (outside BlockDriver-box CharDriver-box devices.old) }
        ensures event { OnDevices
            (λ before after. KernelEvent self.old self.new before after result)
            BlockDriver-box CharDriver-box devices.old devices.new }
        ensures progress { result ≡ EventEnd.Ran → pending self.new < pending self.old }
        ensures executed { executed self.new ≡ executed self.old }
        ensures terminals { vec_len devices.new.terms ≡ vec_len devices.old.terms }
        ensures drives { vec_len devices.new.drives ≡ vec_len devices.old.drives }
    {
        match service_by_code(code) {
            Service::Load(call) => self.load(p, code, call, devices),
            Service::Process(call) => self.process_call(p, code, call),
            Service::Time(call) => self.time_call(p, code, call),
            Service::Path(call) => self.path_call(p, code, call, devices),
            Service::Unknown => self.refuse_unknown(p, code),
        }
    }

    /// The delivery of the pending signal of the chosen process. Its pending call, if any, is
    /// broken off, and Y has what the call has moved, if it answers a count. If the process ends,
    /// its paths are closed.
    pub(crate) fn deliver(&mut self, p: Pid, signal: u8) -> EventEnd
        requires next { DoesNext self.old p (Act.Delivery signal) }
        ensures event { (devices : Outside)
            → KernelEvent self.old self.new devices devices result }
        ensures progress { result ≡ EventEnd.Ran → pending self.new < pending self.old }
        ensures executed { executed self.new ≡ executed self.old }
    {
        self.break_off(p);
        self.looked_until = 0;
        self.known.marks = Marks::Everyone;
        match self.machine.processes.deliver(p) {
            CallEnd::Ended => {
                self.machine.files.end(p);
                EventEnd::Ended
            }
            _ => EventEnd::Ran,
        }
    }

    /// Executes at most `most` instructions of the chosen process: until one is a system call or
    /// ends the process. They are counted.
    pub(crate) fn instructions(&mut self, p: Pid, most: u32) -> Turn
        requires next { DoesNext self.old p Act.Instruction }
        requires some { 0 < most }
        ensures turn { (devices : Outside)
            → HasTurn most self.old self.new devices devices result }
        ensures executed { executed self.old + result.count < 2 ^ 32
            → executed self.new ≡ executed self.old + result.count }
        ensures kept { result.end ≢ EventEnd.NoMemory }
        ensures goes_on { result.end ≢ EventEnd.Waits }
    {
        let turn = self.execute(p, most);
        self.executed = self.executed.saturating_add(turn.count);
        turn
    }

    /// The same, without the count.
    fn execute(&mut self, p: Pid, most: u32) -> Turn
        requires next { DoesNext self.old p Act.Instruction }
        requires some { 0 < most }
        ensures turn { (devices : Outside)
            → HasTurn most self.old self.new devices devices result }
        ensures executed { executed self.new ≡ executed self.old }
        ensures kept { result.end ≢ EventEnd.NoMemory }
        ensures goes_on { result.end ≢ EventEnd.Waits }
    {
        let mut regs = self.machine.processes.regs(p);
        let ran = self.machine.processes.memory.run(p, &mut regs, most);
        set_regs(&mut self.machine.processes, p, regs);
        match ran.stop {
            Stop::Next => Turn {
                count: ran.followed,
                end: EventEnd::Ran,
            },
            Stop::Call(code) => {
                self.begin_call(p, code);
                self.looked_until = 0;
                Turn {
                    count: ran.followed + 1,
                    end: EventEnd::Ran,
                }
            }
            Stop::Abort(status) => {
                self.end_process(p, status);
                self.looked_until = 0;
                self.known.marks = Marks::Everyone;
                Turn {
                    count: ran.followed + 1,
                    end: EventEnd::Ended,
                }
            }
        }
    }
}
