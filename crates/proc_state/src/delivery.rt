//! The delivery of a signal (System Programmer's Manual, F$Icpt and F$Send).

ghost use Rattle.std.specs.Prelude.{◌≡◌, ◌<◌, ℕ, IfSome, IsSome, Some, None, length};
ghost use Rattle.guest_memory.specs.Tie.{cells_of};
ghost use Rattle.os9_base.specs.Cells.{FitsIn};
ghost use Rattle.proc_model.specs.MemoryChanges.{stored};
ghost use Rattle.proc_model.specs.Records.{IsLiving, record_at};
ghost use Rattle.proc_model.specs.Signals.{with_signal};
ghost use Rattle.proc_model.specs.Delivery.{frame_bytes as frame_bytes_model, interrupted_regs as interrupted_regs_model, interrupted, routine_begun, routine_regs as routine_regs_model, with_frame, delivered, after_delivery};
ghost use Rattle.proc_model.specs.Processes.{Processes, with_memory, with_records};
ghost use Rattle.proc_state.specs.Delivery.{delivery_end, frame_place as frame_place_model};
ghost use Rattle.proc_state.specs.Tie.{RepresentsProcesses, AreProcessesSame};

use crate::frame::{FRAME_BYTES, frame_bytes, refused_regs, routine_regs, stack_top};
use crate::state::ProcState;
use os9_base::call::CallEnd;
use os9_base::errors::E_PRCABT;
use os9_base::registers::{Pid, Regs};
use proc_model::record::Intercept;

impl ProcState {
    /// Delivers the pending signal of a process. Returns `Done` if the routine of its intercept
    /// begins, with the registers pushed on its stack. Returns `Ended` if the process has ended:
    /// with the signal, if it has no intercept or the signal is 0, else with `E$PrcAbt`, if its
    /// stack has no room for them.
    pub fn deliver(&mut self, p: Pid) -> CallEnd
        requires lives { IsLiving self.old.table p.0 }
        requires pending { IsSome (record_at self.old.table p.0).signal }
        ensures end { (m : Processes) (signal : ℕ) → RepresentsProcesses self.old m
            → (record_at m.records p.0).signal ≡ Some signal
            → result ≡ delivery_end (delivered m p.0 signal) }
        ensures tied { (m : Processes) (signal : ℕ) → RepresentsProcesses self.old m
            → (record_at m.records p.0).signal ≡ Some signal
            → RepresentsProcesses self.new (after_delivery m p.0 (delivered m p.0 signal)) }
        ensures lives { result ≡ CallEnd.Done → IsLiving self.new.table p.0 }
    {
        let signal = self.table.due_signal(p).unwrap();
        self.deliver_signal(p, signal)
    }

    /// Delivers this signal to a process.
    fn deliver_signal(&mut self, p: Pid, signal: u8) -> CallEnd
        requires { IsLiving self.old.table p.0 }
        ensures end { (m : Processes) → RepresentsProcesses self.old m
            → result ≡ delivery_end (delivered m p.0 signal) }
        ensures tied { (m : Processes) → RepresentsProcesses self.old m
            → RepresentsProcesses self.new (after_delivery m p.0 (delivered m p.0 signal)) }
        ensures lives { result ≡ CallEnd.Done → IsLiving self.new.table p.0 }
    {
        match self.table.handler(p) {
            Some((routine, area)) if signal != 0 => {
                self.begin_routine(p, Intercept { routine, area }, signal)
            }
            _ => {
                self.end(p, signal);
                CallEnd::Ended
            }
        }
    }

    /// Begins the routine of an intercept with this signal, if the stack has room for a frame.
    fn begin_routine(&mut self, p: Pid, intercept: Intercept, signal: u8) -> CallEnd
        requires { IsLiving self.old.table p.0 }
        ensures end { (m : Processes) → RepresentsProcesses self.old m
            → result ≡ delivery_end (routine_begun m p.0 intercept signal) }
        ensures tied { (m : Processes) → RepresentsProcesses self.old m
            → RepresentsProcesses self.new
            (after_delivery m p.0 (routine_begun m p.0 intercept signal)) }
        ensures lives { result ≡ CallEnd.Done → IsLiving self.new.table p.0 }
    {
        let stack = self.regs(p).s;
        match self.frame_place(p, stack) {
            Some(frame) => {
                self.push_frame(p, intercept, signal, frame);
                CallEnd::Done
            }
            None => {
                self.end(p, E_PRCABT);
                CallEnd::Ended
            }
        }
    }

    /// The lowest address of the frame of a process with this stack pointer; None if the frame
    /// would wrap around, or its bytes are not all in named slots.
    fn frame_place(&mut self, p: Pid, stack: u16) -> Option<u16>
        requires { p.0 < 33 }
        ensures place { (m : Processes) → RepresentsProcesses self.old m
            → result ≡ frame_place_model m p.0 stack }
        ensures fits { IfSome result (λ frame. FitsIn (cells_of self.new.memory p.0) frame 12) }
        ensures same { AreProcessesSame self.old self.new }
    {
        let top = stack_top(stack);
        if top < u32::from(FRAME_BYTES) {
            return None;
        }
        let frame = (top - u32::from(FRAME_BYTES)) as u16;
        if self.memory.fits(p, frame, FRAME_BYTES) {
            Some(frame)
        } else {
            None
        }
    }

    /// Pushes the registers of a process as a frame at this address, and begins the routine of its
    /// intercept. A pending call is over.
    fn push_frame(&mut self, p: Pid, intercept: Intercept, signal: u8, frame: u16)
        requires lives { IsLiving self.old.table p.0 }
        requires fits { FitsIn (cells_of self.old.memory p.0) frame 12 }
        ensures tied { (m : Processes) → RepresentsProcesses self.old m
            → RepresentsProcesses self.new
            (with_frame (interrupted m p.0 signal) p.0 intercept signal
            (interrupted_regs_model m p.0 signal) frame) }
        ensures lives { IsLiving self.new.table p.0 }
    {
        let regs = self.interrupted_regs(p, signal);
        self.store(p, frame, &frame_bytes(regs));
        self.interrupt(p, signal);
        self.set_regs(p, routine_regs(regs, intercept, signal, frame));
    }

    /// Stores bytes in the memory of a process, from an address on; they fit there.
    pub fn store(&mut self, p: Pid, at: u16, bytes: &[u8])
        requires process { p.0 < 33 }
        requires fits { FitsIn (cells_of self.old.memory p.0) at (length bytes.now) }
        ensures tied { (m : Processes) → RepresentsProcesses self.old m
            → RepresentsProcesses self.new (with_memory m (stored m.memory p.0 at bytes.now)) }
        ensures records { self.new.table ≡ self.old.table }
    {
        self.memory.store(p, at, bytes);
    }

    /// The registers with which a process goes on before a frame is pushed: a pending call ends
    /// with the signal.
    fn interrupted_regs(&self, p: Pid, signal: u8) -> Regs
        requires { IsLiving self.now.table p.0 }
        ensures tied { (m : Processes) → RepresentsProcesses self.now m
            → result ≡ interrupted_regs_model m p.0 signal }
        ensures process { p.0 < 33 }
    {
        let regs = self.regs(p);
        if self.waits(p) {
            refused_regs(regs, signal)
        } else {
            regs
        }
    }

    /// The signal of a process is not pending any more, and its pending call, if there is one, is
    /// over.
    fn interrupt(&mut self, p: Pid, signal: u8)
        requires { IsLiving self.old.table p.0 }
        ensures tied { (m : Processes) → RepresentsProcesses self.old m
            → RepresentsProcesses self.new (interrupted m p.0 signal) }
        ensures lives { IsLiving self.new.table p.0 }
    {
        let regs = self.interrupted_regs(p, signal);
        let waits = self.waits(p);
        self.take_signal(p);
        if waits {
            self.go_on(p, regs);
        }
    }

    /// The signal of a process is not pending any more.
    fn take_signal(&mut self, p: Pid)
        requires { IsLiving self.old.table p.0 }
        ensures tied { (m : Processes) → RepresentsProcesses self.old m
            → RepresentsProcesses self.new (with_records m (with_signal m.records p.0 None)) }
        ensures lives { IsLiving self.new.table p.0 }
    {
        self.table.clear_signal(p);
    }
}
