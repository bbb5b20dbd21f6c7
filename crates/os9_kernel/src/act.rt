//! What a process does next.

ghost use Rattle.std.specs.Prelude.{◌≡◌};
ghost use Rattle.proc_model.specs.Records.{IsLiving, IsProcessNumber};
ghost use Rattle.os9_kernel.specs.Next.{act_in_machine, next_of};

use crate::kernel::Kernel;
use os9_base::registers::Pid;
use proc_model::record::Life;

/// What a process does next.
#[derive(Clone, Copy, Debug, PartialEq, Eq)]
pub enum Act {
    /// An attempt of the call with this code.
    Attempt(u8),
    /// The delivery of this signal.
    Delivery(u8),
    /// An instruction.
    Instruction,
}

impl Kernel {
    /// What a process does next: the first of these that applies: the first attempt of its call,
    /// the delivery of a pending signal, a further attempt, an instruction.
    pub(crate) fn act(&self, p: Pid) -> Act
        requires { IsLiving self.now.machine.processes.table p.0 }
        ensures next { next_of self.now.machine.processes p.0 ≡ act_in_machine result }
        ensures process { IsProcessNumber p.0 }
    {
        let waits = self.machine.processes.table.life(p) == Some(Life::Waiting);
        let call = self.machine.processes.own[p.0 as usize].call;
        let signal = self.machine.processes.table.due_signal(p);
        match (call, signal) {
            (Some(code), Some(signal)) => {
                if waits {
                    Act::Delivery(signal)
                } else {
                    Act::Attempt(code)
                }
            }
            (Some(code), None) => Act::Attempt(code),
            (None, Some(signal)) => Act::Delivery(signal),
            (None, None) => Act::Instruction,
        }
    }
}
