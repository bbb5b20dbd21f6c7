//! Calls on signals.

ghost use Rattle.std.specs.Prelude.{◌≡◌};
ghost use Rattle.proc_model.specs.Records.{IsLiving};
ghost use Rattle.proc_model.specs.Processes.{Processes};
ghost use Rattle.proc_model.specs.Icpt.{f_icpt as f_icpt_model};
ghost use Rattle.proc_model.specs.Send.{f_send as f_send_model, is_call as is_call_model, woken};
ghost use Rattle.proc_state.specs.Tie.{RepresentsProcesses, ReturnsCallEnd};

use os9_base::call::CallEnd;
use os9_base::calls::F_SLEEP;
use os9_base::errors::{E_IPRCID, E_USIGP};
use os9_base::registers::Pid;
use proc_model::own::Own;
use proc_model::record::{Life, SendFault};
use proc_state::state::ProcState;

/// The signal that ends a sleep, S$Wake. It is never pending.
const WAKE: u8 = 1;

/// F$Icpt: sets a routine for the signals of the process, at the address in X, and the address that
/// the routine finds in U (System Programmer's Manual, F$Icpt). A routine of 0 removes the
/// intercept.
pub fn f_icpt(s: &mut ProcState, p: Pid) -> CallEnd
    requires lives { IsLiving s.old.table p.0 }
    ensures call { (m : Processes) → RepresentsProcesses s.old m
        → ReturnsCallEnd m p.0 (f_icpt_model m p.0) result s.new }
    ensures lives { IsLiving s.new.table p.0 }
{
    let regs = s.regs(p);
    s.table.intercept(p, regs.x, regs.u);
    CallEnd::Done
}

/// F$Send: sends the signal in B to the process in A (System Programmer's Manual, F$Send). Signal 1
/// wakes the process if it sleeps, and is dropped if it does not; any other is pending from then
/// on.
///
/// # Errors
///
/// E$IPrcID exactly if no such process lives, or it is another user's and the caller is not user 0;
/// else E$USigP exactly if a signal is already pending there and the one sent is not 1.
pub fn f_send(s: &mut ProcState, p: Pid) -> CallEnd
    requires lives { IsLiving s.old.table p.0 }
    ensures call { (m : Processes) → RepresentsProcesses s.old m
        → ReturnsCallEnd m p.0 (f_send_model m p.0) result s.new }
    ensures lives { IsLiving s.new.table p.0 }
{
    let regs = s.regs(p);
    let user = s.table.user(p);
    let to = Pid(regs.a);
    match s.table.send(user, to, regs.b) {
        Ok(()) => {
            if regs.b == WAKE {
                wake(s, to);
            }
            CallEnd::Done
        }
        Err(SendFault::NoProcess) => CallEnd::Error(E_IPRCID),
        Err(SendFault::Pending) => CallEnd::Error(E_USIGP),
    }
}

/// Records a wake for a process, if it sleeps.
fn wake(s: &mut ProcState, p: Pid)
    requires lives { IsLiving s.old.table p.0 }
    ensures tied { (m : Processes) → RepresentsProcesses s.old m
        → RepresentsProcesses s.new (woken m p.0) }
    ensures records { s.new.table ≡ s.old.table }
{
    let waits = matches!(s.table.life(p), Some(Life::Waiting));
    if waits && is_call(s.own(p).call, F_SLEEP) {
        let own = s.own(p);
        s.set_own(p, Own { woken: true, ..own });
    }
}

/// Does the unfinished call have this code?
fn is_call(call: Option<u8>, code: u8) -> bool
    ensures { result ≡ is_call_model call code }
{
    match call {
        None => false,
        Some(other) => other == code,
    }
}
