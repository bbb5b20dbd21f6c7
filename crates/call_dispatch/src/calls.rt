//! The calls by their names.

ghost use Rattle.std.specs.Prelude.{◌≡◌, IfSome, slice_index_or};
ghost use Rattle.proc_model.specs.Records.{IsLiving};
ghost use Rattle.proc_model.specs.Attempts.{attempted, after_attempt, attempt_end};
ghost use Rattle.proc_model.specs.Processes.{Processes, no_own};
ghost use Rattle.proc_state.specs.Tie.{RepresentsProcesses, ReturnsCallEnd};
ghost use Rattle.proc_calls.specs.Telling.{LivesOn, KeepsRecordsAndTurns, SchedulesWait};
ghost use Rattle.call_dispatch.specs.Waits as model;

use crate::waits::waits_for;
use fork_calls::chain::f_chain;
use fork_calls::fork::f_fork;
use os9_base::call::CallEnd;
use os9_base::registers::Pid;
use proc_calls::children::{f_exit, f_wait};
use proc_calls::crc::f_crc;
use proc_calls::links::{f_link, f_unload};
use proc_calls::memory::f_mem;
use proc_calls::names::{f_cmpnam, f_prsnam};
use proc_calls::records::{f_id, f_sprior, f_suser};
use proc_calls::signals::{f_icpt, f_send};
use proc_calls::sleep::f_sleep;
use proc_calls::telling::tell;
use proc_calls::unlink::f_unlink;
use proc_model::proc_call::ProcCall;
use proc_state::state::ProcState;

/// An attempt of a call by a living process (System Programmer's Manual, "User mode service
/// requests"). A completed call clears carry. A refused one sets carry and returns its number in B.
/// The scheduler knows what a call waits for.
pub fn attempt_on_process(s: &mut ProcState, p: Pid, call: ProcCall) -> CallEnd
    requires lives { IsLiving s.old.table p.0 }
    ensures call { (m : Processes) → RepresentsProcesses s.old m
        → RepresentsProcesses s.new (after_attempt m p.0 (attempted call m p.0))
        × (result ≡ attempt_end (attempted call m p.0)) }
    ensures lives { LivesOn result s.new.table p.0 }
    ensures waits { result ≡ CallEnd.Wait
        → IfSome (model.waits_for call (slice_index_or s.new.own.items p.0 no_own))
        (SchedulesWait s.old s.new p.0) }
{
    let end = comes(s, p, call);
    let wait = waits_for(call, s.own(p));
    tell(s, p, end, wait);
    end
}

/// Attempts a call. The process does not have the result yet.
fn comes(s: &mut ProcState, p: Pid, call: ProcCall) -> CallEnd
    requires lives { IsLiving s.old.table p.0 }
    ensures call { (m : Processes) → RepresentsProcesses s.old m
        → ReturnsCallEnd m p.0 (attempted call m p.0) result s.new }
    ensures lives { LivesOn result s.new.table p.0 }
    ensures still { result ≡ CallEnd.Wait
        → IfSome (model.waits_for call no_own) (λ wait. KeepsRecordsAndTurns s.old s.new) }
{
    match call {
        ProcCall::Link => f_link(s, p),
        ProcCall::UnLink => f_unlink(s, p),
        ProcCall::Fork => f_fork(s, p),
        ProcCall::Wait => f_wait(s, p),
        ProcCall::Chain => f_chain(s, p),
        ProcCall::Exit => f_exit(s, p),
        ProcCall::Mem => f_mem(s, p),
        ProcCall::Send => f_send(s, p),
        ProcCall::Icpt => f_icpt(s, p),
        ProcCall::Sleep => f_sleep(s, p),
        ProcCall::Id => f_id(s, p),
        ProcCall::SPrior => f_sprior(s, p),
        ProcCall::PrsNam => f_prsnam(s, p),
        ProcCall::CmpNam => f_cmpnam(s, p),
        ProcCall::Crc => f_crc(s, p),
        ProcCall::SUser => f_suser(s, p),
        ProcCall::UnLoad => f_unload(s, p),
    }
}
