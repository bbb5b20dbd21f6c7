//! F$Sleep.

ghost use Rattle.std.specs.Prelude.{◌≡◌, ◌+◌, ◌≤◌};
ghost use Rattle.std.specs.Option.{ForSome};
ghost use Rattle.proc_model.specs.Records.{IsLiving};
ghost use Rattle.proc_model.specs.Processes.{Processes};
ghost use Rattle.proc_model.specs.Sleep as model;
ghost use Rattle.os9_base.specs.declared.limits.TheConstants.{LAST_TICK};
ghost use Rattle.proc_state.specs.Tie.{RepresentsProcesses, ReturnsCallEnd};
ghost use Rattle.proc_calls.specs.Telling.{KeepsRecordsAndTurns};

use os9_base::call::CallEnd;
use os9_base::registers::{Pid, Regs};
use proc_model::own::Own;
use proc_model::record::Life;
use proc_state::state::ProcState;

/// F$Sleep: sleeps for the ticks in X, or for ever if X is 0 (System Programmer's Manual, F$Sleep).
/// The sleep ends at its tick or with signal 1. Returns in X the ticks left then, 0 for a sleep for
/// ever.
pub fn f_sleep(s: &mut ProcState, p: Pid) -> CallEnd
    requires lives { IsLiving s.old.table p.0 }
    ensures call { (m : Processes) → RepresentsProcesses s.old m
        → ReturnsCallEnd m p.0 (model.f_sleep m p.0) result s.new }
    ensures lives { IsLiving s.new.table p.0 }
    ensures still { result ≡ CallEnd.Wait → KeepsRecordsAndTurns s.old s.new }
{
    match s.table.life(p) {
        Some(Life::Waiting) => sleeps_on(s, p),
        _ => falls_asleep(s, p),
    }
}

/// The first attempt: the sleep begins.
fn falls_asleep(s: &mut ProcState, p: Pid) -> CallEnd
    requires lives { IsLiving s.old.table p.0 }
    ensures call { (m : Processes) → RepresentsProcesses s.old m
        → ReturnsCallEnd m p.0 (model.falls_asleep m p.0) result s.new }
    ensures lives { IsLiving s.new.table p.0 }
    ensures still { result ≡ CallEnd.Wait → KeepsRecordsAndTurns s.old s.new }
{
    let until = sleep_end(s.tick, s.table.regs(p).x);
    let own = s.own(p);
    s.set_own(
        p,
        Own {
            until,
            woken: false,
            ..own
        },
    );
    CallEnd::Wait
}

/// A further attempt.
fn sleeps_on(s: &mut ProcState, p: Pid) -> CallEnd
    requires lives { IsLiving s.old.table p.0 }
    ensures call { (m : Processes) → RepresentsProcesses s.old m
        → ReturnsCallEnd m p.0 (model.sleeps_on m p.0) result s.new }
    ensures lives { IsLiving s.new.table p.0 }
    ensures still { result ≡ CallEnd.Wait → KeepsRecordsAndTurns s.old s.new }
{
    let regs = s.table.regs(p);
    let own = s.own(p);
    if !may_wake(s.tick, own) {
        return CallEnd::Wait;
    }
    let x = ticks_left(s.tick, own);
    s.set_regs(p, Regs { x, ..regs });
    CallEnd::Done
}

/// The tick that ends a sleep of `ticks` ticks that begins now; None if it is for ever.
fn sleep_end(tick: u32, ticks: u16) -> Option<u32>
    requires { tick ≤ LAST_TICK }
    ensures end { result ≡ model.sleep_end tick ticks }
    ensures soon { ForSome result (λ until. until ≤ tick + 65535) }
{
    if ticks == 0 {
        return None;
    }
    Some(tick + u32::from(ticks))
}

/// May a sleep end? Its tick is reached, or a wake has arrived.
fn may_wake(tick: u32, own: Own) -> bool
    ensures { result ≡ model.may_wake tick own }
{
    own.woken || own.until.is_some_and(|until| until <= tick)
}

/// The ticks that are left of a sleep.
fn ticks_left(tick: u32, own: Own) -> u16
    requires { ForSome own.until (λ until. until ≤ tick + 65535) }
    ensures { result ≡ model.ticks_left tick own }
{
    match own.until {
        None => 0,
        Some(until) => until.saturating_sub(tick) as u16,
    }
}
