//! The calls on the time, each as an attempt by a process, and all of them by their codes.

ghost use Rattle.std.specs.Prelude.{◌≡◌};
ghost use Rattle.proc_model.specs.Records.{IsLiving};
ghost use Rattle.proc_model.specs.Processes.{Processes};
ghost use Rattle.proc_state.specs.Tie.{RepresentsProcesses, AreProcessesSame};
ghost use Rattle.time_rules.specs.Attempts.{clock_after};
ghost use Rattle.time_rules.specs.Clock.{IsClock};
ghost use Rattle.time_rules.specs.STime.{sets_clock};
ghost use Rattle.time_rules.specs.declared.clock.Clock.{Clock};
ghost use Rattle.time_rules.specs.declared.time_call.TimeCall.TheVariants as Call;
ghost use Rattle.call_dispatch.specs.TimeAttempt.{TimeAttempted, AttemptsNow, step_end};

use crate::clock::now;
use crate::packets::{read_packet, store_packet};
use os9_base::call::CallEnd;
use os9_base::errors::{E_BADTIME, E_BPADDR};
use os9_base::registers::{Pid, TimePacket};
use os9_clock::time::is_time;
use proc_state::state::ProcState;
use time_rules::clock::{Clock, PACKET_BYTES};
use time_rules::time_call::TimeCall;

/// An attempt of a call on the time, F$Time or F$STime, as in [`f_time`] and [`f_stime`] (System
/// Programmer's Manual, "System calls").
pub fn attempt_on_clock(s: &mut ProcState, clock: &mut Clock, p: Pid, call: TimeCall) -> CallEnd
    requires lives { IsLiving s.old.table p.0 }
    requires clock { IsClock clock.old s.old.tick }
    ensures call { (m : Processes) → RepresentsProcesses s.old m
        → AttemptsNow call m clock.old p.0 result s.new clock.new }
    ensures lives { IsLiving s.new.table p.0 }
    ensures clock { IsClock clock.new s.new.tick }
{
    match call {
        TimeCall::Time => f_time(s, clock, p),
        TimeCall::STime => f_stime(s, clock, p),
    }
}

/// F$Time: returns the time (System Programmer's Manual, F$Time). Stores the six bytes of its
/// packet at X: the year less 1900, the month, the day, the hour, the minute and the second.
///
/// # Errors
///
/// E$BPAddr exactly if one of these bytes is in no named slot or past `FFFF`. Nothing has changed
/// then.
pub fn f_time(s: &mut ProcState, clock: &Clock, p: Pid) -> CallEnd
    requires lives { IsLiving s.old.table p.0 }
    requires clock { IsClock clock.now s.old.tick }
    ensures call { (m : Processes) → RepresentsProcesses s.old m
        → AttemptsNow Call.Time m clock.now p.0 result s.new clock.now }
    ensures lives { IsLiving s.new.table p.0 }
    ensures clock { IsClock clock.now s.new.tick }
{
    let packet = now(clock, s.tick);
    tell(s, p, packet)
}

/// Stores this time at X.
fn tell(s: &mut ProcState, p: Pid, packet: TimePacket) -> CallEnd
    requires lives { IsLiving s.old.table p.0 }
    ensures call { (m : Processes) (clock : Clock) → RepresentsProcesses s.old m
        → TimeAttempted Call.Time m clock packet p.0 result s.new clock }
    ensures records { s.new.table ≡ s.old.table }
    ensures tick { s.new.tick ≡ s.old.tick }
{
    let regs = s.regs(p);
    if !s.is_named(p, regs.x, PACKET_BYTES as u16) {
        return CallEnd::Error(E_BPADDR);
    }
    store_packet(s, p, regs.x, packet);
    CallEnd::Done
}

/// F$STime: sets the time to the packet at X (System Programmer's Manual, F$STime). The time goes
/// on from there, from this tick on.
///
/// # Errors
///
/// E$BPAddr exactly if one of the six bytes is in no named slot or past `FFFF`, else 225 exactly if
/// the packet is not a civil date and time (this project's own). The clock has not changed then.
pub fn f_stime(s: &mut ProcState, clock: &mut Clock, p: Pid) -> CallEnd
    requires lives { IsLiving s.old.table p.0 }
    requires clock { IsClock clock.old s.old.tick }
    ensures call { (m : Processes) → RepresentsProcesses s.old m
        → AttemptsNow Call.STime m clock.old p.0 result s.new clock.new }
    ensures lives { IsLiving s.new.table p.0 }
    ensures clock { IsClock clock.new s.new.tick }
    ensures same { AreProcessesSame s.old s.new }
{
    let regs = s.regs(p);
    match read_packet(s, p, regs.x) {
        None => CallEnd::Error(E_BPADDR),
        Some(packet) => set_clock(clock, s.tick, packet),
    }
}

/// Sets the clock to a packet in this tick.
fn set_clock(clock: &mut Clock, tick: u32, packet: TimePacket) -> CallEnd
    requires { IsClock clock.old tick }
    ensures end { result ≡ step_end (sets_clock tick packet) }
    ensures set { clock.new ≡ clock_after clock.old (sets_clock tick packet) }
    ensures clock { IsClock clock.new tick }
{
    if !is_time(packet) {
        return CallEnd::Error(E_BADTIME);
    }
    *clock = Clock {
        from: packet,
        since: tick,
    };
    CallEnd::Done
}
