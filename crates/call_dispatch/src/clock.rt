//! The time that the clock shows.

ghost use Rattle.time_rules.specs.Clock.{IsClock, IsNow};

use os9_base::registers::TimePacket;
use os9_clock::time::time_at;
use time_rules::clock::{Clock, TICKS_PER_SECOND};

/// The time in this tick: the time to which the clock was set, and one second for every 60 ticks
/// since then (System Programmer's Manual, F$Time; the ticks are this project's own). The clock was
/// set to a civil date and time, and not after this tick. The packet need not be a civil time:
/// after 2155 its year counts from 1900 again.
pub fn now(clock: &Clock, tick: u32) -> TimePacket
    requires { IsClock clock.now tick }
    ensures { IsNow clock.now tick result }
{
    time_at(clock.from, (tick - clock.since) / TICKS_PER_SECOND)
}
