//! Laws of the clock.

ghost use Rattle.std.specs.Prelude.{◌≡◌, ℕ, ◌≤◌, true};
ghost use Rattle.os9_base.specs.declared.registers.TimePacket.{TimePacket};
ghost use Rattle.proc_model.specs.CallResult.{CallResult};
ghost use Rattle.proc_model.specs.Processes.{Processes};
ghost use Rattle.time_rules.specs.CivilTime.{is_time_packet};
ghost use Rattle.time_rules.specs.Attempts.{TimeAttempts};
ghost use Rattle.time_rules.specs.Clock.{IsClock, IsNow, first_clock};
ghost use Rattle.time_rules.specs.declared.clock.Clock.{Clock};
ghost use Rattle.time_rules.specs.declared.time_call.TimeCall.{TimeCall};

/// A clock was set to a civil date and time, and not after this tick. This holds of the clock of a
/// machine that starts at such a time. Each tick keeps it, and so does each call on the time, for
/// any packet that the call is given.
pub fn clocks_stay_clocks()
    ensures start { (start : TimePacket) → is_time_packet start ≡ true
        → IsClock (first_clock start) 0 }
    ensures tick { (clock : Clock) (tick later : ℕ) → tick ≤ later → IsClock clock tick
        → IsClock clock later }
    ensures call { (call : TimeCall) (m : Processes) (clock : Clock) (now : TimePacket) (p : ℕ)
        (result : CallResult) (new : Clock) → TimeAttempts call m clock now p result new
        → IsClock clock m.tick → IsClock new m.tick }
{}

/// A clock shows one time in each tick.
pub fn a_clock_shows_one_time()
    ensures there { (clock : Clock) (tick : ℕ) → IsClock clock tick
        → (now : TimePacket) × IsNow clock tick now }
    ensures one { (clock : Clock) (tick : ℕ) (one other : TimePacket) → IsNow clock tick one
        → IsNow clock tick other → one ≡ other }
{}
