ghost use Rattle.std.specs.Prelude.{◌≡◌};
ghost use Rattle.time_rules.specs.Codes.{time_call_of};

use os9_base::calls::{F_STIME, F_TIME};

/// A call on the time (System Programmer's Manual, "System calls").
#[derive(Clone, Copy, Debug, PartialEq, Eq)]
pub enum TimeCall {
    /// F$Time: returns the time.
    Time,
    /// F$STime: sets the time.
    STime,
}

/// The call on the time with this code, or None if no such call has it.
pub fn time_call(code: u8) -> Option<TimeCall>
    ensures { result ≡ time_call_of code }
{
    match code {
        F_TIME => Some(TimeCall::Time),
        F_STIME => Some(TimeCall::STime),
        _ => None,
    }
}
