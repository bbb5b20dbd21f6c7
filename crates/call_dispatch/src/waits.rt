//! What the calls wait for.

ghost use Rattle.std.specs.Prelude.{◌≡◌, IfSome};
ghost use Rattle.call_dispatch.specs.Waits as model;

use os9_sched::{Cause, Wait};
use proc_model::own::Own;
use proc_model::proc_call::ProcCall;

/// What a call waits for, if it is F$Wait or F$Sleep: the end of a child, or its tick or signal 1.
/// No other call waits.
pub fn waits_for(call: ProcCall, own: Own) -> Wait
    ensures { IfSome (model.waits_for call own) (λ wait. result ≡ wait) }
{
    match call {
        ProcCall::Sleep => Wait {
            cause: Cause::Sleep,
            until: own.until,
        },
        _ => Wait {
            cause: Cause::Child,
            until: None,
        },
    }
}
