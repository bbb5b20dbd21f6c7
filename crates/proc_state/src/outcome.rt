//! How a call ends.

ghost use Rattle.std.specs.Prelude.{◌≡◌, ℕ};
ghost use Rattle.proc_model.specs.CallResult.{CallResult};
ghost use Rattle.proc_model.specs.Processes.{Processes};
ghost use Rattle.proc_state.specs.declared.state.ProcState.{ProcState};
ghost use Rattle.proc_state.specs.Tie.{ReturnsDoneOrRefused, ReturnsCallEnd, end_of};

use os9_base::call::CallEnd;

/// The end of a call that is done, or is refused with a number.
pub fn call_end(outcome: Result<(), u8>) -> CallEnd
    ensures end { result ≡ end_of outcome }
    ensures comes { (m : Processes) (p : ℕ) (call : CallResult) (new : ProcState)
        → ReturnsDoneOrRefused m call outcome new → ReturnsCallEnd m p call result new }
{
    match outcome {
        Ok(()) => CallEnd::Done,
        Err(number) => CallEnd::Error(number),
    }
}
