//! Facts of every state of a run, as laws over its steps.

ghost use Rattle.std.specs.Prelude.{◌≡◌, ℕ, ◌<◌, ◌≤◌, true, List, length};
ghost use Rattle.time_rules.specs.CivilTime.{is_time_packet};
ghost use Rattle.machine_model.specs.declared.ends.EventEnd.{EventEnd};
ghost use Rattle.machine_model.specs.declared.ends.SliceEnd.{SliceEnd};
ghost use Rattle.machine_model.specs.Event.{Event};
ghost use Rattle.machine_model.specs.Run.{Choose, Run, Slice, Tick};
ghost use Rattle.machine_model.specs.Start.{Boot, Starts};
ghost use Rattle.machine_model.specs.State.{State};
ghost use Rattle.call_laws.specs.Running.{AllRunning, IsRunning};

/// The saved state of a pending call belongs to the call its process is waiting in, which was made
/// with the registers of the process. A pending read is not refused if it is attempted again: its
/// buffer is named, and its path may be read. Each call on a terminal or a
/// pipe in which a process waits is pending. The path of a call that waits is open. It is on a
/// terminal or a pipe, or its process waits in a request for a record. Each terminal that a path
/// was opened on exists, and so does each file and directory that a path or a process is on; the
/// clock was set to a civil time, and not after the tick. All this holds at the start of a machine
/// with one to four terminals, and each event, each tick and each choice keeps it. So it holds in
/// every state of a run.
pub fn calls_that_wait_are_kept()
    ensures start { (boot : Boot) (s : State) → Starts boot s → 0 < length boot.terms
        → length boot.terms ≤ 4 → is_time_packet boot.time ≡ true → IsRunning s }
    ensures event { (s t : State) (end : EventEnd) → Event s end t → IsRunning s → IsRunning t }
    ensures tick { (s t : State) → Tick s t → IsRunning s → IsRunning t }
    ensures choice { (s t : State) → Choose s t → IsRunning s → IsRunning t }
    ensures slice { (n : ℕ) (s t : State) (states : List State) (end : SliceEnd)
        → Slice n s states end t → IsRunning s → AllRunning states t }
    ensures run { (slices written : List ℕ) (s t : State) (states : List State)
        → Run slices s states written t → IsRunning s → AllRunning states t }
{}
