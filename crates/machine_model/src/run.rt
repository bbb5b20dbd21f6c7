//! Runs of the machine, as laws over all of them.

ghost use Rattle.std.specs.Prelude.{ℕ, List};
ghost use Rattle.os9_outer.specs.TerminalState.{TerminalState};
ghost use Rattle.machine_model.specs.Terminals.{TerminalsOnlyGain};
ghost use Rattle.machine_model.specs.declared.ends.EventEnd.{EventEnd};
ghost use Rattle.machine_model.specs.declared.ends.SliceEnd.{SliceEnd};
ghost use Rattle.machine_model.specs.Devices.{OnlyGain};
ghost use Rattle.machine_model.specs.Event.{Event};
ghost use Rattle.machine_model.specs.Run.{BeginsSlice, BreaksTick, Run, Slice, Tick};
ghost use Rattle.machine_model.specs.State.{State};

/// The devices of a machine only gain: along its events no used key of a terminal returns, no count
/// of faults of a terminal or a drive falls, and what is observed stays observed.
pub fn devices_only_gain()
    ensures tick { (s t : State) → Tick s t → OnlyGain s t }
    ensures broken_tick { (s : State) (terms : List TerminalState) → BreaksTick s terms
        → TerminalsOnlyGain s.terms terms }
    ensures event { (s t : State) (end : EventEnd) → Event s end t → OnlyGain s t }
    ensures slice { (n : ℕ) (s t : State) (states : List State) (end : SliceEnd)
        → Slice n s states end t → OnlyGain s t }
    ensures part { (n : ℕ) (s t : State) (states : List State)
        → BeginsSlice n s states t → OnlyGain s t }
    ensures run { (slices written : List ℕ) (s t : State) (states : List State)
        → Run slices s states written t → OnlyGain s t }
{}
