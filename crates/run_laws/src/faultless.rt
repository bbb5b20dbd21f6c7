//! Runs in which no device fails.

ghost use Rattle.std.specs.Prelude.{◌≡◌, ℕ, ◌<◌, ◌≤◌, List, Some, length, true};
ghost use Rattle.time_rules.specs.CivilTime.{is_time_packet};
ghost use Rattle.proc_model.specs.Records.{IsLiving};
ghost use Rattle.machine_model.specs.Start.{Boot, Starts};
ghost use Rattle.machine_model.specs.State.{State};
ghost use Rattle.run_laws.specs.Faults.{CanRise, NoneFailed};
ghost use Rattle.run_laws.specs.Faultless.{GoesOnWell, HasFaultlessEvent, HasFaultlessRun, HasFaultlessSlice, IsFaultless};

/// Over devices that do not fail the machine never stops, even with volumes: the chosen process has
/// an event without a fault while it lives, and there is a run without a fault over every list of
/// slices, from the start of a machine with a drive for each well formed image. In it no count of
/// faults has risen, if each could.
pub fn some_run_without_faults()
    ensures event { (s : State) (p : ℕ) → GoesOnWell s → s.chosen ≡ Some p
        → IsLiving s.processes.records p → HasFaultlessEvent s }
    ensures slice { (n : ℕ) (s : State) → GoesOnWell s → HasFaultlessSlice n s }
    ensures run { (slices : List ℕ) (s : State) → GoesOnWell s → HasFaultlessRun slices s }
    ensures started { (boot : Boot) (slices : List ℕ) (s : State) → Starts boot s
        → 0 < length boot.terms → length boot.terms ≤ 4 → is_time_packet boot.time ≡ true
        → length boot.images ≤ length boot.drives → HasFaultlessRun slices s }
    ensures unfailed { (s t : State) → IsFaultless s t → CanRise s → NoneFailed s t }
{}
