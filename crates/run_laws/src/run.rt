//! Runs of the machine: every slice ends, and there is a run over every list of slices.

ghost use Rattle.std.specs.Prelude.{◌≡◌, ℕ, ◌<◌, ◌≤◌, List, Some, length, true};
ghost use Rattle.time_rules.specs.CivilTime.{is_time_packet};
ghost use Rattle.proc_model.specs.Records.{IsLiving};
ghost use Rattle.machine_model.specs.declared.ends.EventEnd.{EventEnd};
ghost use Rattle.machine_model.specs.Event.{Event};
ghost use Rattle.machine_model.specs.Run.{Choose, Tick};
ghost use Rattle.machine_model.specs.Start.{Boot, Starts};
ghost use Rattle.machine_model.specs.State.{State};
ghost use Rattle.file_rules.specs.Files.{KeepsDriveFaults as NoDriveChanged};
ghost use Rattle.run_laws.specs.Faults.{CanRise, NoneFailed};
ghost use Rattle.run_laws.specs.Mounted.{CanGo};
ghost use Rattle.run_laws.specs.Runs.{HasUnfailedEvent, HasRun, HasUnfailedSlice, SameCounts};

/// Each mounted volume is in a drive, and its files have numbers of its sectors. That holds at the
/// start of a machine with a drive for each image, and each event, each tick and each choice keeps
/// it.
pub fn volumes_stay_in_their_drives()
    ensures start { (boot : Boot) (s : State) → Starts boot s → 0 < length boot.terms
        → length boot.terms ≤ 4 → is_time_packet boot.time ≡ true
        → length boot.images ≤ length boot.drives → CanGo s }
    ensures event { (s t : State) (end : EventEnd) → Event s end t → CanGo s → CanGo t }
    ensures tick { (s t : State) → Tick s t → CanGo s → CanGo t }
    ensures choice { (s t : State) → Choose s t → CanGo s → CanGo t }
{}

/// A machine never stops: the chosen process has an event while it lives, in which no terminal
/// fails, and no drive unless it makes a file or a directory and a volume is mounted. Every slice
/// ends, and there is a run over every list of slices, from the start of a machine with a drive for
/// each image; no terminal has to fail in them, and without volumes no drive. If counts of faults
/// are unchanged, and could rise, no device has failed.
pub fn some_run()
    ensures event { (s : State) (p : ℕ) → CanGo s → s.chosen ≡ Some p
        → IsLiving s.processes.records p → HasUnfailedEvent s }
    ensures slice { (n : ℕ) (s : State) → CanGo s → HasUnfailedSlice n s }
    ensures run { (slices : List ℕ) (s : State) → CanGo s → HasRun slices s }
    ensures started { (boot : Boot) (slices : List ℕ) (s : State) → Starts boot s
        → 0 < length boot.terms → length boot.terms ≤ 4 → is_time_packet boot.time ≡ true
        → length boot.images ≤ length boot.drives → HasRun slices s }
    ensures faultless { (s t : State) → SameCounts s t
        → NoDriveChanged s.files.drives t.files.drives → CanRise s → NoneFailed s t }
{}
