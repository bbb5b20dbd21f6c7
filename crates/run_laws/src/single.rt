//! Runs of the machine without faults, as laws over all of them.

ghost use Rattle.std.specs.Prelude.{◌≡◌, ◌⊎◌, ℕ, List, []};
ghost use Rattle.machine_model.specs.declared.ends.EventEnd.{EventEnd};
ghost use Rattle.machine_model.specs.declared.ends.SliceEnd.{SliceEnd};
ghost use Rattle.machine_model.specs.Event.{Event};
ghost use Rattle.machine_model.specs.Run.{Choose, Run, Slice, Tick};
ghost use Rattle.machine_model.specs.Start.{Boot, Starts};
ghost use Rattle.machine_model.specs.State.{State};
ghost use Rattle.run_laws.specs.Reached.{NeverChooses};
ghost use Rattle.run_laws.specs.Faults.{HasNoVolumes, NoneFailed, MayChoose, SameButClusters, SameEvent, SameRun, SameSlice};

/// Without a volume no call takes clusters, and no event, tick or choice mounts one.
pub fn no_volume_is_mounted()
    ensures start { (boot : Boot) (s : State) → boot.images ≡ [] → Starts boot s → HasNoVolumes s }
    ensures never { (s : State) → HasNoVolumes s → MayChoose s → ⊥ }
    ensures event { (s t : State) (end : EventEnd) → Event s end t → HasNoVolumes s
        → HasNoVolumes t }
    ensures tick { (s t : State) → Tick s t → HasNoVolumes s → HasNoVolumes t }
    ensures choice { (s t : State) → Choose s t → HasNoVolumes s → HasNoVolumes t }
{}

/// Two events of one state in which no device fails are the same, unless the chosen process
/// attempts a call that takes clusters of a volume: a write or a size for which a file needs some,
/// or a new file or directory. Then both make the same change of that volume and differ only in the
/// clusters, or end with E$SLF if one of them finds no place in the file's list. Two ticks are the
/// same.
pub fn events_without_faults_are_one()
    ensures event { (s t u : State) (end other : EventEnd) → Event s end t → Event s other u
        → NoneFailed s t → NoneFailed s u
        → SameButClusters s end t other u ⊎ SameEvent end t other u }
    ensures tick { (s t u : State) → Tick s t → Tick s u → NoneFailed s t → NoneFailed s u → t ≡ u }
{}

/// Without faults a run in which no clusters can be taken is the only one, and so is each without
/// volumes: two slices, and two runs over the same slices, from one state write the same bytes
/// through the same states.
pub fn a_run_without_volumes_is_one()
    ensures without { (s : State) → HasNoVolumes s → NeverChooses s }
    ensures slice { (n : ℕ) (s t u : State) (states others : List State) (end other : SliceEnd)
        → NeverChooses s → Slice n s states end t → Slice n s others other u
        → NoneFailed s t → NoneFailed s u → SameSlice states end t others other u }
    ensures run { (slices written bytes : List ℕ) (s t u : State) (states others : List State)
        → NeverChooses s → Run slices s states written t → Run slices s others bytes u
        → NoneFailed s t → NoneFailed s u → SameRun states written t others bytes u }
{}
