//! The events, slices and runs of states that are equal but for later keys, as laws.

ghost use Rattle.std.specs.Prelude.{◌≡◌, ℕ, ◌+◌, ◌≤◌, List};
ghost use Rattle.machine_model.specs.declared.ends.EventEnd.{EventEnd};
ghost use Rattle.machine_model.specs.declared.ends.SliceEnd.{SliceEnd};
ghost use Rattle.machine_model.specs.Event.{Event};
ghost use Rattle.machine_model.specs.Run.{Choose, Slice, Tick};
ghost use Rattle.machine_model.specs.State.{State};
ghost use Rattle.run_laws.specs.Session.{IsRunOf, Session, SessionTurn};
ghost use Rattle.run_laws.specs.Later.{UnsharedKeys, SameTo, SameTickTo, SameChoiceTo, SameEventTo, SameSliceTo};

/// Of two states that are equal but for keys after a tick, one has each tick up to that one and
/// each choice that the other has, and they are equal but for those keys after it.
pub fn later_keys_change_no_tick()
    ensures tick { (later : ℕ) (rests : List UnsharedKeys) (s t other : State)
        → s.processes.tick + 1 ≤ later
        → SameTo later rests s other → Tick s t → SameTickTo later rests t other }
    ensures choice { (later : ℕ) (rests : List UnsharedKeys) (s t other : State)
        → SameTo later rests s other → Choose s t → SameChoiceTo later rests t other }
{}

/// And one has each event that the other has, of every kind.
pub fn later_keys_change_no_event()
    ensures event { (later : ℕ) (rests : List UnsharedKeys) (s t other : State) (end : EventEnd)
        → SameTo later rests s other → Event s end t → SameEventTo later rests end t other }
{}

/// So it has each slice up to that tick, with the same end.
pub fn later_keys_change_no_slice()
    ensures slice { (later : ℕ) (rests : List UnsharedKeys) (n : ℕ) (s t other : State)
        (states : List State) (end : SliceEnd) → s.processes.tick + 1 ≤ later
        → SameTo later rests s other → Slice n s states end t
        → SameSliceTo later rests n states end t other }
{}

/// A run whose keys are loaded while it goes is the run of its recorded script: it writes the same
/// bytes, through states that differ only by keys that were not loaded yet.
pub fn a_session_is_the_run_of_its_script()
    ensures session { (turns : List SessionTurn) (s t : State) (states : List State)
        (written : List ℕ) → Session turns s states written t → IsRunOf turns s states written t }
{}
