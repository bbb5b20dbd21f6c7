//! Loaded keys change nothing before they are due, so a session goes on turn by turn, and is the
//! run of its script.

ghost use Rattle.std.specs.Prelude.{◌≡◌, ℕ, ◌+◌, ◌∷◌, ◌++◌, true, List, []};
ghost use Rattle.machine_model.specs.Console.{console_bytes, terminals_emptied};
ghost use Rattle.machine_model.specs.declared.ends.EventEnd.{EventEnd};
ghost use Rattle.machine_model.specs.declared.ends.SliceEnd.{SliceEnd};
ghost use Rattle.machine_model.specs.Event.{Event};
ghost use Rattle.machine_model.specs.Run.{BeginsSlice, Slice};
ghost use Rattle.machine_model.specs.State.{State, has_living};
ghost use Rattle.run_laws.specs.Faults.{NoneFailed};
ghost use Rattle.run_laws.specs.Reached.{NeverChooses};
ghost use Rattle.run_laws.specs.Session.{AreLater, Keys, Session, SessionTurn, counts, script, with_keys};
ghost use Rattle.run_laws.specs.SoFar.{SessionSoFar, each_with};

/// Keys that are loaded after those that the terminals have change no event. Keys that are not due
/// in the next tick change no slice and no beginning of one: it goes through the same states to the
/// same one, and each has those keys after its own.
pub fn keys_that_come_later_change_no_slice()
    ensures event { (tick : ℕ) (s t : State) (end : EventEnd) (keys : Keys) → AreLater tick keys
        → Event s end t → Event (with_keys s keys) end (with_keys t keys) }
    ensures slice { (n : ℕ) (s t : State) (states : List State) (end : SliceEnd) (keys : Keys)
        → AreLater (s.processes.tick + 1) keys → Slice n s states end t
        → Slice n (with_keys s keys) (each_with keys states) end (with_keys t keys) }
    ensures part { (n : ℕ) (s t : State) (states : List State) (keys : Keys)
        → AreLater (s.processes.tick + 1) keys → BeginsSlice n s states t
        → BeginsSlice n (with_keys s keys) (each_with keys states) (with_keys t keys) }
{}

/// A session goes on turn by turn. It has reached its start. If it has reached a state in which a
/// process lives, and keys are loaded that are due in later ticks than those that are over, it has
/// reached the state after the next slice, whose bytes are taken. When it stops, it was a session.
pub fn a_session_goes_on_turn_by_turn()
    ensures start { (s : State) → SessionSoFar [] s [] [] s }
    ensures turn { (turns : List SessionTurn) (turn : SessionTurn) (s m t : State)
        (states first : List State) (written : List ℕ) (end : SliceEnd)
        → SessionSoFar turns s states written m → has_living m ≡ true
        → AreLater m.processes.tick turn.load → t.processes.tick ≡ m.processes.tick + 1
        → Slice turn.count (with_keys m turn.load) first end t → SessionSoFar (turns ++ turn ∷ []) s
        (states ++ first) (written ++ console_bytes t.terms)
        (record t { terms = terminals_emptied t.terms }) }
    ensures stop { (turns : List SessionTurn) (s m : State) (states : List State) (written : List ℕ)
        → SessionSoFar turns s states written m → Session turns s states written m }
{}

/// Two sessions with one script and one list of slices, from one state, write the same, if no
/// device fails in them, and no state that can be reached from the first one has an attempt of a
/// call that may take clusters of a volume: the prompt at which a key was typed is not observable.
pub fn sessions_of_one_script_write_the_same()
    ensures sessions { (turns others : List SessionTurn) (s t u : State)
        (states through : List State) (written bytes : List ℕ) → script turns ≡ script others
        → counts turns ≡ counts others → NeverChooses (with_keys s (script turns)) → NoneFailed s t
        → NoneFailed s u → Session turns s states written t → Session others s through bytes u
        → written ≡ bytes }
{}
