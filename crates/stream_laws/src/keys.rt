//! Keys of terminals over a run: each is used by one read, in order, or is dropped by a rule.

ghost use Rattle.std.specs.Prelude.{◌≡◌, ℕ, ◌<◌, List, []};
ghost use Rattle.machine_model.specs.declared.ends.EventEnd.{EventEnd};
ghost use Rattle.machine_model.specs.declared.ends.SliceEnd.{SliceEnd};
ghost use Rattle.machine_model.specs.Event.{Event};
ghost use Rattle.machine_model.specs.Run.{Run, Slice, Tick};
ghost use Rattle.machine_model.specs.Start.{Boot, Starts};
ghost use Rattle.machine_model.specs.State.{State};
ghost use Rattle.os9_outer.specs.declared.terminal.Key.{Key};
ghost use Rattle.stream_laws.specs.Keys.{KeyMove, EventKeys, HasAhead, KeysArrive, KeysPass, ahead_at};

/// The type-ahead of a terminal is empty at the start. Its keys arrive in ticks, in order, and go
/// into it, except those that send a signal or find it full. Only a read whose path was opened on
/// the terminal takes keys out of it, from its front, while no other process's read is unfinished,
/// and they make its line. The line is stored if they end it, stays with the read if they do not,
/// and is dropped if the read is refused. Any other attempt of a read of the terminal asks for no
/// byte, is refused with neither 211 nor 245, or waits for another process's read. Otherwise the
/// line is dropped only by a signal delivered to the reader, the reader's end, and a write in which
/// the terminal fails. Over a slice and a run the keys that entered the type-ahead are, in order,
/// those that its events used and those that are still in it.
pub fn each_key_is_used_once()
    ensures start { (boot : Boot) (s : State) (n : ℕ) → Starts boot s → n < 4
        → HasAhead n s × (ahead_at s n ≡ []) }
    ensures event { (s t : State) (end : EventEnd) (n : ℕ) → Event s end t → HasAhead n s
        → (move : KeyMove) × EventKeys n s end move t × HasAhead n t }
    ensures tick { (s t : State) (n : ℕ) → Tick s t → HasAhead n s
        → (keys : List Key) × KeysArrive n s keys t × HasAhead n t }
    ensures slice { (size : ℕ) (s t : State) (states : List State) (end : SliceEnd) (n : ℕ)
        → Slice size s states end t → HasAhead n s → KeysPass n s states t × HasAhead n t }
    ensures run { (slices written : List ℕ) (s t : State) (states : List State) (n : ℕ)
        → Run slices s states written t → HasAhead n s
        → KeysPass n s states t × HasAhead n t }
{}
