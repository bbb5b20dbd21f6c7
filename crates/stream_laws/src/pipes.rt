//! Pipes over a run: what is read is what was written, in order.

ghost use Rattle.std.specs.Prelude.{◌≡◌, ◌⊎◌, ℕ, List, [], ◌++◌};
ghost use Rattle.io_model.specs.Pipe.{IsPipe};
ghost use Rattle.io_model.specs.declared.pending.PendingCall.{PendingCall};
ghost use Rattle.io_model.specs.Io.{pipe_bytes};
ghost use Rattle.machine_model.specs.declared.ends.EventEnd.{EventEnd};
ghost use Rattle.machine_model.specs.declared.ends.EventEnd.TheVariants.{Ended};
ghost use Rattle.machine_model.specs.declared.ends.SliceEnd.{SliceEnd};
ghost use Rattle.machine_model.specs.Event.{Event};
ghost use Rattle.machine_model.specs.Run.{BeginsSlice, FirstSteps, Run, Slice, SliceEvents};
ghost use Rattle.machine_model.specs.State.{State};
ghost use Rattle.stream_laws.specs.Flow.{TellsMoved, AllLive, IsBrokenOff, IsNew, Passes, PassesThrough};

/// While a pipe lives, an event moves bytes into it or out of it only as an attempt of a call on
/// it: a read takes them from its front and stores them where its process sees them, and a write
/// appends the next of the bytes that its process sends. A call that is done answers their count,
/// and a refused read took none. A call with bytes left that moves none finds the pipe empty or, in
/// a write, full. Any other attempt on the pipe is refused, or asks for no byte. If a signal breaks
/// off a pending line read or write, the frame of the routine has the registers of the process,
/// with the number of bytes moved by the call in Y, and carry set and the signal in B if the
/// process waited.
pub fn what_is_read_of_a_pipe_is_what_was_written()
    ensures event { (s t : State) (end : EventEnd) (n : ℕ) → Event s end t
        → IsPipe s.files.io.pipes n → IsPipe t.files.io.pipes n → Passes n s t }
    ensures signal { (s t : State) (end : EventEnd) (n p : ℕ) (pending : PendingCall)
        → Event s end t
        → (it : IsBrokenOff n s p pending)
        → (end ≡ Ended) ⊎ TellsMoved s.processes p it.signal.0 pending.moved t.processes }
    ensures slice { (size : ℕ) (s t : State) (states : List State) (end : SliceEnd) (n : ℕ)
        → Slice size s states end t → IsPipe s.files.io.pipes n → AllLive n states
        → PassesThrough n s states t }
    ensures run { (slices written : List ℕ) (s t : State) (states : List State) (n : ℕ)
        → Run slices s states written t → IsPipe s.files.io.pipes n → AllLive n states
        → PassesThrough n s states t }
{}

/// A pipe that an event opens holds no byte after it.
pub fn a_new_pipe_is_empty()
    ensures { (s t : State) (end : EventEnd) (n : ℕ) → Event s end t → IsNew n s t
        → pipe_bytes t.files.io n ≡ [] }
{}

/// A pipe may be opened by an event of a slice, and disappear with another one. So bytes pass
/// through it from any state in which it lives: over the rest of a slice, over the first events of
/// such a rest or of a slice, and over consecutive parts of a run.
pub fn a_pipe_passes_bytes_as_long_as_it_lives()
    ensures rest { (left : ℕ) (s t : State) (states : List State) (n : ℕ)
        → SliceEvents left s states t → IsPipe s.files.io.pipes n → AllLive n states
        → PassesThrough n s states t }
    ensures first { (left : ℕ) (s t : State) (states : List State) (n : ℕ)
        → FirstSteps left s states t → IsPipe s.files.io.pipes n → AllLive n states
        → PassesThrough n s states t }
    ensures begun { (size : ℕ) (s t : State) (states : List State) (n : ℕ)
        → BeginsSlice size s states t → IsPipe s.files.io.pipes n → AllLive n states
        → PassesThrough n s states t }
    ensures parts { (n : ℕ) (s m t : State) (first later : List State)
        → PassesThrough n s first m → PassesThrough n m later t
        → PassesThrough n s (first ++ later) t }
{}
