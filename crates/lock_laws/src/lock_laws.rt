//! Record locks in the machine, as laws over its events and runs.

ghost use Rattle.std.specs.Prelude.{◌≡◌, ◌≢◌, ◌⊎◌, ℕ, ◌<◌, ◌≤◌, true, List, Some, length};
ghost use Rattle.time_rules.specs.CivilTime.{is_time_packet};
ghost use Rattle.os9_base.specs.declared.errors.TheConstants.{E_DEADLK, E_LOCK};
ghost use Rattle.machine_model.specs.declared.ends.EventEnd.{EventEnd};
ghost use Rattle.machine_model.specs.declared.ends.SliceEnd.{SliceEnd};
ghost use Rattle.lock_model.specs.History.{AtomicPairs};
ghost use Rattle.lock_model.specs.Laws.{IsIn};
ghost use Rattle.lock_model.specs.Locks.{lock_of};
ghost use Rattle.lock_model.specs.Waits.{NoCycle};
ghost use Rattle.lock_model.specs.declared.lock.Held.{Held as Lock};
ghost use Rattle.lock_model.specs.declared.place.FilePlace.{FilePlace};
ghost use Rattle.lock_laws.specs.Contents.{HasPath, contents_of};
ghost use Rattle.machine_model.specs.Event.{Event};
ghost use Rattle.machine_model.specs.Run.{Choose, Run, Slice, Tick};
ghost use Rattle.machine_model.specs.Start.{Boot, Starts};
ghost use Rattle.machine_model.specs.State.{State};
ghost use Rattle.call_laws.specs.RefusedEvents.{IsAttemptRefused};
ghost use Rattle.lock_laws.specs.Changed.{ChangesLocks};
ghost use Rattle.lock_laws.specs.Cycles.{ClosesCycleIn, IsFaulted, IsLockedOutIn};
ghost use Rattle.lock_laws.specs.Locked.{AllAgreed, AllRunLocked, AreOnFiles, IsAgreed, IsRunLocked, LeavesLocks};
ghost use Rattle.lock_laws.specs.Written.{GainsOwn, GainsPut, GainsRead, HasGained, IsFileWriteCutShort, IsFileWritten, KeepsLocked};

/// Locks, requests and their history agree: at the start of a machine with one to four terminals,
/// and after each event, each tick and each choice. So they do in every state of a run (Level Two
/// manual, RBF record locking).
pub fn locks_agree_in_every_state()
    ensures start { (boot : Boot) (s : State) → Starts boot s → 0 < length boot.terms
        → length boot.terms ≤ 4 → is_time_packet boot.time ≡ true → IsAgreed s }
    ensures event { (s t : State) (end : EventEnd) → Event s end t → IsAgreed s → IsAgreed t }
    ensures tick { (s t : State) → Tick s t → IsAgreed s → IsAgreed t }
    ensures choice { (s t : State) → Choose s t → IsAgreed s → IsAgreed t }
    ensures slice { (n : ℕ) (s t : State) (states : List State) (end : SliceEnd)
        → Slice n s states end t → IsAgreed s → AllAgreed states t }
    ensures run { (slices written : List ℕ) (s t : State) (states : List State)
        → Run slices s states written t → IsAgreed s → AllAgreed states t }
{}

/// So in every state of a run locks of different processes on a file have no byte in common, no
/// process waits for itself, directly or through others, and between a read for update in the
/// history and the write of that update no other process writes a byte of what was read.
pub fn locks_are_apart_and_waits_have_no_cycle()
    ensures apart { (s : State) (path other : ℕ) (one two : Lock) → IsAgreed s
        → lock_of s.files.records.locks path ≡ Some one
        → lock_of s.files.records.locks other ≡ Some two → one.owner.0 ≢ two.owner.0
        → one.file ≡ two.file → (byte : ℕ) → IsIn byte one.range → IsIn byte two.range → ⊥ }
    ensures no_cycle { (s : State) → IsAgreed s → NoCycle s.files.records.locks }
    ensures pairs { (s : State) → IsAgreed s → AtomicPairs s.files.records.history }
{}

/// Each lock is of a path that was opened on its file, and its owner lives; each request of a
/// process that waits is for bytes of the file of its path and covers what its call changes: at the
/// start, and after each event, each tick and each choice. So it is in every state of a run.
pub fn locks_are_on_their_files()
    ensures start { (boot : Boot) (s : State) → Starts boot s → AreOnFiles s }
    ensures event { (s t : State) (end : EventEnd) → Event s end t → IsRunLocked s
        → IsRunLocked t }
    ensures tick { (s t : State) → Tick s t → IsRunLocked s → IsRunLocked t }
    ensures choice { (s t : State) → Choose s t → IsRunLocked s → IsRunLocked t }
    ensures slice { (n : ℕ) (s t : State) (states : List State) (end : SliceEnd)
        → Slice n s states end t → IsRunLocked s → AllRunLocked states t }
    ensures run { (slices written : List ℕ) (s t : State) (states : List State)
        → Run slices s states written t → IsRunLocked s → AllRunLocked states t }
{}

/// An event of a process leaves the requests of the other processes. It ends a lock only if the
/// process owns the lock or has a number of its path, and a lock that is new is its own (Level Two
/// manual, RBF record locking).
pub fn an_event_leaves_the_locks_of_the_others()
    ensures { (s t : State) (end : EventEnd) (p : ℕ) → IsRunLocked s → s.chosen ≡ Some p
        → Event s end t → LeavesLocks s p t }
{}

/// An event changes the locks of paths only with the end of its process, or by a call on paths that
/// its process attempts: by the request of that call, or by ending the lock of its path. So no
/// instruction, no signal that is delivered and no other call changes a lock of a process that goes
/// on.
pub fn an_event_changes_locks_by_its_call()
    ensures { (s t : State) (end : EventEnd) (p : ℕ) → s.chosen ≡ Some p → Event s end t
        → ChangesLocks s p end t.files }
{}

/// E$DeadLk is the answer to a call exactly if it is on a file, and at its first attempt its
/// request would wait and that would close a cycle of waits; unless a drive fails in the attempt,
/// whose fault it answers.
pub fn a_deadlock_is_refused_exactly_for_a_cycle()
    ensures alone { (s t : State) (code : ℕ) → IsAgreed s → IsAttemptRefused s code E_DEADLK t
        → ClosesCycleIn s }
    ensures always { (s t : State) (end : EventEnd) → IsAgreed s → Event s end t
        → (it : ClosesCycleIn s) → IsAttemptRefused s it.code E_DEADLK t
        ⊎ IsFaulted s it.code t }
{}

/// E$Lock is the answer to a call exactly if it is on a file, and its request conflicts with a lock
/// of another process and does not wait, or no longer; unless a drive fails in the attempt, whose
/// fault it answers.
pub fn a_lock_refuses_exactly_what_does_not_wait()
    ensures alone { (s t : State) (code : ℕ) → IsAttemptRefused s code E_LOCK t → IsLockedOutIn s }
    ensures always { (s t : State) (end : EventEnd) → Event s end t → (it : IsLockedOutIn s)
        → IsAttemptRefused s it.code E_LOCK t ⊎ IsFaulted s it.code t }
{}

/// The history only gains entries: those of locks that end without a read or a write, and those of
/// the chosen process. A read in it has the bytes that its file had, and a write those that its file
/// has then. An event changes the bytes of a file on which a path is open only if it is a write of
/// the chosen process, which is the entry that the history gains; or if its call is refused with the
/// fault of a drive, and then only in the range of its request. The range of the write has all that
/// has changed, but for the zeros that fill a gap between the old end of the file and the range. Each
/// byte of the file is then the one that was at its place, one of those that the call writes, or a
/// zero behind the old end; only SS.Size cuts bytes off.
pub fn what_is_written_is_in_the_history()
    ensures gains { (s t : State) (end : EventEnd) → Event s end t → HasGained s t }
    ensures own { (s t : State) (end : EventEnd) → IsAgreed s → Event s end t → GainsOwn s t }
    ensures read { (s t : State) (end : EventEnd) → IsRunLocked s → Event s end t
        → GainsRead s t }
    ensures put { (s t : State) (end : EventEnd) → IsRunLocked s → Event s end t
        → GainsPut s t }
    ensures written { (s t : State) (end : EventEnd) (place : FilePlace) → IsRunLocked s
        → Event s end t → HasPath s.files place
        → (contents_of t.files place ≡ contents_of s.files place)
        ⊎ (IsFileWritten s t place ⊎ IsFileWriteCutShort s t place) }
{}

/// An event of another process, whether a drive fails in it or not, leaves each byte that a file
/// has in a range that a path has locked. If the range has no end, it gives the file no byte from
/// the range's start on.
pub fn no_other_event_changes_a_locked_byte()
    ensures { (s t : State) (end : EventEnd) (path : ℕ) (lock : Lock) → IsRunLocked s
        → Event s end t → lock_of s.files.records.locks path ≡ Some lock
        → s.chosen ≢ Some lock.owner.0
        → KeepsLocked lock.range (contents_of s.files lock.file) (contents_of t.files lock.file) }
{}
