//! What conflicts, answers and histories mean, as laws.

ghost use Rattle.std.specs.Prelude.{◌≡◌, ◌↔◌, ℕ, true, false, None, Some, ◌≤◌, ◌≢◌, length};
ghost use Rattle.lock_model.specs.Changes.{ChangesByRule};
ghost use Rattle.lock_model.specs.Conflict.{conflicts, overlaps};
ghost use Rattle.lock_model.specs.Laws.{AreLocks, HasRanks, IsIn, MayHold, cut_at};
ghost use Rattle.lock_model.specs.Locks.{Locks, no_locks, request_of, with_lock, with_request};
ghost use Rattle.lock_model.specs.Records.{AreLockRecords, Records, no_records};
ghost use Rattle.lock_model.specs.Waits.{Closes, NoCycle, Opposes, closes, first_answer, later_answer, lock_may_go};
ghost use Rattle.lock_model.specs.History.{AtomicPairs};
ghost use Rattle.lock_model.specs.declared.lock.Grant.TheVariants.{Granted, Deadlock, Wait};
ghost use Rattle.lock_model.specs.declared.lock.TheConstants.{LOCK_PROCESSES};
ghost use Rattle.lock_model.specs.declared.lock.Held.{Held as Lock};
ghost use Rattle.lock_model.specs.declared.lock.Range.{Range as Bytes};
ghost use Rattle.lock_model.specs.declared.lock.Request.{Request as Asked};

/// Two ranges overlap if and only if a byte is in both.
pub fn ranges_overlap_in_a_byte()
    ensures { (a b : Bytes) → (overlaps a b ≡ true) ↔ ((byte : ℕ) × IsIn byte a × IsIn byte b) }
{}

/// A request conflicts if and only if a process owns a lock against it. At a first attempt, it is
/// granted exactly if it does not conflict.
pub fn a_conflict_is_a_lock_in_the_way()
    ensures conflict { (locks : Locks) (asked : Lock)
        → (conflicts locks asked ≡ true) ↔ ((q : ℕ) × Opposes locks asked q) }
    ensures granted { (locks : Locks) (request : Asked)
        → (first_answer locks request ≡ Granted) ↔ (conflicts locks request.lock ≡ false) }
{}

/// A waiting process may go on exactly if a further attempt of its call would not wait.
pub fn who_may_go_waits_no_longer()
    ensures { (locks : Locks) (tick p : ℕ) (request : Asked) → request_of locks p ≡ Some request
        → (lock_may_go locks tick p ≡ true) ↔ (later_answer locks tick request ≢ Wait) }
{}

/// A cycle of waits would close if and only if the owner of a conflicting lock waits for the
/// requesting process, directly or through others.
pub fn a_cycle_is_found()
    ensures { (locks : Locks) (asked : Lock) → length locks.requests ≡ LOCK_PROCESSES
        → (closes locks asked ≡ true) ↔ Closes locks asked }
{}

/// No process ever waits for itself, directly or through others. There are ranks such that each
/// process waits for processes of lower rank alone: at the start, and after each change of locks and
/// requests by the rules.
pub fn waits_have_no_cycle()
    ensures none { (locks : Locks) → HasRanks locks → NoCycle locks }
    ensures first { HasRanks no_locks }
    ensures waiting { (locks : Locks) (request : Asked) → length locks.requests ≡ LOCK_PROCESSES
        → request_of locks request.lock.owner.0 ≡ None → closes locks request.lock ≡ false
        → HasRanks locks → HasRanks (with_request locks request.lock.owner.0 (Some request)) }
    ensures granted { (locks : Locks) (s : ℕ) (lock : Lock) → request_of locks lock.owner.0 ≡ None
        → HasRanks locks → HasRanks (with_lock locks s (Some lock)) }
    ensures ended { (locks : Locks) (s : ℕ) → HasRanks locks
        → HasRanks (with_lock locks s None) }
    ensures forgotten { (locks : Locks) (p : ℕ) → HasRanks locks
        → HasRanks (with_request locks p None) }
{}

/// Locks of different processes on a file have no byte in common, and no process waits for itself:
/// at the start, and after each change by the rules.
pub fn locks_are_kept()
    ensures first { AreLocks no_locks }
    ensures waiting { (locks : Locks) (request : Asked)
        → request_of locks request.lock.owner.0 ≡ None → closes locks request.lock ≡ false
        → AreLocks locks → AreLocks (with_request locks request.lock.owner.0 (Some request)) }
    ensures granted { (locks : Locks) (s : ℕ) (lock : Lock) → MayHold locks lock → AreLocks locks
        → AreLocks (with_lock locks s (Some lock)) }
    ensures ended { (locks : Locks) (s : ℕ) → AreLocks locks
        → AreLocks (with_lock locks s None) }
    ensures forgotten { (locks : Locks) (p : ℕ) → AreLocks locks
        → AreLocks (with_request locks p None) }
    ensures may_hold { (locks : Locks) (lock : Lock) → request_of locks lock.owner.0 ≡ None
        → conflicts locks lock ≡ false → MayHold locks lock }
{}

/// A request is refused for a deadlock exactly if it would wait and a cycle of waits would close.
pub fn a_deadlock_is_refused()
    ensures { (locks : Locks) (request : Asked) → length locks.requests ≡ LOCK_PROCESSES
        → (first_answer locks request ≡ Deadlock)
        ↔ ((request.ticks ≢ 1) × Closes locks request.lock) }
{}

/// A read for update and its write are one step of the file's history, since the history agrees with
/// the locks: at the start, and after each change by the rules.
pub fn the_history_is_atomic()
    ensures pairs { (records : Records) → AreLockRecords records → AtomicPairs records.history }
    ensures first { AreLockRecords no_records }
    ensures changed { (records now : Records) → ChangesByRule records now → AreLockRecords records
        → AreLockRecords now }
{}

/// A part of a lock may be held if the lock may be held: a line may end before the bytes requested.
pub fn a_part_may_be_held()
    ensures { (locks : Locks) (lock : Lock) (end : ℕ)
        → ((last : ℕ) → lock.range.end ≡ Some last → end ≤ last) → MayHold locks lock
        → MayHold locks (cut_at lock end) }
{}
