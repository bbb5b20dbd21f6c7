//! Worked requests.

ghost use Rattle.std.specs.Prelude.{◌≡◌, ℕ, None, Some, true, false};
ghost use Rattle.lock_model.specs.Locks.{no_locks, with_lock};
ghost use Rattle.lock_model.specs.Rows.{asking, bytes_to, four_from, owned_by, three_records, two_wait};
ghost use Rattle.lock_model.specs.Waits.{closes, first_answer, later_answer, lock_may_go};
ghost use Rattle.lock_model.specs.Conflict.{is_against, overlaps};
ghost use Rattle.lock_model.specs.declared.lock.Grant.TheVariants.{Granted, Locked, Deadlock, Wait};

/// Each of three processes holds a record and requests that of the next: the third request would
/// close a cycle. A request that does not wait is refused for the lock. After the third process has
/// written its record, the second may go on, and the first still waits.
#[tactic(auto, unfolding(crate::specs::Waits::closes))]
pub fn lock_cycle()
    ensures free { first_answer no_locks (asking 2 4 0) ≡ Granted }
    ensures own { first_answer three_records (asking 2 0 0) ≡ Granted }
    ensures first { first_answer three_records (asking 2 4 0) ≡ Wait }
    ensures second { first_answer two_wait (asking 3 8 0) ≡ Wait }
    ensures third { first_answer two_wait (asking 4 0 0) ≡ Deadlock }
    ensures at_once { first_answer two_wait (asking 4 0 1) ≡ Locked }
    ensures written { lock_may_go (with_lock two_wait 6 None) 9 3 ≡ true }
    ensures still { lock_may_go (with_lock two_wait 6 None) 9 2 ≡ false }
{}

/// A request with a limit of five ticks, made in tick 9, is refused in tick 14; one without a limit
/// never is.
pub fn lock_ticks()
    ensures before { later_answer three_records 13 (asking 2 4 5) ≡ Wait }
    ensures then { later_answer three_records 14 (asking 2 4 5) ≡ Locked }
    ensures never { (tick : ℕ) → later_answer three_records tick (asking 2 4 0) ≡ Wait }
{}

/// Adjacent ranges do not overlap. A range without an end includes every byte from its start on.
pub fn ranges()
    ensures next { overlaps (four_from 0) (four_from 4) ≡ false }
    ensures one { overlaps (four_from 0) (four_from 3) ≡ true }
    ensures inside { overlaps (four_from 0) (bytes_to 1 (Some 2)) ≡ true }
    ensures to_the_end { overlaps (bytes_to 2 None) (four_from 90) ≡ true }
    ensures before { overlaps (bytes_to 94 None) (four_from 90) ≡ false }
{}
