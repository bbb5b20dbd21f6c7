//! Worked records that are read for update.

ghost use Rattle.std.specs.Prelude.{◌≡◌, ◌++◌, true, false, None, Some, [], ◌∷◌, codes, option_map};
ghost use Rattle.io_model.specs.Path.{desc_of};
ghost use Rattle.io_model.specs.Step.{answers, fails};
ghost use Rattle.lock_model.specs.History.{dropped, got, put};
ghost use Rattle.lock_model.specs.Locks.{lock_of};
ghost use Rattle.os9_base.specs.declared.errors.TheConstants.{E_DEADLK, E_LOCK};
ghost use Rattle.file_rules.specs.LockRows.{gone_on, history_of, in_a_hurry, lock_from, locked_file, moved_while_waiting, moving_on, opened_twice, reading_ends, records_held, sets_to, two_waiting, whole_lock};
ghost use Rattle.file_rules.specs.Locking.{files_may_go};
ghost use Rattle.file_rules.specs.Rows.{a_bytes};
ghost use Rattle.file_rules.specs.declared.status.TheConstants.{SS_LOCK, SS_SIZE, WHOLE_FILE};

/// Each of three processes has read a record for update, and two wait for the record of the next one.
/// The third is refused, since a cycle would close; if its path does not wait, it is refused for the
/// lock.
#[tactic(auto, unfolding(lock_model::specs::Waits::closes))]
pub fn lock_cycle()
    ensures granted { reading_ends 2 3 0 opened_twice ≡ answers (moving_on 3 4) }
    ensures held { lock_of records_held.records.locks 4 ≡ Some (lock_from 3 4) }
    ensures waits { files_may_go two_waiting 9 3 ≡ false }
    ensures cycle { reading_ends 4 1 0 two_waiting ≡ fails E_DEADLK }
    ensures at_once { reading_ends 4 1 0 in_a_hurry ≡ fails E_LOCK }
{}

/// A call that waited is granted the record that it asked for, even if its path has moved since, and
/// the position is then behind that record.
#[tactic(auto, unfolding(lock_model::specs::Waits::closes))]
pub fn lock_of_a_call_that_waited()
    ensures may_go { files_may_go moved_while_waiting 9 2 ≡ true }
    ensures lock { lock_of gone_on.records.locks 3 ≡ Some (lock_from 2 0) }
    ensures position { option_map (λ desc. desc.at) (desc_of gone_on.io.paths 3) ≡ Some 4 }
    ensures history { gone_on.records.history ≡ got 2 (lock_from 3 0) (codes "one" ++ 13 ∷ [])
        ∷ (dropped 2 (lock_from 3 0) ∷ (got 3 (lock_from 2 0) (codes "one" ++ 13 ∷ []) ∷ [])) }
{}

/// A path locks bytes from its position on, or the whole file; of none, its lock ends. A size that
/// changes is a write without bytes in the history, and one that stays ends the lock.
pub fn locks_and_sizes_are_set()
    ensures part { lock_of (locked_file 4).records.locks 2 ≡ Some (lock_from 2 0) }
    ensures whole { lock_of (locked_file WHOLE_FILE).records.locks 2 ≡ Some whole_lock }
    ensures none { (sets_to SS_LOCK 0 (locked_file 4)).records.history
        ≡ got 2 (lock_from 2 0) [] ∷ (dropped 2 (lock_from 2 0) ∷ []) }
    ensures size { (sets_to SS_SIZE 0 (locked_file 4)).records.history
        ≡ got 2 (lock_from 2 0) [] ∷ (put 2 whole_lock [] ∷ []) }
    ensures same { (sets_to SS_SIZE 12 (locked_file 4)).records.history
        ≡ got 2 (lock_from 2 0) [] ∷ (dropped 2 (lock_from 2 0) ∷ []) }
{}

/// A record that is read for update and written is in the history with the range that was locked. A
/// range that reaches past the end of the file has no end.
pub fn history_lines()
    ensures pair { (history_of 4).records.history ≡ got 2 (lock_from 2 0) (codes "one" ++ 13 ∷ [])
        ∷ (put 2 (lock_from 2 0) (codes "Abcd") ∷ []) }
    ensures past { (history_of 13).records.history
        ≡ got 2 (record (lock_from 2 0) { range = record { start = 0; end = None } }) a_bytes
        ∷ (put 2 (lock_from 2 0) (codes "Abcd") ∷ []) }
{}
