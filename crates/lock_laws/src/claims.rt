//! What an attempt of a call on files makes of record locks.

ghost use Rattle.std.specs.Prelude.{◌≡◌, ◌⊎◌, ◌↔◌, ℕ, length};
ghost use Rattle.os9_base.specs.declared.errors.TheConstants.{E_DEADLK, E_LOCK};
ghost use Rattle.proc_model.specs.CallResult.{refused};
ghost use Rattle.lock_model.specs.declared.lock.Grant.TheVariants.{Deadlock, Locked};
ghost use Rattle.lock_model.specs.declared.lock.TheConstants.{LOCK_PROCESSES};
ghost use Rattle.lock_model.specs.declared.place.FilePlace.{FilePlace};
ghost use Rattle.file_laws.specs.Kinds.{AreKinds};
ghost use Rattle.file_rules.specs.Files.{KeepsDriveFaults, OpenFile};
ghost use Rattle.lock_model.specs.Records.{without_lock};
ghost use Rattle.file_laws.specs.Attempt.{Attempt, ReportsDriveFault, asker_in, made_in};
ghost use Rattle.lock_laws.specs.Answered.{DoesAsDevice, IsAnsweredSo};
ghost use Rattle.lock_laws.specs.Effects.{TakesEffect};
ghost use Rattle.lock_model.specs.declared.lock.Request.{Request};
ghost use Rattle.file_laws.specs.Recorded.{EndsLock, IsGranted, settled};
ghost use Rattle.file_laws.specs.Claims.{ClosesCycle, IsFirstAttempt, MadePathCall, NamesOpenFile, Requests};
ghost use Rattle.lock_laws.specs.Contents.{ContentsCome, HasPath, IsCovered, contents_of};

/// If the request of an attempt may not wait, or no longer, the attempt is refused, with E$Lock or
/// E$DeadLk by the answer, unless a drive fails in it; and an attempt on a file is refused with these
/// numbers for no other cause (Level Two manual, RBF record locking).
pub fn locks_refuse_as_requests_are_answered()
    ensures locked { (it : Attempt) → IsAnsweredSo Locked it
        → (it.result ≡ refused E_LOCK) ⊎ ReportsDriveFault it }
    ensures deadlock { (it : Attempt) → IsAnsweredSo Deadlock it
        → (it.result ≡ refused E_DEADLK) ⊎ ReportsDriveFault it }
    ensures locked_alone { (it : Attempt) → it.result ≡ refused E_LOCK
        → DoesAsDevice it ⊎ IsAnsweredSo Locked it }
    ensures deadlock_alone { (it : Attempt) → it.result ≡ refused E_DEADLK
        → DoesAsDevice it ⊎ IsAnsweredSo Deadlock it }
{}

/// An attempt whose request is granted is refused, for want of room or with the fault of a drive, or
/// the request takes effect: the path of a read or of SS.Lock holds the lock, and a write or SS.Size
/// is in the history, or has ended the lock if the size stays. Unless they are refused, I$Close of the
/// last number of a path and SS.Lock of no byte end the lock of their path too.
pub fn granted_requests_take_effect()
    ensures granted { (it : Attempt) (request : Request) (granted : IsGranted (made_in it) request)
        → ((number : ℕ) × (it.result ≡ refused number))
        ⊎ TakesEffect (made_in it) granted.requests.found request it.new.records }
    ensures ended { (it : Attempt) (found : OpenFile) → NamesOpenFile (made_in it) found
        → EndsLock (made_in it) found → ((number : ℕ) × (it.result ≡ refused number))
        ⊎ (it.new.records ≡ without_lock (settled (made_in it)) found.opened.path.0) }
{}

/// The answer to a request is that of a deadlock exactly if the attempt is the first one of its call,
/// the request would wait, and that would close a cycle of waits.
pub fn a_deadlock_is_a_cycle_at_a_first_attempt()
    ensures { (it : Attempt) → length it.files.records.locks.requests ≡ LOCK_PROCESSES
        → IsAnsweredSo Deadlock it ↔ ClosesCycle (made_in it) }
{}

/// An attempt changes of the contents of a file on which a path is open only bytes of a request for
/// it that is granted, whether a drive fails in it or not; a write behind the end also adds those
/// from the old end to its range. Each byte of the file is then the one that was at its place, one of
/// those that the call writes, or a zero behind the old end; only SS.Size cuts bytes off. If no drive
/// fails, this write is in the history then. The request of a call that has waited has to cover what
/// the call changes.
pub fn contents_change_in_the_range_of_a_granted_request()
    ensures { (it : Attempt) (place : FilePlace) → AreKinds it.files → HasPath it.files place
        → IsCovered (made_in it) → ContentsCome (made_in it) place it.new.records
        (ReportsDriveFault it) (contents_of it.files place) (contents_of it.new place) }
{}
