//! Whom to look at again after an event and after a tick, and whose paths there are, as laws of the
//! machine.

ghost use Rattle.std.specs.Prelude.{◌≡◌, ◌≢◌, ◌⊎◌, ℕ, Some, List};
ghost use Rattle.os9_sched.specs.declared.member.Cause.{Cause};
ghost use Rattle.machine_model.specs.declared.ends.EventEnd.{EventEnd};
ghost use Rattle.machine_model.specs.declared.ends.SliceEnd.{SliceEnd};
ghost use Rattle.file_rules.specs.Locking.{files_may_go};
ghost use Rattle.io_model.specs.Path.{ArePaths};
ghost use Rattle.io_model.specs.declared.pending.PendingCall.{PendingCall};
ghost use Rattle.io_model.specs.Io.{pending_at};
ghost use Rattle.machine_model.specs.Event.{Event};
ghost use Rattle.machine_model.specs.Run.{Choose, Run, Slice, Tick};
ghost use Rattle.machine_model.specs.Start.{Boot, Starts};
ghost use Rattle.machine_model.specs.State.{State};
ghost use Rattle.lock_laws.specs.Living.{AllRunOpen, AreOfLiving, IsRunOpen};
ghost use Rattle.lock_laws.specs.Touches.{cause_of, TerminalGainsKeys, MayGo, TicksAreOver, Touches, HasWaitCause};

/// A process has at most sixteen path numbers, and one that does not live has no path: at the
/// start, and after each event, each tick and each choice. So it is in every state of a run (Level
/// Two manual, "Path descriptors").
pub fn only_living_processes_have_paths()
    ensures start { (boot : Boot) (s : State) → Starts boot s → AreOfLiving s }
    ensures event { (s t : State) (end : EventEnd) → Event s end t → AreOfLiving s → AreOfLiving t }
    ensures tick { (s t : State) → Tick s t → AreOfLiving s → AreOfLiving t }
    ensures choice { (s t : State) → Choose s t → AreOfLiving s → AreOfLiving t }
    ensures slice { (n : ℕ) (s t : State) (states : List State) (end : SliceEnd)
        → Slice n s states end t → IsRunOpen s → AllRunOpen states t }
    ensures run { (slices written : List ℕ) (s t : State) (states : List State)
        → Run slices s states written t → IsRunOpen s → AllRunOpen states t }
{}

/// Each process that waits in a call on a path waits for a key of a terminal, for bytes or room of a
/// pipe, or for a record of a file. After an event of another process it waits for the same, if the
/// table of paths was in order. In each tick the call may go on exactly if it might before, unless
/// the event was on what it waits for. A tick lets it go on only if keys arrive at the terminal for
/// which it waits, or if its ticks are over. Calls that wait for a child or a tick are seen by the
/// processes alone (Level Two manual, process scheduling).
pub fn calls_go_on_by_what_they_wait_for()
    ensures cause { (s : State) (q : ℕ) (pending : PendingCall) → IsRunOpen s
        → pending_at s.files.io q ≡ Some pending → (cause : Cause) × HasWaitCause s q cause }
    ensures waits { (s t : State) (end : EventEnd) (p q : ℕ) → IsRunOpen s
        → ArePaths s.files.io.paths → Event s end t → s.chosen ≡ Some p → q ≢ p
        → cause_of t q ≡ cause_of s q }
    ensures event { (s t : State) (end : EventEnd) (p q tick : ℕ) (cause : Cause) → IsRunOpen s
        → Event s end t → s.chosen ≡ Some p → q ≢ p → HasWaitCause s q cause
        → (Touches s p t cause → ⊥)
        → files_may_go t.files tick q ≡ files_may_go s.files tick q }
    ensures tick { (s t : State) (q : ℕ) (cause : Cause) → IsRunOpen s → Tick s t
        → HasWaitCause s q cause → MayGo t q
        → MayGo s q ⊎ (TerminalGainsKeys s t cause ⊎ TicksAreOver t q) }
{}
