//! What a refused call leaves unchanged, and its causes, as laws over every attempt and every
//! event.

ghost use Rattle.std.specs.Prelude.{◌≡◌, ◌≢◌, ℕ};
ghost use Rattle.os9_base.specs.declared.errors.TheConstants.{E_EOF, E_WRITE};
ghost use Rattle.proc_model.specs.Attempts.{after_attempt};
ghost use Rattle.proc_model.specs.CallResult.{refused};
ghost use Rattle.proc_model.specs.Processes.{Processes};
ghost use Rattle.io_model.specs.Step.{Caller};
ghost use Rattle.io_model.specs.declared.io_call.IoCall.{IoCall};
ghost use Rattle.file_laws.specs.Kinds.{AreKinds};
ghost use Rattle.file_rules.specs.Files.{Files};
ghost use Rattle.machine_model.specs.declared.ends.EventEnd.TheVariants.{Ran};
ghost use Rattle.machine_model.specs.Event.{Event};
ghost use Rattle.machine_model.specs.State.{State};
ghost use Rattle.call_laws.specs.CallCauses.{IsOnLostFile};
ghost use Rattle.call_laws.specs.RefusedEvents.{IsAttemptRefused, LeavesMachine};
ghost use Rattle.call_laws.specs.Refusals.{HasCause, KeepsAll, LeavesAtEnd, LeavesAtFault, LeavesProcesses, RefusedAttempt};

/// A refused call leaves memory and the processes unchanged, except B and the condition codes of
/// the caller, whose call is over. A refused call on paths also leaves input and output and the
/// terminals unchanged, except the pending call, which is removed. There are four
/// exceptions, each exactly as in its definition. After 211 of a terminal the keys up to and
/// including `1B` are used; after 245 of a read of a terminal those up to the one whose echo
/// failed; after 245 of a write to a terminal a part of its bytes is out, and the unfinished read
/// there is dropped; after 245 of a pipe the moved bytes stay there.
pub fn refusals_change_nothing()
    ensures processes { (m : Processes) (p number : ℕ)
        → LeavesProcesses m p number (after_attempt m p (refused number)) }
    ensures input_and_output { (it : RefusedAttempt) → it.number ≢ E_EOF → it.number ≢ E_WRITE
        → KeepsAll it }
    ensures end_of_file { (it : RefusedAttempt) → it.number ≡ E_EOF → LeavesAtEnd it }
    ensures write_error { (it : RefusedAttempt) → it.number ≡ E_WRITE → LeavesAtFault it }
{}

/// Each number of a refused call on paths has only its own cause: 211 and 245 as in
/// `refusals_change_nothing`, and any other as its definition says.
pub fn refusals_have_their_causes()
    ensures { (it : RefusedAttempt) → it.number ≢ E_EOF → it.number ≢ E_WRITE → HasCause it }
{}

/// An attempt of any call that is refused is an event of the machine. It leaves the clock
/// unchanged, and memory and the processes except B and the condition codes of the caller, whose
/// call is over; and its number has its cause. A refused call on a terminal or a pipe leaves
/// everything else unchanged but what 211 and 245 leave there. One on a file or a directory leaves
/// paths, pipes, terminals, directories and volumes unchanged. If the drive that it reached failed,
/// its number is that of the fault, and the volume of that drive is one that the definition of the
/// call lets a fault leave; it is the same volume if the call changes none. A refused load, or
/// start of a program in a file, leaves everything else unchanged but what the drive that it
/// reached counts.
pub fn refused_events_change_nothing()
    ensures event { (s t : State) (code number : ℕ) → IsAttemptRefused s code number t
        → Event s Ran t }
    ensures machine { (s t : State) (code number : ℕ) → (it : IsAttemptRefused s code number t)
        → LeavesMachine s it.process code number t }
{}

/// If each path is on something that exists, as in every state of a run, no read or write is
/// refused because the file of its path does not exist.
pub fn no_file_is_lost()
    ensures { (call : IoCall) (caller : Caller) (files : Files) → AreKinds files
        → IsOnLostFile call caller files → ⊥ }
{}
