//! An attempt of a call on paths, files and directories is one of the call on terminals and pipes,
//! or it touches none of them.

ghost use Rattle.std.specs.Prelude.{◌≡◌, ◌⊎◌, ℕ, Bool, false, Some, None, IsSome, List, length};
ghost use Rattle.os9_base.specs.declared.registers.TimePacket.{TimePacket};
ghost use Rattle.os9_outer.specs.TerminalState.{TerminalState};
ghost use Rattle.proc_model.specs.CallResult.{CallResult, refused};
ghost use Rattle.proc_model.specs.Processes.{Processes};
ghost use Rattle.io_model.specs.Attempts.{IoAttempts};
ghost use Rattle.io_model.specs.Codes.{io_call_of};
ghost use Rattle.io_model.specs.Io.{Io, OpenPath, pending_at, open_path};
ghost use Rattle.io_model.specs.Lead.{a_new_place, lead_of, what_is_there};
ghost use Rattle.io_model.specs.PathList.{PathList};
ghost use Rattle.io_model.specs.declared.io_call.IoCall.{IoCall};
ghost use Rattle.file_rules.specs.Attempts.{FileAttempts};
ghost use Rattle.file_rules.specs.Codes.{path_call_of};
ghost use Rattle.file_rules.specs.Files.{Asker, Files, open_file, with_io};
ghost use Rattle.file_rules.specs.Load.{LoadAttempts};
ghost use Rattle.file_rules.specs.Program.{ChainAttempts, ForkAttempts, named_program, tests_program};
ghost use Rattle.file_rules.specs.ProgramFile.{program_file};
ghost use Rattle.file_rules.specs.Step.{drive_of};
ghost use Rattle.file_rules.specs.Route.{to_device, route_of, route_to_new};
ghost use Rattle.file_rules.specs.declared.path_call.PathCall.{PathCall};
ghost use Rattle.file_rules.specs.declared.path_call.PathCall.TheVariants as Call;
ghost use Rattle.file_laws.specs.Attempt.{Attempt, ReportsDriveFault, HasList, IsAsOnDevice, IsOnNumber, IsWithoutFiles, KeepsDevices, KeepsPathTable, OnDevice, TouchesNone, AttemptWaits, WaitsOnRecord, asker_in, made_in, route_to_create, route_to_open};
ghost use Rattle.file_laws.specs.Causes.{FileCause};
ghost use Rattle.file_laws.specs.LoadCauses.{ChainCause, ForkCause, LoadCause};
ghost use Rattle.file_laws.specs.Touch.{FaultAnswers, LeavesFiles};
ghost use Rattle.file_laws.specs.Recorded.{RecordsCome, may_change_locks, settled};
ghost use Rattle.file_laws.specs.Devices.{HasNoFiles, IsDevice, LeadsToDevice, device_call};

/// An attempt of a call on paths, files and directories is an attempt of a call on terminals and
/// pipes, on no file, or of I$Dup or I$Close, which do the same with all paths; or it touches no
/// terminal and no pipe; or it waits for a record of a file (System Programmer's Manual, "I/O service
/// requests"; Level Two manual, RBF record locking).
///
/// If it touches no terminal and no pipe, the position or the ticks of the path that its number names
/// change, or the process has a new path on a file or a directory, or the paths stay. No call of it
/// waits. The directories of processes stay, but for its own in I$ChgDir. The volumes stay, but for
/// that of the drive that it reaches in a call that changes one. If it waits for a record, its
/// request and its call are kept, and all else stays.
pub fn attempts_are_on_a_device_or_touch_none()
    ensures { (it : Attempt) → OnDevice it ⊎ TouchesNone it ⊎ WaitsOnRecord it }
{}

/// An attempt changes the locks of paths in these ways alone, if it changes any. A lock is taken
/// only by a read or SS.Lock whose request is granted: the path holds the bytes requested, or the
/// line that was read, and the history has the bytes that were read of the file. A lock is given up
/// only by a write or SS.Size whose request is granted: the path is left without one, and the
/// history has the bytes that were written. A lock is ended only by I$Close of the last number of
/// its path, SS.Lock of no byte and SS.Size of the present size. No other call changes a lock. A
/// request of the process waits afterwards only if the attempt waits in it (Level Two manual, RBF
/// record locking).
pub fn attempts_change_locks_by_their_requests()
    ensures come { (it : Attempt) → RecordsCome (made_in it) it.new.records }
    ensures others { (it : Attempt)
        → may_change_locks it.call (asker_in it).caller.regs.b ≡ false
        → it.new.records ≡ settled (made_in it) }
{}

/// An attempt that touches no terminal and no pipe leaves each path on its target, and paths on
/// terminals and pipes unchanged. Other processes' path numbers and pending calls, the terminals
/// and the pipes are unchanged (Level Two manual, "I/O system").
pub fn what_touches_no_device_keeps_input_and_output()
    ensures { (it : Attempt) → TouchesNone it → KeepsDevices it }
{}

/// An attempt that touches no terminal and no pipe leaves the table of paths in order: no number is
/// an image of a path that does not exist, and each path in it is held (Level Two manual, "Path
/// descriptors").
pub fn what_touches_no_device_keeps_the_paths_in_order()
    ensures { (it : Attempt) → TouchesNone it → KeepsPathTable it }
{}

/// A call on the number of a path that is not on a file or a directory, for example on a terminal
/// or a pipe, or on a number that names nothing, is the call on terminals and pipes. I$Seek is an
/// exception, since they do not have it (System Programmer's Manual, I$Read, I$Write and I$GetStt).
pub fn numbers_of_devices_are_theirs()
    ensures number { (it : Attempt) (n : ℕ) → IsOnNumber it n
        → open_file it.files it.process n ≡ None → OnDevice it }
    ensures path { (files : Files) (p n : ℕ) (opened : OpenPath)
        → open_path files.io p n ≡ Some opened → IsDevice opened.desc.target
        → open_file files p n ≡ None }
{}

/// An attempt that waits is one of a call on terminals and pipes on the number of a path on one,
/// and leaves the paths unchanged; or it waits for a record of a file. A call on the number of a path
/// on a terminal or a pipe, for example a pending call that is attempted again, is a call on
/// terminals and pipes (Level Two manual, "I/O system").
pub fn calls_that_wait_are_on_devices()
    ensures waits { (it : Attempt) → IsSome (pending_at it.new.io it.process)
        → AttemptWaits it ⊎ WaitsOnRecord it }
    ensures again { (it : Attempt) (n : ℕ) (opened : OpenPath) → IsOnNumber it n
        → open_path it.files.io it.process n ≡ Some opened → IsDevice opened.desc.target
        → OnDevice it }
{}

/// I$Open and I$Create of a path list of a terminal or a pipe are those of terminals and pipes,
/// even if their mode is refused (System Programmer's Manual, I$Open and I$Create).
pub fn lists_to_devices_are_theirs()
    ensures opened { (it : Attempt) (list : PathList) → it.call ≡ Call.Open → HasList it list
        → route_to_open it list ≡ to_device → OnDevice it }
    ensures created { (it : Attempt) (list : PathList) → it.call ≡ Call.Create → HasList it list
        → route_to_create it list ≡ to_device → OnDevice it }
{}

/// If a path list names a terminal or a pipe, it also does so for I$Open and I$Create of terminals
/// and pipes, and is not refused (System Programmer's Manual, I$Open and I$Create).
pub fn lists_lead_to_the_same_devices()
    ensures opened { (asker : Asker) (files : Files) (terms : ℕ) (execute : Bool) (list : PathList)
        → route_of asker files terms execute list ≡ to_device
        → LeadsToDevice (lead_of what_is_there (length files.drives) terms list) }
    ensures created { (asker : Asker) (files : Files) (terms : ℕ) (execute : Bool) (list : PathList)
        → route_to_new asker files terms execute list ≡ to_device
        → LeadsToDevice (lead_of a_new_place (length files.drives) terms list) }
{}

/// A refused call on paths, files and directories is a call on terminals and pipes, on no file, or
/// I$Dup or I$Close; or the drive that it reached failed, and it returns that fault; or its number
/// has a cause. The cause is in the list that it reads, in the walk along it, in the file found
/// there, in the path that its number names, or in the room on the volume (System Programmer's
/// Manual, "I/O service requests").
pub fn refusals_on_files_have_their_causes()
    ensures { (it : Attempt) (number : ℕ) → it.result ≡ refused number
        → OnDevice it ⊎ ReportsDriveFault it ⊎ FileCause (made_in it) number }
{}

/// F$Load, and F$Fork and F$Chain of a program in a file, at most read a drive, and leave paths,
/// pipes, terminals, pending calls, directories and volumes unchanged. If a drive fails, it is that
/// of their path list, and they return its fault. The paths of a child are given to it separately
/// (System Programmer's Manual, F$Load, F$Fork and F$Chain).
pub fn loads_touch_no_device()
    ensures load { (m : Processes) (asker : Asker) (old : Files) (terms p : ℕ) (result : CallResult)
        (new : Files) → LoadAttempts m asker old terms p result new
        → LeavesFiles (drive_of (program_file asker old terms (λ step. step))) old result new }
    ensures fork { (m : Processes) (asker : Asker) (old : Files) (terms p : ℕ) (result : CallResult)
        (new : Files) → ForkAttempts m asker old terms p result new
        → LeavesFiles (drive_of (program_file asker old terms (tests_program m p))) old result new }
    ensures chain { (m : Processes) (asker : Asker) (old : Files) (terms p : ℕ)
        (result : CallResult)
        (new : Files) → ChainAttempts m asker old terms p result new
        → LeavesFiles (drive_of (program_file asker old terms (tests_program m p))) old result new }
{}

/// If F$Load, or F$Fork or F$Chain of a program in a file, is refused, the drive of its path list
/// failed, and it returns that fault; or the number has a cause. The cause is in the list, in the
/// walk along it and in the file found there, as for I$Open with the execution mode, in the modules
/// of the file, in the tests of the call, or in its use of the first module (System Programmer's
/// Manual, F$Load, F$Fork and F$Chain).
pub fn refusals_of_loads_have_their_causes()
    ensures load { (m : Processes) (asker : Asker) (old : Files) (terms p number : ℕ) (new : Files)
        → LoadAttempts m asker old terms p (refused number) new
        → FaultAnswers (drive_of (program_file asker old terms (λ step. step))) old
        (refused number) new ⊎ LoadCause m asker old terms p number }
    ensures fork { (m : Processes) (asker : Asker) (old : Files) (terms p number : ℕ) (new : Files)
        → ForkAttempts m asker old terms p (refused number) new → named_program m p ≡ None
        → FaultAnswers (drive_of (program_file asker old terms (tests_program m p))) old
        (refused number) new ⊎ ForkCause m asker old terms p number }
    ensures chain { (m : Processes) (asker : Asker) (old : Files) (terms p number : ℕ) (new : Files)
        → ChainAttempts m asker old terms p (refused number) new → named_program m p ≡ None
        → FaultAnswers (drive_of (program_file asker old terms (tests_program m p))) old
        (refused number) new ⊎ ChainCause m asker old terms p number }
{}

/// The code of a call on paths, files and directories is the code of the same call on a terminal or
/// a pipe. The code of a call on files only, or of I$Seek, belongs to no call there (System
/// Programmer's Manual, "System calls").
pub fn codes_are_the_same_on_devices()
    ensures coded { (code : ℕ) (call : PathCall) → path_call_of code ≡ Some call
        → io_call_of code ≡ device_call call }
    ensures none { (code : ℕ) → path_call_of code ≡ None → io_call_of code ≡ None }
{}

/// Without a mounted volume, a directory of the process and a request of it, each call that
/// terminals and pipes have has the result of theirs, even if its path list leads nowhere; and
/// each of theirs is one (this project's own).
pub fn without_files_calls_are_those_of_devices()
    ensures attempt { (it : Attempt) → IsWithoutFiles it → IsSome (device_call it.call)
        → IsAsOnDevice it }
    ensures back { (call : PathCall) (device : IoCall) (m : Processes) (files : Files)
        (now : TimePacket) (p : ℕ) (result : CallResult) (io : Io)
        (before after : List TerminalState) → HasNoFiles files p
        → device_call call ≡ Some device
        → IoAttempts device m files.io (length files.drives) p result io before after
        → FileAttempts call m files now p result (with_io files io) before after }
{}
