//! What holds at the start and after every attempt: the targets of paths and the directories of
//! processes exist, and no volume is lost.

ghost use Rattle.std.specs.Prelude.{◌≡◌, ℕ, Some, None, true, false, List};
ghost use Rattle.os9_base.specs.Cells.{Cells};
ghost use Rattle.os9_base.specs.declared.call.CallEnd.{CallEnd};
ghost use Rattle.os9_base.specs.declared.registers.Regs.{Regs};
ghost use Rattle.os9_base.specs.declared.registers.TimePacket.{TimePacket};
ghost use Rattle.os9_outer.specs.TerminalState.{TerminalState};
ghost use Rattle.rbf_model.specs.File.{is_directory};
ghost use Rattle.rbf_model.specs.Volume.{DiskVolume, Vol};
ghost use Rattle.proc_model.specs.CallResult.{CallResult};
ghost use Rattle.proc_model.specs.Processes.{Processes};
ghost use Rattle.io_model.specs.Io.{Io};
ghost use Rattle.io_model.specs.Modes.{can_write};
ghost use Rattle.file_rules.specs.Attempts.{AskerAttempts, FileAttempts};
ghost use Rattle.file_rules.specs.Files.{Files, Asker, DriveState, OpenFile, open_file, volume_at, with_io, with_volume};
ghost use Rattle.file_rules.specs.Load.{LoadAttempts};
ghost use Rattle.file_rules.specs.Locking.{files_interrupted};
ghost use Rattle.file_rules.specs.Processes.{StartsWithImages, files_ended, files_started};
ghost use Rattle.file_rules.specs.Program.{ChainAttempts, ForkAttempts};
ghost use Rattle.file_rules.specs.declared.path_call.PathCall.{PathCall};
ghost use Rattle.file_laws.specs.Kinds.{AreKinds};
ghost use Rattle.file_laws.specs.Mounted.{KeepsMountedDrives};

/// At the start the first process's directories are directories on the volume of D0, and no path is
/// on a file (Level Two manual, "Booting").
pub fn directories_are_there_at_the_start()
    ensures { (images : List (List ℕ)) (drives : List DriveState) (files : Files)
        → StartsWithImages images drives files → AreKinds files }
{}

/// If a process begins or ends, the targets of paths and the directories of processes still exist,
/// and the same drives have volumes (System Programmer's Manual, F$Fork and F$Exit).
pub fn processes_begin_and_end_on_what_is_there()
    ensures begins { (files : Files) (parent child : ℕ) → AreKinds files
        → AreKinds (files_started files parent child) }
    ensures ends { (files : Files) (p : ℕ) → AreKinds files → AreKinds (files_ended files p) }
    ensures begins_mounted { (files : Files) (parent child : ℕ)
        → KeepsMountedDrives files (files_started files parent child) }
    ensures ends_mounted { (files : Files) (p : ℕ)
        → KeepsMountedDrives files (files_ended files p) }
{}

/// The targets of paths and the directories still exist if no path changes, as when a key arrives
/// or a pending call is broken off, and if a volume is mounted in a drive that has none.
pub fn mounts_and_interruptions_keep_what_is_there()
    ensures same { (files : Files) (io : Io) → io.paths ≡ files.io.paths → AreKinds files
        → AreKinds (with_io files io) }
    ensures interrupted { (files : Files) (p : ℕ) → AreKinds files
        → AreKinds (files_interrupted files p) }
    ensures mounted { (files : Files) (drive : ℕ) (image : List ℕ) (v : DiskVolume)
        → AreKinds files → volume_at files drive ≡ None → Vol image v
        → AreKinds (with_volume files drive v) }
{}

/// A path that may be written is on a file, and not on a directory: so I$Write, I$WritLn, F$PErr
/// and SS.Size change no directory (System Programmer's Manual, I$Open and I$Write).
pub fn paths_that_may_be_written_are_on_no_directory()
    ensures { (files : Files) (p n : ℕ) (opened : OpenFile) → AreKinds files
        → open_file files p n ≡ Some opened → can_write opened.opened.desc.mode ≡ true
        → is_directory opened.file ≡ false }
{}

/// After every attempt of a call on paths, files and directories, the targets of paths and the
/// directories of processes exist, whether a drive fails or not. A deleted file has no path on it
/// and is not a directory, a new file takes a number that no file has, and a changed file keeps its
/// kind (System Programmer's Manual, "I/O service requests"). By the state of the processes, and by
/// the caller's registers and bytes.
pub fn attempts_stay_on_what_is_there()
    ensures attempt { (call : PathCall) (m : Processes) (files : Files) (now : TimePacket) (p : ℕ)
        (result : CallResult) (new : Files) (before after : List TerminalState)
        → FileAttempts call m files now p result new before after → AreKinds files
        → AreKinds new }
    ensures asked { (call : PathCall) (asker : Asker) (files : Files) (end : CallEnd) (regs : Regs)
        (cells : Cells) (new : Files) (before after : List TerminalState)
        → AskerAttempts call asker files end regs cells new before after → AreKinds files
        → AreKinds new }
{}

/// After F$Load, and F$Fork and F$Chain of a program in a file, the targets of paths and the
/// directories still exist (System Programmer's Manual, F$Load, F$Fork and F$Chain).
pub fn loads_stay_on_what_is_there()
    ensures load { (m : Processes) (asker : Asker) (old : Files) (terms p : ℕ) (result : CallResult)
        (new : Files) → LoadAttempts m asker old terms p result new → AreKinds old
        → AreKinds new }
    ensures fork { (m : Processes) (asker : Asker) (old : Files) (terms p : ℕ) (result : CallResult)
        (new : Files) → ForkAttempts m asker old terms p result new → AreKinds old
        → AreKinds new }
    ensures chain { (m : Processes) (asker : Asker) (old : Files) (terms p : ℕ)
        (result : CallResult)
        (new : Files) → ChainAttempts m asker old terms p result new → AreKinds old
        → AreKinds new }
{}

/// No attempt loses or mounts a volume, or changes the number of drives or the number of processes
/// that have a place for their directories.
pub fn attempts_lose_no_volume()
    ensures attempt { (call : PathCall) (m : Processes) (files : Files) (now : TimePacket) (p : ℕ)
        (result : CallResult) (new : Files) (before after : List TerminalState)
        → FileAttempts call m files now p result new before after → AreKinds files
        → KeepsMountedDrives files new }
    ensures asked { (call : PathCall) (asker : Asker) (files : Files) (end : CallEnd) (regs : Regs)
        (cells : Cells) (new : Files) (before after : List TerminalState)
        → AskerAttempts call asker files end regs cells new before after → AreKinds files
        → KeepsMountedDrives files new }
{}

/// The same for F$Load, and for F$Fork and F$Chain of a program in a file.
pub fn loads_lose_no_volume()
    ensures load { (m : Processes) (asker : Asker) (old : Files) (terms p : ℕ) (result : CallResult)
        (new : Files) → LoadAttempts m asker old terms p result new → KeepsMountedDrives old new }
    ensures fork { (m : Processes) (asker : Asker) (old : Files) (terms p : ℕ) (result : CallResult)
        (new : Files) → ForkAttempts m asker old terms p result new → KeepsMountedDrives old new }
    ensures chain { (m : Processes) (asker : Asker) (old : Files) (terms p : ℕ)
        (result : CallResult)
        (new : Files) → ChainAttempts m asker old terms p result new → KeepsMountedDrives old new }
{}
