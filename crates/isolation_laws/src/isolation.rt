//! Isolation: what an event of a process leaves unchanged for the others.

ghost use Rattle.std.specs.Prelude.{◌≡◌, ℕ, Some};
ghost use Rattle.proc_model.specs.Processes.{Processes, cells_at, regs_at};
ghost use Rattle.machine_model.specs.declared.ends.EventEnd.{EventEnd};
ghost use Rattle.machine_model.specs.ProcessEvent.{next_instruction};
ghost use Rattle.isolation_laws.specs.InputOutput.{LeavesIo};
ghost use Rattle.isolation_laws.specs.Isolation.{LeavesOthers};
ghost use Rattle.isolation_laws.specs.Volumes.{LeavesVolumes};
ghost use Rattle.machine_model.specs.Event.{Event};
ghost use Rattle.machine_model.specs.State.{State};

/// An event of a process, whether an instruction, an attempt of a call or the delivery of a signal,
/// leaves the bytes of each object that the map of the process does not name. Its map gains only
/// new objects and those of entered modules. If the process loads a file of modules that it may
/// execute, the first new objects hold that file, block by block, with zeros after its end; all
/// other new ones hold zeros and parameters that the process gives a program. Every other process
/// keeps its map, its registers and everything else, except what F$Send and F$SPrior change of the
/// process that they name, the end of its parent, and a module that leaves; F$Wait removes an ended
/// child. Modules are entered by a loaded file, and leave only with their last link; the links that
/// change are those of the module that the call names, of the first module of the loaded file, and
/// of the primary module that F$Chain or the end of the process gives up. The effect of an
/// instruction depends only on the registers and the bytes that its process sees.
pub fn an_event_leaves_what_it_does_not_name()
    ensures event { (s t : State) (end : EventEnd) (p : ℕ) → s.chosen ≡ Some p → Event s end t
        → LeavesOthers s p end t }
    ensures instruction { (m n : Processes) (p q : ℕ)
        → ((at : ℕ) → cells_at m p at ≡ cells_at n q at)
        → regs_at m p ≡ regs_at n q → next_instruction m p ≡ next_instruction n q }
{}

/// Of input and output every other process keeps its path numbers, the paths that they name, and
/// its pending call; F$Fork gives a child the standard paths and the directories of its parent. The
/// position and the ticks of a path on a file change only by a call of a process on the same path.
/// A terminal keeps the unfinished read of another process, unless a write to it fails. The volume
/// of at most one drive changes, by a call that changes volumes and reaches that drive. No drive
/// fails but the one that the process reaches in an attempt of its call, so none in an instruction.
/// Only F$STime sets the clock.
pub fn an_event_leaves_the_input_and_output_of_the_others()
    ensures io { (s t : State) (end : EventEnd) (p : ℕ) → s.chosen ≡ Some p → Event s end t
        → LeavesIo s p t }
    ensures volumes { (s t : State) (end : EventEnd) (p : ℕ) → s.chosen ≡ Some p → Event s end t
        → LeavesVolumes s p t }
{}
