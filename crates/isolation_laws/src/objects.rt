//! New objects of memory.

ghost use Rattle.std.specs.Prelude.{◌≡◌, ℕ, Some};
ghost use Rattle.machine_model.specs.declared.ends.EventEnd.{EventEnd};
ghost use Rattle.machine_model.specs.Event.{Event};
ghost use Rattle.machine_model.specs.State.{State};
ghost use Rattle.isolation_laws.specs.NewBytes.{HoldNewObjects};

/// The objects that appear in an event of a process hold zeros, with two exceptions. If the process
/// loads a file of modules that it may execute, they begin with the blocks of that file, in order.
/// If it starts a program, of the module that the bytes at X name or of the first one of the file,
/// the others are its data area, in order, with its parameters at the end: the Y bytes at U. They
/// are only zeros if the number of the new process is past the maps of memory.
pub fn new_objects_hold_a_file_zeros_and_parameters()
    ensures event { (s t : State) (end : EventEnd) (p : ℕ) → s.chosen ≡ Some p → Event s end t
        → HoldNewObjects s p t.processes.memory.objects }
{}
