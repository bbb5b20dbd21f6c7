//! Sessions, as laws over all of them.

ghost use Rattle.std.specs.Prelude.{Ok, All, List};
ghost use Rattle.boot_run.specs.World.{World};
ghost use Rattle.os9_debug.specs.declared.command.Command.{Command};
ghost use Rattle.os9_debug.specs.Devices.{Unfailed};
ghost use Rattle.os9_debug.specs.Machine.{CanStart, HasNoBytes};
ghost use Rattle.os9_debug.specs.Session.{CanFail, DebugSessionCall, ShowsTheCourse};
ghost use Rattle.os9_debug.specs.declared.machine.Machine.{Machine};

/// A finished session shows the one course of its machine: command by command, whether the position
/// was reached forwards or back. No bytes may be on the terminals before, and no count of faults
/// may rise, though each could.
pub fn a_session_shows_the_one_course()
    ensures { (machine : Machine) (commands : List Command) (before after : World)
        → CanStart machine before.devices
        → DebugSessionCall machine commands (Ok (tt {0})) before after
        → All HasNoBytes before.devices.terms → Unfailed before.devices after.devices
        → CanFail machine before.devices → ShowsTheCourse machine commands before after }
{}
