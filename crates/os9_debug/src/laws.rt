//! Calls of `debug`, as laws over all of them.

ghost use Rattle.os9_outer.specs.Host.{HostFiles};
ghost use Rattle.os9_words.specs.declared.debug_words.DebugWords.{DebugWords};
ghost use Rattle.boot_run.specs.World.{World};
ghost use Rattle.boot_run.specs.declared.status.End.TheVariants.{Ended};
ghost use Rattle.os9_debug.specs.Call.{DebugCall};
ghost use Rattle.os9_debug.specs.OneCourse.{IsFaultlessDebug, ShowsOneCourse};

/// A finished call of `debug` shows the one course of its machine: command by command the state at
/// the position to which the earlier commands have led, forwards or back.
pub fn a_debug_shows_the_one_course()
    ensures { (files : HostFiles) (debug : DebugWords) (before after : World)
        → IsFaultlessDebug files debug before after → DebugCall debug before after Ended
        → ShowsOneCourse files debug before after }
{}
