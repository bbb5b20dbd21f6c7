//! Calls in which nothing failed, as laws over all of them.

ghost use Rattle.std.specs.Prelude.{◌≡◌, ℕ, List, Some, All, length};
ghost use Rattle.os9_base.specs.Count.{Rose};
ghost use Rattle.os9_outer.specs.Host.{HostFiles};
ghost use Rattle.os9_words.specs.Command.{command_of};
ghost use Rattle.os9_words.specs.Notes.{Notes};
ghost use Rattle.os9_words.specs.declared.command.Command.{Command};
ghost use Rattle.os9_words.specs.declared.command.Command.TheVariants.{Boot, Debug};
ghost use Rattle.os9_words.specs.declared.command.RunWords.{RunWords};
ghost use Rattle.os9_words.specs.declared.debug_words.DebugWords.{DebugWords};
ghost use Rattle.boot_run.specs.Console.{IsObserved};
ghost use Rattle.boot_run.specs.World.{World};
ghost use Rattle.boot_run.specs.End.{status_number};
ghost use Rattle.boot_run.specs.declared.status.End.{End};
ghost use Rattle.boot_run.specs.declared.status.End.TheVariants.{Ended, TerminalFailed};
ghost use Rattle.os9_debug.specs.Counts.{TerminalRose};
ghost use Rattle.os9_debug.specs.OneCourse.{IsFaultlessDebug, ShowsOneCourse};
ghost use Rattle.os9_boot.specs.Commands.{CommandCall};
ghost use Rattle.os9_boot.specs.Completeness.{IsNoFault, NoneRose, TellsNoFault};
ghost use Rattle.os9_boot.specs.Headline.{BootIsOneRun, AcceptsRun, WritesByStatus};
ghost use Rattle.os9_boot.specs.History.{output_names, outputs_of};
ghost use Rattle.os9_boot.specs.TopCall.{TopCall};

/// A call in which no count of faults rose, neither the host's nor a drive's, ends as the words,
/// the files and the run decide, or because memory is out: with 0 or 5, and all was done; with 1,
/// and the words are not a command; with 6, 7, 8, 10 or 11 and their cause; with 12, if a terminal
/// failed; or with 4.
pub fn calls_without_faults_tell_none()
    ensures end { (command : Command) (before after : World) (end : End)
        → CommandCall command before after end → NoneRose before after → TellsNoFault end }
    ensures status { (words : List (List ℕ)) (before after : World)
        (noted notes : Notes) (status : ℕ)
        → TopCall words before after noted notes status → NoneRose before after
        → IsNoFault status }
{}

/// The headline: a boot whose texts, images and boot file are accepted, on a host with observed
/// files that did not fail, over terminals with observed bytes, is one run of the machine; or
/// memory was out, or a drive with an image failed and nothing of a run can be seen.
pub fn a_boot_is_one_run()
    ensures { (words : List (List ℕ)) (boot : RunWords) (files : HostFiles) (before after : World)
        (noted notes : Notes) (status : ℕ)
        → command_of words ≡ Some (Boot boot)
        → TopCall words before after noted notes status
        → before.files ≡ Some files → All IsObserved before.devices.terms
        → AcceptsRun files boot (length before.devices.terms) → ¬ Rose before.faults after.faults
        → BootIsOneRun files boot before after status }
{}

/// The files that a boot writes, on any host, files and terminals observed or not: with status 0 or
/// 5 each image once, in the order of the words, then the history if a file is named for it, and no
/// other file; with 3 and 4 the first of these, each once; with any other none.
pub fn a_boot_writes_its_images_once()
    ensures { (words : List (List ℕ)) (boot : RunWords) (before after : World)
        (noted notes : Notes) (status : ℕ)
        → command_of words ≡ Some (Boot boot)
        → TopCall words before after noted notes status
        → WritesByStatus (output_names (outputs_of boot)) status noted notes }
{}

/// A `debug` with status 0, over observed files, in which no count of faults rose and before which
/// no bytes were on a terminal, has shown the one run of its machine: command by command the state
/// at the position to which the earlier commands have led, forwards or back.
pub fn a_debug_shows_one_run()
    ensures { (words : List (List ℕ)) (debug : DebugWords) (files : HostFiles)
        (before after : World) (noted notes : Notes) (status : ℕ) → command_of words
        ≡ Some (Debug debug) → TopCall words before after noted notes status → status
        ≡ status_number Ended → IsFaultlessDebug files debug before after
        → ShowsOneCourse files debug before after }
{}

/// A call reports a failed terminal only if that terminal's count of faults rose, and its status is
/// that of such an end only if one did.
pub fn a_terminal_is_told_only_if_it_failed()
    ensures end { (command : Command) (before after : World) (n : ℕ)
        → CommandCall command before after (TerminalFailed n)
        → TerminalRose n before.devices after.devices }
    ensures status { (words : List (List ℕ)) (before after : World)
        (noted notes : Notes) (status n : ℕ)
        → TopCall words before after noted notes status → status ≡ status_number (TerminalFailed n)
        → (number : ℕ) × TerminalRose number before.devices after.devices }
{}
