//! Words with the commands that they spell, as laws that the check computes from the definitions.

ghost use Rattle.std.specs.Prelude.{◌≡◌, [], ◌∷◌, Some, None, codes, option_map};
ghost use Rattle.time_rules.specs.CivilRows.{at};
ghost use Rattle.os9_words.specs.Command.{boot_words_with, command_of, run_with, with_history};
ghost use Rattle.os9_words.specs.Debug.{debug_with};
ghost use Rattle.os9_words.specs.Run.{run_words_with};
ghost use Rattle.os9_words.specs.declared.command.Command.TheVariants.{Asm, Boot, Debug, Stress};

/// Command lines with both forms of an option, in any order.
pub fn runs_are_read()
    ensures one_word { command_of (codes "run" ∷ codes "h" ∷ codes "--slices=s" ∷ [])
        ≡ run_with (Some (codes "h")) None (Some (codes "s")) (Some 64)
        (Some (at 90 1 1 0 0 0)) }
    ensures options_first { command_of (codes "run" ∷ codes "--blocks" ∷ codes "8"
        ∷ codes "--slices=-s" ∷ codes "--" ∷ codes "-h" ∷ [])
        ≡ run_with (Some (codes "-h")) None (Some (codes "-s")) (Some 8)
        (Some (at 90 1 1 0 0 0)) }
{}

/// Command lines of a run with a script.
pub fn scripts_are_read()
    ensures script_last { command_of (codes "run" ∷ codes "h" ∷ codes "--slices" ∷ codes "s"
        ∷ codes "--script" ∷ codes "t" ∷ [])
        ≡ run_with (Some (codes "h")) (Some (codes "t")) (Some (codes "s")) (Some 64)
        (Some (at 90 1 1 0 0 0)) }
    ensures script_first { command_of (codes "run" ∷ codes "--script=-t" ∷ codes "--slices=s"
        ∷ codes "h" ∷ [])
        ≡ run_with (Some (codes "h")) (Some (codes "-t")) (Some (codes "s")) (Some 64)
        (Some (at 90 1 1 0 0 0)) }
{}

/// Command lines of a boot: the images in their order; a name may occur twice.
pub fn boots_are_read()
    ensures one_image { command_of (codes "boot" ∷ codes "a" ∷ codes "--script=t"
        ∷ codes "--slices=s" ∷ [])
        ≡ option_map Boot (boot_words_with (codes "a" ∷ []) (Some (codes "t"))
        (Some (codes "s")) (Some 64) (Some (at 90 1 1 0 0 0))) }
    ensures some_images { command_of (codes "boot" ∷ codes "b" ∷ codes "--slices=s" ∷ codes "a"
        ∷ codes "--script" ∷ codes "t" ∷ codes "b" ∷ codes "--blocks=8" ∷ [])
        ≡ option_map Boot (boot_words_with (codes "b" ∷ codes "a" ∷ codes "b" ∷ [])
        (Some (codes "t")) (Some (codes "s")) (Some 8) (Some (at 90 1 1 0 0 0))) }
{}

/// A command line of a boot with a history.
pub fn histories_are_read()
    ensures history { command_of (codes "boot" ∷ codes "a" ∷ codes "--history" ∷ codes "h"
        ∷ codes "--script=t" ∷ codes "--slices=s" ∷ [])
        ≡ option_map (λ boot. Boot (with_history boot (Some (codes "h"))))
        (boot_words_with (codes "a" ∷ []) (Some (codes "t")) (Some (codes "s")) (Some 64)
        (Some (at 90 1 1 0 0 0))) }
{}

/// Words of a boot without a script, without an image, and with one image too many, and of a run
/// with a history.
pub fn boots_are_refused()
    ensures no_script { command_of (codes "boot" ∷ codes "a" ∷ codes "--slices=s" ∷ []) ≡ None }
    ensures no_image { command_of (codes "boot" ∷ codes "--script=t" ∷ codes "--slices=s" ∷ [])
        ≡ None }
    ensures run_with_history { command_of (codes "run" ∷ codes "m" ∷ codes "--slices=s"
        ∷ codes "--history=h" ∷ []) ≡ None }
    ensures five_images { command_of (codes "boot" ∷ codes "a" ∷ codes "b" ∷ codes "c" ∷ codes "d"
        ∷ codes "e" ∷ codes "--script=t" ∷ codes "--slices=s" ∷ []) ≡ None }
{}

/// Command lines with a time at the start.
pub fn times_are_read()
    ensures two_words { command_of (codes "run" ∷ codes "h" ∷ codes "--slices=s"
        ∷ codes "--time" ∷ codes "2000-02-29T23:59:59" ∷ [])
        ≡ run_with (Some (codes "h")) None (Some (codes "s")) (Some 64)
        (Some (at 100 2 29 23 59 59)) }
    ensures one_word { command_of (codes "boot" ∷ codes "--time=2155-12-31T23:59:59" ∷ codes "a"
        ∷ codes "--script=t" ∷ codes "--slices=s" ∷ [])
        ≡ option_map Boot (boot_words_with (codes "a" ∷ []) (Some (codes "t"))
        (Some (codes "s")) (Some 64) (Some (at 255 12 31 23 59 59))) }
    ensures no_leap_day { command_of (codes "run" ∷ codes "h" ∷ codes "--slices=s"
        ∷ codes "--time=1900-02-29T00:00:00" ∷ []) ≡ None }
    ensures day_alone { command_of (codes "run" ∷ codes "h" ∷ codes "--slices=s"
        ∷ codes "--time=1990-01-01" ∷ []) ≡ None }
{}

/// Command lines of a stress, and the least number that is not a seed.
pub fn stresses_are_read()
    ensures least { command_of (codes "stress" ∷ codes "0" ∷ []) ≡ Some (Stress 0) }
    ensures most { command_of (codes "stress" ∷ codes "2147483647" ∷ [])
        ≡ Some (Stress 2147483647) }
    ensures behind_dashes { command_of (codes "stress" ∷ codes "--" ∷ codes "0001" ∷ [])
        ≡ Some (Stress 1) }
    ensures too_large { command_of (codes "stress" ∷ codes "2147483648" ∷ []) ≡ None }
    ensures no_number { command_of (codes "stress" ∷ []) ≡ None }
    ensures with_an_option { command_of (codes "stress" ∷ codes "1" ∷ codes "--blocks=8" ∷ [])
        ≡ None }
{}

/// Command lines of an assembly: a source and a file for the module, and no other word.
pub fn assemblies_are_read()
    ensures two_files { command_of (codes "asm" ∷ codes "s" ∷ codes "m" ∷ [])
        ≡ Some (Asm (record { source = codes "s"; out = codes "m" })) }
    ensures behind_dashes { command_of (codes "asm" ∷ codes "--" ∷ codes "-s" ∷ codes "-m" ∷ [])
        ≡ Some (Asm (record { source = codes "-s"; out = codes "-m" })) }
    ensures one_file { command_of (codes "asm" ∷ codes "s" ∷ []) ≡ None }
    ensures three_files { command_of (codes "asm" ∷ codes "s" ∷ codes "m" ∷ codes "n" ∷ [])
        ≡ None }
    ensures with_an_option { command_of (codes "asm" ∷ codes "s" ∷ codes "m"
        ∷ codes "--time=1990-01-01T00:00:00" ∷ []) ≡ None }
{}

/// Command lines of a debugger: those of a run, and a file of commands.
pub fn sessions_are_read()
    ensures no_script { command_of (codes "debug" ∷ codes "h" ∷ codes "--slices=s"
        ∷ codes "--commands" ∷ codes "c" ∷ []) ≡ option_map Debug (debug_with
        (run_words_with (Some (codes "h")) None (Some (codes "s")) (Some 64)
        (Some (at 90 1 1 0 0 0))) (Some (codes "c"))) }
    ensures all { command_of (codes "debug" ∷ codes "--commands=-c" ∷ codes "--blocks=8"
        ∷ codes "--script=t" ∷ codes "h" ∷ codes "--slices=s" ∷ []) ≡ option_map Debug (debug_with
        (run_words_with (Some (codes "h")) (Some (codes "t")) (Some (codes "s")) (Some 8)
        (Some (at 90 1 1 0 0 0))) (Some (codes "-c"))) }
{}

/// Words that are not a command line of a debugger, and those of a run with a file of commands.
pub fn sessions_are_refused()
    ensures no_commands { command_of (codes "debug" ∷ codes "h" ∷ codes "--slices=s" ∷ [])
        ≡ None }
    ensures few_blocks { command_of (codes "debug" ∷ codes "h" ∷ codes "--slices=s"
        ∷ codes "--commands=c" ∷ codes "--blocks=7" ∷ []) ≡ None }
    ensures of_a_run { command_of (codes "run" ∷ codes "h" ∷ codes "--slices=s"
        ∷ codes "--commands=c" ∷ []) ≡ None }
{}

/// Words that are not a command line.
pub fn words_are_refused()
    ensures no_words { command_of [] ≡ None }
    ensures twice { command_of (codes "run" ∷ codes "h" ∷ codes "--slices=s" ∷ codes "--script=t"
        ∷ codes "--script=t" ∷ []) ≡ None }
    ensures two_files { command_of (codes "run" ∷ codes "h" ∷ codes "i" ∷ codes "--slices=s" ∷ [])
        ≡ None }
    ensures no_slices { command_of (codes "run" ∷ codes "h" ∷ codes "--script=t" ∷ []) ≡ None }
    ensures no_value { command_of (codes "run" ∷ codes "h" ∷ codes "--slices=s" ∷ codes "--script"
        ∷ []) ≡ None }
    ensures dashed_value { command_of (codes "run" ∷ codes "h" ∷ codes "--slices=s"
        ∷ codes "--script" ∷ codes "-t" ∷ []) ≡ None }
    ensures other_option { command_of (codes "check" ∷ codes "--script=t" ∷ codes "e" ∷ [])
        ≡ None }
{}
