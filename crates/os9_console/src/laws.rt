//! What a record is for.

ghost use Rattle.std.specs.Prelude.{◌≡◌, ℕ, Some};
ghost use Rattle.os9_outer.specs.Host.{HostFiles, file_contents};
ghost use Rattle.os9_words.specs.declared.command.RunWords.{RunWords};
ghost use Rattle.boot_run.specs.Images.{images_of};
ghost use Rattle.boot_run.specs.Machine.{Setup};
ghost use Rattle.boot_run.specs.Setup.{script_of, SetsUpBoot};
ghost use Rattle.console_run.specs.Texts.{GiveSession};
ghost use Rattle.console_run.specs.declared.typed.Typed.{Typed};
ghost use Rattle.os9_console.specs.Call.{SetsUpSession};

/// A boot over the record of a session has its setup. Over files with texts that give the session,
/// with the images that it began with and with four terminals, the boot of its words has the setup
/// of the session.
pub fn a_boot_over_the_record_has_the_setup_of_the_session()
    ensures setup { (old now : HostFiles) (boot : RunWords) (typed : Typed) (setup : Setup)
        → SetsUpSession (Some old) boot typed setup
        → GiveSession typed (script_of now boot) (file_contents now boot.slices)
        → images_of now boot.files ≡ images_of old boot.files → SetsUpBoot now boot 4 setup }
{}
