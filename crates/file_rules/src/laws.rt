ghost use Rattle.std.specs.Prelude.{◌≡◌, ℕ, List, []};
ghost use Rattle.os9_outer.specs.TerminalState.{TerminalState};
ghost use Rattle.io_model.specs.Step.{fails};
ghost use Rattle.file_rules.specs.Files.{Files, Asker};
ghost use Rattle.file_rules.specs.Step.{FileEffect, FileStep, refused, IsBroken, FileDoes};

/// A fault of a drive ends a call with a number, and leaves paths, positions, pipes, terminals and
/// directories unchanged; nothing is stored.
pub fn faults_keep_all_but_a_volume()
    ensures end { (step : FileStep) (asker : Asker) (files : Files) (effect : FileEffect)
        → (broken : IsBroken step asker files effect) → effect.end ≡ fails broken.number }
    ensures io { (step : FileStep) (asker : Asker) (files : Files) (effect : FileEffect)
        → IsBroken step asker files effect → effect.files.io ≡ files.io }
    ensures directories { (step : FileStep) (asker : Asker) (files : Files) (effect : FileEffect)
        → IsBroken step asker files effect → effect.files.directories ≡ files.directories }
    ensures bytes { (step : FileStep) (asker : Asker) (files : Files) (effect : FileEffect)
        → IsBroken step asker files effect → effect.bytes ≡ [] }
{}

/// A call that is refused before it reaches a drive ends with that number, and leaves volumes,
/// paths, directories and terminals unchanged.
pub fn refusals_change_nothing()
    ensures end { (number : ℕ) (asker : Asker) (files : Files) (effect : FileEffect)
        (before after : List TerminalState)
        → FileDoes (refused number) asker files effect before after → effect.end ≡ fails number }
    ensures io { (number : ℕ) (asker : Asker) (files : Files) (effect : FileEffect)
        (before after : List TerminalState)
        → FileDoes (refused number) asker files effect before after → effect.files.io ≡ files.io }
    ensures volumes { (number : ℕ) (asker : Asker) (files : Files) (effect : FileEffect)
        (before after : List TerminalState)
        → FileDoes (refused number) asker files effect before after
        → effect.files.volumes ≡ files.volumes }
{}
