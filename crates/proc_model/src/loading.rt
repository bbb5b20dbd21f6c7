//! The modules of a file, as a law over all files.

ghost use Rattle.std.specs.Prelude.{◌≡◌, ℕ, Bool, Option, Result, List};
ghost use Rattle.proc_model.specs.ModuleList.{ModuleEntry};
ghost use Rattle.proc_model.specs.Loading.{EntersModules};

/// Entering the modules of a file, from any place on and into any list of entries, has exactly one
/// outcome: the list of entries, or the first refused module, with its place and its error.
pub fn modules_are_entered_in_one_way()
    ensures one_outcome { (file group : List ℕ) (is_boot : Bool) (from : ℕ)
        (entries : List (Option ModuleEntry))
        (one other : Result (List (Option ModuleEntry)) (ℕ × ℕ)) →
        EntersModules file group is_boot from entries one
        → EntersModules file group is_boot from entries other → one ≡ other }
    ensures some_outcome { (file group : List ℕ) (is_boot : Bool) (from : ℕ)
        (entries : List (Option ModuleEntry)) →
        (outcome : Result (List (Option ModuleEntry)) (ℕ × ℕ))
        × EntersModules file group is_boot from entries outcome }
{}
