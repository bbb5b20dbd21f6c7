ghost use Rattle.std.specs.Prelude.{◌≡◌, ℕ, ◌+◌, Bool, true, IfSome, IfNone, List, Some, [], ◌∷◌, ◌++◌, replicate};
ghost use Rattle.proc_model.specs.Turns.{choose, IsToChoose, NobodyReady, choices, after_choices, age_in, two_turns, two_priorities};

use os9_base::registers::Pid;

/// A process in the order of choice, with its age (Level Two manual, process scheduling).
#[derive(Clone, Copy, Debug, PartialEq, Eq)]
pub struct Turn {
    pub process: Pid,
    pub age: u8,
}

/// A priority of one process with which another of priority 1 is seldom chosen.
pub const HIGH_PRIORITY: u8 = 200;

/// The chosen process is Ready, no Ready process is older, and each one that was chosen longer ago
/// is younger. Nobody is chosen only if nobody is Ready.
pub fn the_eldest_is_chosen()
    ensures chosen { (is_ready : ℕ → Bool) (priority : ℕ → ℕ) (order : List Turn) →
        IfSome (choose is_ready priority order).chosen (IsToChoose is_ready order) }
    ensures nobody { (is_ready : ℕ → Bool) (priority : ℕ → ℕ) (order : List Turn) →
        IfNone (choose is_ready priority order).chosen (NobodyReady is_ready order) }
{}

/// Processes 2 and 3 are Ready all the time. Process 3 is chosen as soon as its age has grown to
/// the priority of process 2, since it was chosen longer ago; then it begins anew.
pub fn low_priority_comes_in_its_turn()
    ensures every_fourth { choices (λ p. true) (two_priorities 5 2) 8 (two_turns 5 2)
        ≡ (replicate 3 (Some (record { 0 = 2 })) ++ (Some (record { 0 = 3 }) ∷ []))
        ++ (replicate 3 (Some (record { 0 = 2 })) ++ (Some (record { 0 = 3 }) ∷ [])) }
    ensures two_hundredth { choices (λ p. true) (two_priorities HIGH_PRIORITY 1) 300
        (two_turns HIGH_PRIORITY 1)
        ≡ replicate 199 (Some (record { 0 = 2 }))
        ++ (Some (record { 0 = 3 }) ∷ replicate 100 (Some (record { 0 = 2 }))) }
    ensures older_then { age_in (after_choices (λ p. true) (two_priorities HIGH_PRIORITY 1)
        HIGH_PRIORITY (two_turns HIGH_PRIORITY 1)) 2 ≡ Some (HIGH_PRIORITY + 1) }
{}
