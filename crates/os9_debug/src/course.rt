//! The course of a machine without disk images, as laws over all of them.

ghost use Rattle.std.specs.Prelude.{◌≡◌, ℕ, ◌<◌, ◌≤◌, List, [], length, true};
ghost use Rattle.time_rules.specs.CivilTime.{is_time_packet};
ghost use Rattle.machine_model.specs.Start.{Boot, Starts};
ghost use Rattle.machine_model.specs.State.{State};
ghost use Rattle.run_laws.specs.Faults.{CanRise};
ghost use Rattle.os9_debug.specs.Course.{Course};
ghost use Rattle.os9_debug.specs.Prints.{IsCourse};

/// A machine without disk images goes through the same states in each run over the same slices in
/// which no device fails, so a debugger shows only one thing at a position. There is such a run
/// from each start with one to four terminals whose counts of faults can rise.
pub fn a_machine_without_images_has_one_course()
    ensures one { (boot : Boot) (slices : List ℕ) (one other : Course) → boot.images ≡ []
        → IsCourse boot slices one → IsCourse boot slices other → one ≡ other }
    ensures some { (boot : Boot) (slices : List ℕ) (s : State) → boot.images ≡ [] → Starts boot s
        → 0 < length boot.terms → length boot.terms ≤ 4 → is_time_packet boot.time ≡ true
        → CanRise s → (course : Course) × (course.start ≡ s) × IsCourse boot slices course }
{}
