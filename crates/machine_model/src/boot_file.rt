//! The start of a boot file, as laws over all of them.

ghost use Rattle.std.specs.Prelude.{◌≡◌, ◌⊎◌, ℕ, List};
ghost use Rattle.proc_model.specs.Processes.{Processes};
ghost use Rattle.machine_model.specs.declared.ends.BootFault.{BootFault};
ghost use Rattle.machine_model.specs.ProcessStart.{StartsProcesses, RefusesBoot};

/// A boot file has one outcome: it starts a machine with these processes, or it is refused for one
/// cause, and never both.
pub fn a_boot_file_comes_to_one_end()
    ensures one_start { (file : List ℕ) (blocks : ℕ) (m n : Processes)
        → StartsProcesses file blocks m
        → StartsProcesses file blocks n → m ≡ n }
    ensures one_cause { (file : List ℕ) (blocks : ℕ) (fault other : BootFault)
        → RefusesBoot file blocks fault → RefusesBoot file blocks other → fault ≡ other }
    ensures never_both { (file : List ℕ) (blocks : ℕ) (m : Processes) (fault : BootFault)
        → StartsProcesses file blocks m → RefusesBoot file blocks fault → ⊥ }
    ensures some_end { (file : List ℕ) (blocks : ℕ)
        → ((m : Processes) × StartsProcesses file blocks m)
        ⊎ ((fault : BootFault) × RefusesBoot file blocks fault) }
{}
