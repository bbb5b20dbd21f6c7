//! The start of the machine, as laws over all boot files and images.

ghost use Rattle.std.specs.Prelude.{◌≡◌, ◌⊎◌, ℕ, List};
ghost use Rattle.std.specs.List.{AllZip};
ghost use Rattle.machine_model.specs.ProcessStart.{RefusesBoot};
ghost use Rattle.machine_model.specs.declared.ends.BootFault.{BootFault};
ghost use Rattle.rbf_model.specs.Volume.{DiskVolume, Vol};
ghost use Rattle.machine_model.specs.Start.{Boot, Starts};
ghost use Rattle.machine_model.specs.State.{State};

/// A boot file on well-formed images has one outcome: it starts the machine in one state, or it is
/// refused for one cause, and never both.
pub fn a_boot_comes_to_one_end()
    ensures one_start { (boot : Boot) (s t : State) → Starts boot s → Starts boot t → s ≡ t }
    ensures never_both { (boot : Boot) (s : State) (fault : BootFault)
        → Starts boot s → RefusesBoot boot.file boot.blocks fault → ⊥ }
    ensures some_end { (boot : Boot) (volumes : List DiskVolume)
        → AllZip Vol boot.images volumes
        → ((s : State) × Starts boot s)
        ⊎ ((fault : BootFault) × RefusesBoot boot.file boot.blocks fault) }
{}
