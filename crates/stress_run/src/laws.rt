//! The effect of an accepted boot file, and of the boot file of a load.

ghost use Rattle.std.specs.Prelude.{ℕ, List};
ghost use Rattle.proc_model.specs.Processes.{Processes};
ghost use Rattle.machine_model.specs.declared.ends.BootFault.{BootFault};
ghost use Rattle.machine_model.specs.ProcessStart.{RefusesBoot, StartsProcesses};
ghost use Rattle.guest_mods.specs.declared.load.Load.{Load};
ghost use Rattle.guest_mods.specs.Accepted.{IsBootableFile};
ghost use Rattle.guest_mods.specs.Stress.{IsLoad, stress_file};

/// An accepted boot file starts the processes of a machine of this number of blocks, and so it is
/// not refused.
pub fn accepted_files_start()
    ensures starts { (file : List ℕ) (blocks : ℕ)
        → IsBootableFile file blocks → (m : Processes) × StartsProcesses file blocks m }
    ensures no_refusal { (file : List ℕ) (blocks : ℕ) (fault : BootFault)
        → IsBootableFile file blocks → ¬ RefusesBoot file blocks fault }
{}

/// The boot file of every load starts a machine of 64 blocks, and is not refused.
pub fn loads_start()
    ensures starts { (load : Load)
        → IsLoad load → (m : Processes) × StartsProcesses (stress_file load) 64 m }
    ensures no_refusal { (load : Load) (fault : BootFault)
        → IsLoad load → ¬ RefusesBoot (stress_file load) 64 fault }
{}
