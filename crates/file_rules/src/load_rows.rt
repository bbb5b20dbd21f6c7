ghost use Rattle.std.specs.Prelude.{◌≡◌, Some, Ok, Err, [], ◌∷◌, replicate};
ghost use Rattle.os9_base.specs.declared.errors.TheConstants.{E_KWNMOD, E_BMID};
ghost use Rattle.proc_model.specs.Memory.{free_blocks};
ghost use Rattle.proc_model.specs.ModuleList.{found_module};
ghost use Rattle.proc_model.specs.Processes.{regs_at, cells_at};
ghost use Rattle.file_rules.specs.Load.{Loads};
ghost use Rattle.file_rules.specs.LoadRows.{first_revision, second_revision, linked_memory, newer_loaded, loaded_by_two, found_by_three, given_up};

/// A file with an entered module is refused, and a file with a newer revision is loaded. A file of
/// zeros has no module.
pub fn newer_revisions_are_loaded()
    ensures known { Loads linked_memory first_revision (Err E_KWNMOD) }
    ensures newer { Loads linked_memory second_revision (Ok newer_loaded) }
    ensures empty { Loads linked_memory (replicate 9 0) (Err E_BMID) }
{}

/// The newer module is linked by the name then. The older one stays in its place, and is found
/// again after the newer one is gone.
pub fn newer_revisions_are_linked()
    ensures revision { (regs_at loaded_by_two 2).b ≡ 0x82 }
    ensures past { (regs_at loaded_by_two 2).x ≡ 5 }
    ensures header { cells_at loaded_by_two 2 (regs_at loaded_by_two 2).u ≡ Some 0x87 }
    ensures found { (regs_at found_by_three 3).b ≡ 0x82 }
    ensures shared { free_blocks found_by_three.memory ≡ 4 }
    ensures again { found_module given_up.memory.modules (83 ∷ []) 0 ≡ Some 0 }
    ensures free { free_blocks given_up.memory ≡ 5 }
{}
