//! The blocks that nothing names.

ghost use Rattle.std.specs.Prelude.{◌≡◌, Option, List};
ghost use Rattle.block_pool.specs.Blocks.{Blocks, free_block_count};
ghost use Rattle.proc_model.specs.declared.group.BlockId.{BlockId};
ghost use Rattle.proc_model.specs.Memory.{MemoryState, free_blocks};
ghost use Rattle.proc_model.specs.ModuleList.{ModuleEntry};
ghost use Rattle.proc_model.specs.Slots.{Slots};
ghost use Rattle.guest_memory.specs.Memory.{RepresentMemory};
ghost use Rattle.guest_memory.specs.Sound.{IsSoundMemory};

/// The number of the machine's blocks less the living objects is the number of blocks that no map
/// and no entered group names. So a change of memory is refused exactly if there are too few
/// blocks.
pub fn free_blocks_are_those_that_nothing_names()
    ensures { (pool : Blocks) (maps : List (Slots BlockId)) (entries : List (Option ModuleEntry))
        (m : MemoryState)
        → IsSoundMemory pool maps entries → RepresentMemory pool maps entries m
        → free_blocks m ≡ free_block_count pool }
{}
