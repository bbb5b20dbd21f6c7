ghost use Rattle.std.specs.Prelude.{◌≡◌, ◌≤◌, IfOk, replicate};
ghost use Rattle.proc_model.specs.Memory.{first_memory};
ghost use Rattle.proc_model.specs.Slots.{no_slots};
ghost use Rattle.guest_memory.specs.Tie.{RepresentsMemory};

use crate::memory::Memory;
use block_map::map::Map;
use block_pool::pool::Pool;
use module_dir::Dir;
use os9_base::call::OutOfMemory;
use os9_base::limits::PROCESS_PLACES;
use std::alloc::{AllocError, Global};

impl Memory {
    /// The memory of a machine with 8 to 256 blocks, without named slots and entered modules. Only
    /// this call takes memory.
    pub fn new(alloc: Global, blocks: u16) -> Result<Memory, OutOfMemory>
        requires least { 8 ≤ blocks }
        requires most { blocks ≤ 256 }
        ensures { IfOk result (λ memory. RepresentsMemory memory (first_memory blocks)) }
    {
        Ok(Memory {
            pool: Pool::new(alloc, blocks)?,
            dir: Dir::new(alloc)?,
            maps: empty_maps(alloc)?,
        })
    }
}

/// For each process number a map that names nothing.
fn empty_maps(alloc: Global) -> Result<Vec<Map>, AllocError>
    ensures { IfOk result (λ maps. maps.items ≡ replicate 33 no_slots) }
{
    let mut maps = Vec::with_capacity(alloc, PROCESS_PLACES as usize)?;
    'fill: while maps.len() < PROCESS_PLACES as usize {
        maps.push(Map::empty())?;
    }
    Ok(maps)
}
