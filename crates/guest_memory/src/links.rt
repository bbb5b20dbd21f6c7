ghost use Rattle.std.specs.Prelude.{◌≡◌, ◌≢◌, ℕ, ◌<◌, is_some, IsSome, IsSomeAnd, All, AllPairs};
ghost use Rattle.block_map.specs.TakenBlocks.{group_blocks, pool_after_giving};
ghost use Rattle.block_pool.specs.Blocks.{IsPool, IsLive};
ghost use Rattle.proc_model.specs.Memory.{MemoryState};
ghost use Rattle.proc_model.specs.MemoryChanges.{linked, unlinked, is_group_leaving};
ghost use Rattle.proc_model.specs.ModuleList.{module_entry_at};
ghost use Rattle.guest_memory.specs.Tie.{RepresentsMemory, modules_of};

use crate::memory::Memory;
use block_pool::pool::Pool;
use module_dir::Dir;
use proc_model::group::Group;
use proc_model::module::ModId;

impl Memory {
    /// The module directory.
    pub fn modules(&self) -> &Dir
        ensures { result.now ≡ modules_of self.now }
    {
        &self.dir
    }

    /// Counts one more link of an entered module, which has fewer than 65,535 (F$Link).
    pub fn link(&mut self, id: ModId)
        requires { IsSomeAnd (module_entry_at (modules_of self.old) id.0)
            (λ entry. entry.links < 65535) }
        ensures links { (m : MemoryState) → RepresentsMemory self.old m
            → RepresentsMemory self.new (linked m id.0) }
        ensures entered { (number : ℕ) → is_some (module_entry_at (modules_of self.new) number)
            ≡ is_some (module_entry_at (modules_of self.old) number) }
    {
        self.dir.link(id);
    }

    /// Gives up one link of an entered module, if it has one (F$UnLink, F$UnLoad). Returns whether
    /// its group leaves with it. If so, the entries of the group are removed, and each of its
    /// blocks is freed when no map names it either.
    pub fn unlink(&mut self, id: ModId) -> bool
        requires { IsSome (module_entry_at (modules_of self.old) id.0) }
        ensures less { (m : MemoryState) → RepresentsMemory self.old m
            → RepresentsMemory self.new (unlinked m id.0) }
        ensures leaves { (m : MemoryState) → RepresentsMemory self.old m
            → result ≡ is_group_leaving m id.0 }
    {
        match self.dir.unlink(id) {
            Some(group) => {
                give_group(&mut self.pool, &group);
                true
            }
            None => false,
        }
    }
}

/// Gives back one reference to each block of a group.
fn give_group(pool: &mut Pool, group: &Group)
    requires live { All (λ id. IsLive pool.old id.0) (group_blocks group.now) }
    requires different { AllPairs (λ a b. a ≢ b) (group_blocks group.now) }
    ensures given { pool.new ≡ pool_after_giving pool.old (group_blocks group.now) }
    ensures shape { IsPool pool.old → IsPool pool.new }
{
    for id in group.blocks[..group.len as usize].iter() {
        pool.give(*id);
    }
}
