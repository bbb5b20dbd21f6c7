//! Entered modules, with the blocks that hold their file.

ghost use Rattle.std.specs.Prelude.{◌≡◌, ◌+◌, ◌*◌, ◌<◌, ◌≤◌, ◌∷◌, [], None, Some, IfOk, IsSome, IsSomeAnd, length};
ghost use Rattle.block_map.specs.TakenBlocks.{group_blocks};
ghost use Rattle.block_pool.specs.Blocks.{IsPool, free_block_count};
ghost use Rattle.proc_model.specs.Group.{group_block_numbers};
ghost use Rattle.proc_model.specs.Loading.{entry_refusal};
ghost use Rattle.proc_model.specs.Memory.{MemoryState};
ghost use Rattle.proc_model.specs.MemoryChanges.{entered, entered_beside};
ghost use Rattle.proc_model.specs.ModuleList.{module_entry_at, free_number, new_entry, with_module_entry};
ghost use Rattle.proc_model.specs.Objects.{file_block, file_blocks};
ghost use Rattle.guest_memory.specs.Gains.{GainsBlocks, IsFileInBlocks};
ghost use Rattle.guest_memory.specs.Tie.{RepresentsMemory, ReturnsMemoryResult, modules_of};

use crate::memory::Memory;
use block_pool::pool::{BLOCK_LEN, Pool};
use module_dir::Dir;
use os9_base::limits::MOST_GROUP_BYTES;
use proc_model::group::{BlockId, Group};
use proc_model::memory::MemoryFault;
use proc_model::module::{ModId, ModuleInfo};

impl Memory {
    /// Loads the file of a module into new blocks, fills the last one with zeros, and enters the
    /// module (F$Load). The file has at most 57,344 bytes, the module lies in it, its entry lies in
    /// the module, and the directory does not know the module and has room for it.
    ///
    /// # Errors
    ///
    /// `NoRam` exactly if fewer blocks are free than the file needs. Nothing has changed then.
    pub fn enter(
        &mut self,
        file: &[u8],
        info: ModuleInfo,
        is_boot: bool,
    ) -> Result<ModId, MemoryFault>
        requires some { 0 < length file.now }
        requires short { length file.now ≤ MOST_GROUP_BYTES }
        requires inside { info.at + info.size ≤ length file.now }
        requires runs { info.entry < info.size }
        requires accepted { entry_refusal (modules_of self.old) info ≡ None }
        ensures enters { (m : MemoryState) → RepresentsMemory self.old m
            → ReturnsMemoryResult (entered m file.now info is_boot) m result self.new }
        ensures number { IfOk result (λ id. free_number (modules_of self.old) ≡ Some id.0) }
    {
        if usize::from(self.pool.free_blocks()) < file.len().div_ceil(BLOCK_LEN) {
            return Err(MemoryFault::NoRam);
        }
        let group = load_group(&mut self.pool, file);
        Ok(enter_module(&mut self.dir, info, group, is_boot))
    }

    /// Enters one more module of the file of an entered module (F$Load). It lies in the file, its
    /// entry lies in the module, and the directory does not know it and has room for it.
    pub fn enter_beside(&mut self, id: ModId, info: ModuleInfo) -> ModId
        requires entered { IsSome (module_entry_at (modules_of self.old) id.0) }
        requires inside { IsSomeAnd (module_entry_at (modules_of self.old) id.0)
            (λ entry. info.at + info.size ≤ 8192 * length entry.group) }
        requires runs { info.entry < info.size }
        requires accepted { entry_refusal (modules_of self.old) info ≡ None }
        ensures enters { (m : MemoryState) → RepresentsMemory self.old m
            → RepresentsMemory self.new (entered_beside m id.0 info) }
        ensures number { free_number (modules_of self.old) ≡ Some result.0 }
    {
        let group = self.dir.group(id);
        let is_boot = self.dir.is_boot(id);
        enter_module(&mut self.dir, info, group, is_boot)
    }
}

/// Enters a module. The directory does not know it and has room for it.
fn enter_module(dir: &mut Dir, info: ModuleInfo, group: Group, is_boot: bool) -> ModId
    requires { entry_refusal dir.old info ≡ None }
    ensures number { free_number dir.old ≡ Some result.0 }
    ensures list { dir.new
        ≡ with_module_entry dir.old result.0 (new_entry info (group_block_numbers group)
        is_boot) }
{
    match dir.enter(info, group, is_boot) {
        Ok(id) => id,
        Err(_) => unreachable!(),
    }
}

/// Takes blocks for a file, copies it there and fills the last one with zeros: a group.
fn load_group(pool: &mut Pool, file: &[u8]) -> Group
    requires short { length file.now ≤ MOST_GROUP_BYTES }
    requires room { file_blocks file.now ≤ free_block_count pool.old }
    requires shape { IsPool pool.old }
    ensures loaded { IsFileInBlocks file.now pool.old (group_blocks result) pool.new }
    ensures room { free_block_count pool.new + file_blocks file.now ≡ free_block_count pool.old }
    ensures blocks { result.len ≡ file_blocks file.now }
    ensures shape { IsPool pool.new }
{
    let mut ids = [BlockId(0); 7];
    let mut len = 0;
    for part in file.chunks(BLOCK_LEN) {
        ids[len] = load_block(pool, part);
        len += 1;
    }
    Group {
        blocks: ids,
        len: len as u8,
    }
}

/// Takes a block for these bytes, copies them there and fills the rest with zeros.
fn load_block(pool: &mut Pool, bytes: &[u8]) -> BlockId
    requires short { length bytes.now ≤ 8192 }
    requires room { 0 < free_block_count pool.old }
    ensures loaded { GainsBlocks pool.old (result ∷ []) (file_block bytes.now 0 ∷ []) pool.new }
    ensures room { free_block_count pool.new + 1 ≡ free_block_count pool.old }
    ensures shape { IsPool pool.new }
{
    let id = pool.take().unwrap();
    pool.copy_in(id, 0, bytes);
    id
}
