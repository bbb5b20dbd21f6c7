ghost use Rattle.std.specs.Vec.{vec_capacity};
ghost use Rattle.block_pool.specs.FreeList.{IsFreeList};
ghost use Rattle.std.specs.Prelude.{◌≡◌, ℕ, ◌+◌, ◌-◌, ◌<◌, ◌≤◌, ◌↔◌, length, replicate, IfOk, IfSome, IfNone, All};

use os9_base::call::OutOfMemory;
use proc_model::group::BlockId;
use std::alloc::{AllocError, Global};
use std::marker::Model;

/// The number of bytes of a block.
pub const BLOCK_LEN: usize = 8192;

/// A block that has fewer references than this may be shared by a group (this project's own).
pub const MOST_SHARED: u16 = 65_000;

/// One region of blocks of 8,192 bytes, each with a count of its references, and a list of the
/// blocks that nothing names.
#[derive(Drop)]
pub struct Pool {
    counts: Vec<u16>,
    blocks: Vec<[u8; BLOCK_LEN]>,
    free: Vec<BlockId>,
}

impl Model for Pool {
    ghost use Rattle.std.specs.Prelude.{◌≤◌, length};
    ghost use Rattle.std.specs.Vec.{vec_capacity};
    ghost use Rattle.block_pool.specs.Blocks.{Blocks, IsPool};

    ghost Value = { Blocks };

    ghost use Rattle.block_pool.specs.FreeList.{IsFreeList};

    ghost view = { λ p. record { counts = p.counts.items; bytes = p.blocks.items } };

    ghost invariant = { λ p. record {
      pool : IsPool (record { counts = p.counts.items; bytes = p.blocks.items });
      free_list : IsFreeList p.counts.items p.free.items;
      room : length p.counts.items ≤ vec_capacity p.free;
    } };
}

impl Pool {
    ghost use Rattle.block_pool.specs.Blocks.{Blocks, IsPool, reference_count, IsLive, is_live, IsFreeBlock, block_bytes, free_block_count, with_block_bytes, pool_after_take, pool_after_share, pool_after_give, overwritten};

    /// A pool of 8 to 256 blocks that nothing names. Only this call takes memory.
    pub fn new(alloc: Global, blocks: u16) -> Result<Pool, OutOfMemory>
        requires least { 8 ≤ blocks }
        requires most { blocks ≤ 256 }
        ensures unnamed { IfOk result (λ pool. pool.counts ≡ replicate blocks 0) }
        ensures shape { IfOk result IsPool }
    {
        let many = blocks as usize;
        Ok(Pool {
            counts: vec![in alloc; 0; many]?,
            blocks: vec![in alloc; [0; BLOCK_LEN]; many]?,
            free: all_blocks(alloc, blocks)?,
        })
    }

    /// Takes a block that nothing names, if there is one. It is then named once, and its bytes are
    /// all zero.
    pub fn take(&mut self) -> Option<BlockId>
        ensures none { IfNone result (All (λ count. 0 < count) self.old.counts) }
        ensures refused { IfNone result (self.new ≡ self.old) }
        ensures was_free { IfSome result (λ id. IsFreeBlock self.old id.0) }
        ensures one_block { IfSome result (λ id. self.new ≡ pool_after_take self.old id.0) }
        ensures shape { IsPool self.new }
    {
        let id = self.free.pop()?;
        let block = id.0 as usize;
        self.counts[block] = 1;
        self.blocks[block].fill(0);
        Some(id)
    }

    /// Names a block once more.
    pub fn share(&mut self, id: BlockId)
        requires live { IsLive self.old id.0 }
        requires countable { reference_count self.old id.0 < 65535 }
        ensures one_count { self.new ≡ pool_after_share self.old id.0 }
        ensures shape { IsPool self.new }
    {
        self.counts[id.0 as usize] += 1;
    }

    /// Names a block once less. A block that nothing names any more is free.
    pub fn give(&mut self, id: BlockId)
        requires { IsLive self.old id.0 }
        ensures one_count { self.new ≡ pool_after_give self.old id.0 }
        ensures shape { IsPool self.new }
    {
        let count = &mut self.counts[id.0 as usize];
        *count -= 1;
        if *count == 0 {
            let _ = self.free.push(id);
        }
    }

    /// The number of references to a block.
    pub fn count(&self, id: BlockId) -> u16
        requires { id.0 < length self.now.counts }
        ensures count { result ≡ reference_count self.now id.0 }
        ensures shape { IsPool self.now }
    {
        self.counts[id.0 as usize]
    }

    /// Is this a block of the pool that something names?
    pub fn is_live(&self, id: BlockId) -> bool
        ensures live { result ≡ is_live self.now id.0 }
        ensures shape { IsPool self.now }
    {
        self.counts
            .get(id.0 as usize)
            .is_some_and(|count| *count > 0)
    }

    /// The number of blocks that nothing names.
    pub fn free_blocks(&self) -> u16
        ensures count { result ≡ free_block_count self.now }
        ensures shape { IsPool self.now }
    {
        self.free.len() as u16
    }

    /// The 8,192 bytes of a block that something names.
    pub fn bytes(&self, id: BlockId) -> &[u8]
        requires { IsLive self.now id.0 }
        ensures bytes { result.now ≡ block_bytes self.now id.0 }
        ensures length { length result.now ≡ 8192 }
        ensures shape { IsPool self.now }
    {
        &self.blocks[id.0 as usize]
    }

    /// Puts these bytes into a block that something names, from its byte `at` on.
    pub fn copy_in(&mut self, id: BlockId, at: u16, from: &[u8])
        requires live { IsLive self.old id.0 }
        requires fits { at + length from.now ≤ 8192 }
        ensures bytes { self.new
            ≡ with_block_bytes self.old id.0 (overwritten (block_bytes self.old id.0) at from.now) }
        ensures shape { IsPool self.new }
    {
        let block = &mut self.blocks[id.0 as usize];
        let start = at as usize;
        block[start..start + from.len()].copy_from_slice(from);
    }
}

// The numbers of `blocks` blocks, in a list without room for more.
fn all_blocks(alloc: Global, blocks: u16) -> Result<Vec<BlockId>, AllocError>
    ensures listed { IfOk result (λ free. IsFreeList (replicate blocks 0) free.items) }
    ensures room { IfOk result (λ free. blocks ≤ vec_capacity free) }
{
    let mut free = Vec::with_capacity(alloc, blocks as usize)?;
    for block in 0..blocks {
        free.push(BlockId(block))?;
    }
    Ok(free)
}
