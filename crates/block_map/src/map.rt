ghost use Rattle.std.specs.Prelude.{◌≡◌, ◌≢◌, ℕ, ◌+◌, ◌-◌, ◌<◌, ◌≤◌, ◌↔◌, length, replicate, IsTrue, IsSome, OnOk, OnErr, IfOk, IfSome, IfNone, All, AllPairs, slice_index_or, None, Some, [], ◌∷◌};
ghost use Rattle.std.specs.Option.{ForSome};
ghost use Rattle.proc_model.specs.declared.group.BlockId.{BlockId};
ghost use Rattle.block_pool.specs.Blocks.{Blocks, IsPool, IsLive, reference_count, free_block_count};
ghost use Rattle.proc_model.specs.Slots.{Slots, filled_places, blocks_in};
ghost use Rattle.block_map.specs.TakenBlocks.{AreNewBlocks, pool_after_sharing, pool_after_giving, NamesLiveBlocks, GainsLow, MayMap, GainsGroup, group_blocks};

use block_pool::pool::{MOST_SHARED, Pool};
use proc_model::group::{BlockId, Group};
use std::marker::Model;
use thiserror::Error;

/// The number of slots of a map.
pub const SLOTS: usize = 8;

/// Why a map cannot name more blocks.
#[derive(Clone, Copy, Debug, PartialEq, Eq, Error)]
pub enum MapFault {
    /// The wanted slots are not free.
    #[error("too few free slots")]
    NoSlot,
    /// The pool has too few free blocks.
    #[error("too few free blocks")]
    NoBlock,
}

/// What a process sees of the pool: eight places, the low area from slot 0 on, and where groups
/// begin. No block is in two places.
#[derive(Drop)]
pub struct Map {
    places: [Option<BlockId>; SLOTS],
    low: u8,
    groups: [Option<u8>; SLOTS],
}

impl Model for Map {
    ghost use Rattle.proc_model.specs.declared.group.BlockId.{BlockId};
    ghost use Rattle.proc_model.specs.Slots.{Slots, IsMap};

    ghost Value = { Slots BlockId };

    ghost view = { λ m. record { places = m.places; low = m.low; groups = m.groups } };

    ghost invariant = { λ m. IsMap (record { places = m.places; low = m.low; groups = m.groups }) };
}

impl Map {
    ghost use Rattle.proc_model.specs.Slots.{IsMap, no_slots, block_at, group_of, NamesBlock, IsFreeRun, IsHighestFreeRun, blocks_between, cut_low_to, with_group, map_without_group};

    /// A map that names nothing.
    pub fn empty() -> Map
        ensures { result ≡ no_slots }
    {
        Map {
            places: [None; SLOTS],
            low: 0,
            groups: [None; SLOTS],
        }
    }

    /// The block in a slot, if there is one.
    pub fn place(&self, slot: u8) -> Option<BlockId>
        requires { slot < 8 }
        ensures place { result ≡ block_at self.now slot }
        ensures shape { IsMap self.now }
    {
        self.places[slot as usize]
    }

    /// The number of slots of the low area.
    pub fn low(&self) -> u8
        ensures { result ≡ self.now.low }
    {
        self.low
    }

    /// Puts `n` new blocks in the slots that follow the low area, which then includes them.
    ///
    /// `NoSlot` if fewer than `n` slots follow or one of them names a block, else `NoBlock` if
    /// fewer than `n` blocks are free. After a refusal nothing has changed.
    pub fn map_low(&mut self, pool: &mut Pool, n: u8) -> Result<(), MapFault>
        requires { NamesLiveBlocks self.old pool.old }

        ensures no_slot { (result ≡ Err MapFault.NoSlot) ↔ (IsFreeRun self.old self.old.low n → ⊥) }
        ensures no_block { (result ≡ Err MapFault.NoBlock)
            ↔ (IsFreeRun self.old self.old.low n × (free_block_count pool.old < n)) }
        ensures refused { OnErr result ((self.new ≡ self.old) × (pool.new ≡ pool.old)) }

        ensures gains { OnOk result (GainsLow n self.old pool.old self.new pool.new) }
        ensures live { NamesLiveBlocks self.new pool.new }
        ensures shape { IsMap self.new }
        ensures pool { IsPool pool.old → IsPool pool.new }
    {
        let first = self.low as usize;
        let len = n as usize;
        if !self.is_free_run(first, len) {
            return Err(MapFault::NoSlot);
        }
        if pool.free_blocks() < u16::from(n) {
            return Err(MapFault::NoBlock);
        }
        name_new(&mut self.places[first..first + len], pool);
        self.low += n;
        Ok(())
    }

    /// Keeps the first `n` slots of the low area, and gives the blocks of its other slots back. A
    /// low area of no more than `n` slots is unchanged.
    pub fn cut_low(&mut self, pool: &mut Pool, n: u8)
        requires { NamesLiveBlocks self.old pool.old }

        ensures whole { self.old.low ≤ n → (self.new ≡ self.old) × (pool.new ≡ pool.old) }
        ensures cut { n < self.old.low → self.new ≡ cut_low_to self.old n }
        ensures given { n < self.old.low
            → pool.new ≡ pool_after_giving pool.old (blocks_between self.old n self.old.low) }
        ensures live { NamesLiveBlocks self.new pool.new }
        ensures shape { IsMap self.new }
        ensures pool { IsPool pool.old → IsPool pool.new }
    {
        if n < self.low {
            give_back(&mut self.places[n as usize..self.low as usize], pool);
            self.low = n;
        }
    }

    /// Names the blocks of a group, in order, in the highest run of free slots of its length.
    /// Returns the first slot of the run.
    ///
    /// `NoSlot` if there is no such run, and nothing has changed then. It never returns `NoBlock`.
    pub fn map_group(&mut self, pool: &mut Pool, g: &Group) -> Result<u8, MapFault>
        requires may { MayMap g.now self.old pool.old }
        requires live { NamesLiveBlocks self.old pool.old }

        ensures no_slot { (result ≡ Err MapFault.NoSlot)
            ↔ ((first : ℕ) → IsFreeRun self.old first g.now.len → ⊥) }
        ensures no_other_fault { result ≢ Err MapFault.NoBlock }
        ensures refused { OnErr result ((self.new ≡ self.old) × (pool.new ≡ pool.old)) }

        ensures mapped { IfOk result (GainsGroup g.now self.old pool.old self.new pool.new) }
        ensures live { NamesLiveBlocks self.new pool.new }
        ensures shape { IsMap self.new }
        ensures pool { IsPool pool.old → IsPool pool.new }
    {
        let len = g.len as usize;
        let Some(slot) = self.highest_free_run(g.len) else {
            return Err(MapFault::NoSlot);
        };
        let first = slot as usize;
        name_shared(&mut self.places[first..first + len], &g.blocks[..len], pool);
        self.groups[first] = Some(g.len);
        Ok(slot)
    }

    /// Gives back the blocks of the group that begins at the slot, and frees its slots.
    pub fn unmap(&mut self, pool: &mut Pool, slot: u8)
        requires begins { IsSome (group_of self.old slot) }
        requires live { NamesLiveBlocks self.old pool.old }

        ensures cut { IfSome (group_of self.old slot) (λ len. self.new
            ≡ map_without_group self.old slot len) }
        ensures given { IfSome (group_of self.old slot)
            (λ len. pool.new
            ≡ pool_after_giving pool.old (blocks_between self.old slot (slot + len))) }
        ensures live { NamesLiveBlocks self.new pool.new }
        ensures shape { IsMap self.new }
        ensures pool { IsPool pool.old → IsPool pool.new }
    {
        let first = slot as usize;
        if let Some(len) = self.groups[first] {
            give_back(&mut self.places[first..first + len as usize], pool);
            self.groups[first] = None;
        }
    }

    /// Gives back every block that the map names. It names nothing then.
    pub fn clear(&mut self, pool: &mut Pool)
        requires { NamesLiveBlocks self.old pool.old }
        ensures empty { self.new ≡ no_slots }
        ensures given { pool.new ≡ pool_after_giving pool.old (blocks_in self.old.places) }
        ensures shape { IsMap self.new }
        ensures pool { IsPool pool.old → IsPool pool.new }
    {
        give_back(&mut self.places, pool);
        *self = Map::empty();
    }

    // Do `len` slots from `first` on exist and name nothing?
    fn is_free_run(&self, first: usize, len: usize) -> bool
        requires { first ≤ 8 }
        ensures { IsTrue result ↔ IsFreeRun self.now first len }
    {
        len <= SLOTS - first && name_nothing(&self.places[first..first + len])
    }

    /// The first slot of the highest run of `len` slots that name nothing; None if there is no such
    /// run.
    pub fn highest_free_run(&self, len: u8) -> Option<u8>
        requires { 1 ≤ len }
        ensures none { IfNone result ((first : ℕ) → IsFreeRun self.now first len → ⊥) }
        ensures highest { IfSome result (IsHighestFreeRun self.now len) }
    {
        for first in (0..SLOTS as u8).rev() {
            if self.is_free_run(first as usize, len as usize) {
                return Some(first);
            }
        }
        None
    }
}

// Names a new block in each of these places.
fn name_new(places: &mut [Option<BlockId>], pool: &mut Pool)
    requires { length places.old ≤ free_block_count pool.old }
    ensures { AreNewBlocks places.new pool.old pool.new }
{
    for place in places.iter_mut() {
        *place = pool.take();
    }
}

// Names these blocks once more, in these places.
fn name_shared(places: &mut [Option<BlockId>], blocks: &[BlockId], pool: &mut Pool)
    requires as_many { length places.old ≡ length blocks.now }
    requires few { length blocks.now ≤ 7 }
    requires live { All (λ id. IsLive pool.old id.0) blocks.now }
    requires countable { All (λ id. reference_count pool.old id.0 < MOST_SHARED) blocks.now }
    ensures named { places.new ≡ filled_places blocks.now }
    ensures shared { pool.new ≡ pool_after_sharing pool.old blocks.now }
    ensures pool { IsPool pool.old → IsPool pool.new }
{
    for (k, id) in blocks.iter().enumerate() {
        pool.share(*id);
        places[k] = Some(*id);
    }
}

// Gives back what these places name, and clears them.
fn give_back(places: &mut [Option<BlockId>], pool: &mut Pool)
    requires live { (k : ℕ) (id : BlockId) → slice_index_or places.old k None ≡ Some id
        → IsLive pool.old id.0 }
    requires once { (k other : ℕ) (id : BlockId) → slice_index_or places.old k None ≡ Some id
        → slice_index_or places.old other None ≡ Some id → k ≡ other }
    ensures cleared { places.new ≡ replicate (length places.old) None }
    ensures given { pool.new ≡ pool_after_giving pool.old (blocks_in places.old) }
    ensures pool { IsPool pool.old → IsPool pool.new }
{
    for place in places.iter_mut() {
        give_place(place, pool);
    }
}

// Gives back what a place names, and clears it.
fn give_place(place: &mut Option<BlockId>, pool: &mut Pool)
    requires { ForSome place.old (λ id. IsLive pool.old id.0) }
    ensures cleared { place.new ≡ None }
    ensures given { pool.new ≡ pool_after_giving pool.old (blocks_in (place.old ∷ [])) }
{
    if let Some(id) = place.take() {
        pool.give(id);
    }
}

// Do all of these places name nothing?
fn name_nothing(places: &[Option<BlockId>]) -> bool
    ensures { IsTrue result
        ↔ ((k : ℕ) → k < length places.now → slice_index_or places.now k None ≡ None) }
{
    places.iter().all(|place| place.is_none())
}
