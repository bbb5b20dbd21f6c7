ghost use Rattle.std.specs.Prelude.{◌≡◌, ◌+◌, ◌/◌, ◌%◌, ◌<◌, ◌≤◌, ◌↔◌, IsTrue, IfSome, IfNone, OnSome, length};
ghost use Rattle.std.specs.Bool.{OnTrue, OnFalse};
ghost use Rattle.os9_base.specs.Cells.{HoldsBytes, FitsIn, store_cells};
ghost use Rattle.block_map.specs.TakenBlocks.{NamesLiveBlocks};

use crate::map::Map;
use block_pool::pool::{BLOCK_LEN, Pool};
use os9_base::memory::{Bus, UserMem};
use proc_model::group::BlockId;

/// The bytes that a process sees: those of the blocks that its map names, each of which is live.
#[derive(Drop)]
pub struct View<'a> {
    pub map: &'a Map,
    pub pool: &'a mut Pool,
    ghost live: { NamesLiveBlocks map.now pool.now },
}

impl Bus for View<'_> {
    ghost use Rattle.block_map.specs.Window.{map_cells, IsSlotLive};
    ghost use Rattle.block_map.specs.Beside.{SameBeside, SameBeside-self, SameBeside-then};

    ghost cells = { λ view. map_cells view.map.now view.pool.now };

    ghost same_beside = { SameBeside };

    ghost same_beside_self = { SameBeside-self };

    ghost same_beside_then = { SameBeside-then };

    fn slice_from(&self, at: u16) -> &[u8]
        ensures fits { at + length result.now ≤ 65536 }
        ensures bytes { HoldsBytes (map_cells self.now.map.now self.now.pool.now) at result.now }
        ensures whole { IsSlotLive self.now.map.now self.now.pool.now (at / 8192)
            → at % 8192 + length result.now ≡ 8192 }
    {
        match self.map.place(slot_of(at)) {
            Some(id) => &self.pool.bytes(id)[offset_in_block(at) as usize..],
            None => &[],
        }
    }

    fn read(&self, at: u16) -> Option<u8> {
        self.slice_from(at).first().copied()
    }

    fn put(&mut self, at: u16, byte: u8) {
        if let Some(id) = self.map.place(slot_of(at)) {
            self.pool.copy_in(id, offset_in_block(at), &[byte]);
        }
    }

    fn store_slice(&mut self, at: u16, from: &[u8]) -> bool
        ensures fits { OnTrue result (FitsIn (map_cells self.old.map.now self.old.pool.now) at
            (length from.now)) }
        ensures stored { OnTrue result (map_cells self.new.map.now self.new.pool.now
            ≡ store_cells (map_cells self.old.map.now self.old.pool.now) at from.now) }
        ensures left { OnFalse result (map_cells self.new.map.now self.new.pool.now
            ≡ map_cells self.old.map.now self.old.pool.now) }
        ensures beside { SameBeside self.old self.new }
        ensures always { IsTrue result ↔ (IsSlotLive self.old.map.now self.old.pool.now (at / 8192)
            × (at % 8192 + length from.now ≤ 8192)) }
    {
        let offset = offset_in_block(at);
        let Some(id) = self.map.place(slot_of(at)) else {
            return false;
        };
        if offset as usize + from.len() > self.pool.bytes(id).len() {
            return false;
        }
        self.pool.copy_in(id, offset, from);
        true
    }
}

impl Map {
    /// The bytes that a process with this map sees in the pool.
    pub fn view<'a>(&'a self, pool: &'a mut Pool) -> View<'a>
        requires { NamesLiveBlocks self.now pool.old }
        ensures map { result.map ≡ self.entry }
        ensures bytes { result.pool.now ≡ pool.old }
        ensures pool { result.pool.ghost_name ≡ pool.entry.ghost_name }
    {
        View { map: self, pool }
    }
}

impl UserMem for View<'_> {
    ghost use Rattle.block_map.specs.Window.{map_cells};
    ghost use Rattle.block_map.specs.Beside.{SameBeside, SameBeside-self, SameBeside-then};

    ghost cells = { λ view. map_cells view.map.now view.pool.now };

    ghost same_beside = { SameBeside };

    ghost same_beside_self = { SameBeside-self };

    ghost same_beside_then = { SameBeside-then };

    fn fits(&self, at: u16, len: u16) -> bool {
        len == 0
            || u32::from(at) + u32::from(len) <= 0x1_0000
                && self.are_slots_live(slot_of(at), slot_of(at + (len - 1)))
    }

    fn load(&self, at: u16, into: &mut [u8]) {
        let mut done = 0;
        'pieces: while done < into.len() {
            let bytes = self.slice_from(at + done as u16);
            let count = bytes.len().min(into.len() - done);
            into[done..done + count].copy_from_slice(&bytes[..count]);
            done += count;
        }
    }

    fn store(&mut self, at: u16, from: &[u8]) {
        let mut done = 0;
        'pieces: while done < from.len() {
            let start = at + done as u16;
            let count = piece_len(start, from.len() - done);
            self.store_slice(start, &from[done..done + count]);
            done += count;
        }
    }
}

impl View<'_> {
    ghost use Rattle.proc_model.specs.Slots.{IsMap, block_at};
    ghost use Rattle.block_pool.specs.Blocks.{IsPool, IsLive};
    ghost use Rattle.block_map.specs.Window.{IsSlotLive, AllSlotsLive};

    // The block in a slot, if it is live.
    fn block_in(&self, slot: u8) -> Option<BlockId>
        requires { slot < 8 }
        ensures some { IfSome result (λ id. block_at self.now.map.now slot ≡ Some id) }
        ensures live { IfSome result (λ id. IsLive self.now.pool.now id.0) }
        ensures none { IfNone result (IsSlotLive self.now.map.now self.now.pool.now slot → ⊥) }
        ensures shape { OnSome result (IsMap self.now.map.now × IsPool self.now.pool.now) }
    {
        let id = self.map.place(slot)?;
        if self.pool.is_live(id) {
            Some(id)
        } else {
            None
        }
    }

    // Does each slot from `first` to `last` name a live block?
    fn are_slots_live(&self, first: u8, last: u8) -> bool
        requires { last < 8 }
        ensures live { IsTrue result ↔ AllSlotsLive self.now.map.now self.now.pool.now first last }
        ensures shape { OnTrue result (first ≤ last → IsPool self.now.pool.now) }
    {
        for slot in first..=last {
            if self.block_in(slot).is_none() {
                return false;
            }
        }
        true
    }
}

// The slot of an address.
fn slot_of(at: u16) -> u8
    ensures { result ≡ at / 8192 }
{
    (at / 8192) as u8
}

// How many of `most` bytes from an address on lie in its slot.
fn piece_len(at: u16, most: usize) -> usize
    ensures slot { at % 8192 + result ≤ 8192 }
    ensures few { result ≤ most }
    ensures some { 0 < most → 0 < result }
{
    most.min(BLOCK_LEN - offset_in_block(at) as usize)
}

// The place of an address in the block of its slot.
fn offset_in_block(at: u16) -> u16
    ensures { result ≡ at % 8192 }
{
    at % 8192
}
