ghost use Rattle.std.specs.Prelude.{◌≡◌, ◌⊎◌, ◌↔◌, ℕ, ◌+◌, ◌<◌, ◌≤◌, IfOk, length};

use std::alloc::{AllocError, Global};

/// The unread positions, up to a number of positions: a union-find with path halving. Each position
/// that was read leads to a later one, with no unread position between them. Each unread position,
/// and the end, leads to itself.
#[derive(Drop)]
pub struct Unread {
    pub next: Vec<u32>,
}

impl Unread {
    ghost use Rattle.rbf_sector_rules.specs.Unread.{IsOrdered, IsPositionRead};

    /// All of `positions` positions.
    ///
    /// # Errors
    ///
    /// Out of memory.
    pub fn new(alloc: Global, positions: u32) -> Result<Unread, AllocError>
        requires { positions < 4294967295 }
        ensures size { IfOk result (λ unread. length unread.next.items ≡ positions + 1) }
        ensures ordered { IfOk result IsOrdered }
        ensures unread { IfOk result (λ unread. (e : ℕ) → ¬ IsPositionRead unread e) }
    {
        let mut next = Vec::with_capacity(alloc, positions as usize + 1)?;
        for e in 0..positions + 1 {
            next.push_reserved(e);
        }
        Ok(Unread { next })
    }

    /// The first unread position from this one on, or the end. The places on the route are made to
    /// lead closer to it.
    pub fn first(&mut self, from: u32) -> u32
        requires ordered { IsOrdered self.old }
        requires place { from < length self.old.next.items }
        ensures size { length self.new.next.items ≡ length self.old.next.items }
        ensures ordered { IsOrdered self.new }
        ensures same { (e : ℕ) → IsPositionRead self.new e ↔ IsPositionRead self.old e }
        ensures after { from ≤ result }
        ensures within { result < length self.old.next.items }
        ensures read { (e : ℕ) → from ≤ e → e < result → IsPositionRead self.old e }
        ensures unread { ¬ IsPositionRead self.old result }
    {
        let mut e = from;
        while self.next[e as usize] != e {
            let next = self.next[e as usize];
            let later = self.next[next as usize];
            self.next[e as usize] = later;
            e = later;
        }
        e
    }

    /// This position has been read.
    pub fn pass(&mut self, e: u32)
        requires ordered { IsOrdered self.old }
        requires place { e + 1 < length self.old.next.items }
        requires fits { e < 4294967295 }
        ensures size { length self.new.next.items ≡ length self.old.next.items }
        ensures ordered { IsOrdered self.new }
        ensures read { IsPositionRead self.new e }
        ensures kept { (t : ℕ) → IsPositionRead self.old t → IsPositionRead self.new t }
        ensures only { (t : ℕ) → IsPositionRead self.new t → IsPositionRead self.old t ⊎ (t ≡ e) }
    {
        self.next[e as usize] = e + 1;
    }
}
