//! Conflicts of a requested lock with held ones.

ghost use Rattle.std.specs.Prelude.{◌≡◌, true};
ghost use Rattle.std.specs.List.{list_any};
ghost use Rattle.lock_model.specs.Conflict as model;
ghost use Rattle.lock_model.specs.Conflict.{is_opposed_by, overlaps};

use lock_model::lock::{Held, Range};

/// Does a requested lock conflict with a held one?
pub(crate) fn conflicts(held: &[Option<Held>], asked: Held) -> bool
    ensures { result ≡ list_any (is_opposed_by asked (λ owner. true)) held.now }
{
    held.iter().any(|place| is_in_the_way(place, asked))
}

/// Does a requested lock conflict with the lock of this place?
fn is_in_the_way(place: &Option<Held>, asked: Held) -> bool
    ensures { result ≡ is_opposed_by asked (λ owner. true) place.now }
{
    match place {
        None => false,
        Some(lock) => is_against(asked, *lock),
    }
}

/// Does a requested lock conflict with this held one: is it for bytes of the same file that another
/// process holds?
pub(crate) fn is_against(asked: Held, lock: Held) -> bool
    ensures { result ≡ model.is_against asked lock }
{
    lock.owner != asked.owner && (asked.file == lock.file && overlap(asked.range, lock.range))
}

/// Do two ranges have a byte in common?
fn overlap(a: Range, b: Range) -> bool
    ensures { result ≡ overlaps a b }
{
    let later = a.start.max(b.start);
    is_before(later, a.end) && is_before(later, b.end)
}

/// Is a byte before an end, if there is one?
fn is_before(byte: u32, end: Option<u32>) -> bool
    ensures { result ≡ model.is_before byte end }
{
    match end {
        None => true,
        Some(end) => byte < end,
    }
}
