//! The search for a cycle of waits.

ghost use Rattle.std.specs.Prelude.{◌≡◌, ◌==◌, ◌||◌, ◌<◌, ℕ, false, None, [], ◌∷◌, length, slice_index_or};
ghost use Rattle.std.specs.List.{list_any};
ghost use Rattle.lock_model.specs.Conflict.{is_opposed_by};
ghost use Rattle.lock_model.specs.Waits as model;
ghost use Rattle.lock_model.specs.Waits.{leads_within, waits_by, waits_for_one};
ghost use Rattle.lock_model.specs.declared.lock.TheConstants.{LOCK_PROCESSES};

use crate::conflict::is_against;
use lock_model::lock::{Held, LOCK_PROCESSES, Request};
use os9_base::registers::Pid;

/// Would waiting for this lock close a cycle of waits?
pub(crate) fn closes(held: &[Option<Held>], requests: &[Option<Request>], asked: Held) -> bool
    requires { length requests.now ≡ LOCK_PROCESSES }
    ensures { result ≡ model.closes (record { held = held.now; requests = requests.now }) asked }
{
    let leading = leading_to(held, requests, asked.owner);
    is_one_in_the_way(held, asked, &leading)
}

/// Does the lock conflict with one of a marked process?
fn is_one_in_the_way(held: &[Option<Held>], asked: Held, leading: &[bool; LOCK_PROCESSES]) -> bool
    ensures { result ≡ list_any
        (is_opposed_by asked (λ next. slice_index_or leading.now next false)) held.now }
{
    held.iter().any(|place| is_opposed(place, asked, leading))
}

/// Marks the processes from which a chain of waits leads to this one.
fn leading_to(held: &[Option<Held>], requests: &[Option<Request>], p: Pid) -> [bool; LOCK_PROCESSES]
    requires { length requests.now ≡ LOCK_PROCESSES }
    ensures { (q : ℕ) → slice_index_or result q false
        ≡ leads_within (record { held = held.now; requests = requests.now }) LOCK_PROCESSES q p.0 }
{
    let mut leading = [false; LOCK_PROCESSES];
    let mut waits = 0;
    while waits < LOCK_PROCESSES {
        leading = one_wait_more(held, requests, p, &leading);
        waits += 1;
    }
    leading
}

/// Marks the processes that wait for this one, or for a marked one.
fn one_wait_more(
    held: &[Option<Held>],
    requests: &[Option<Request>],
    p: Pid,
    leading: &[bool; LOCK_PROCESSES],
) -> [bool; LOCK_PROCESSES]
    requires { length requests.now ≡ LOCK_PROCESSES }
    ensures { (q : ℕ) → slice_index_or result q false
        ≡ waits_for_one (record { held = held.now; requests = requests.now }) q
        (λ next. (next == p.0) || slice_index_or leading.now next false) }
{
    let mut more = [false; LOCK_PROCESSES];
    for q in 0..LOCK_PROCESSES {
        more[q] = waits_on(held, requests[q], p, leading);
    }
    more
}

/// Does a process with this request wait for this process, or for a marked one?
fn waits_on(
    held: &[Option<Held>],
    request: Option<Request>,
    p: Pid,
    leading: &[bool; LOCK_PROCESSES],
) -> bool
    ensures { result ≡ waits_by (record { held = held.now; requests = [] })
        (λ next. (next == p.0) || slice_index_or leading.now next false) request }
{
    match request {
        None => false,
        Some(request) => is_led_on(held, request.lock, p, leading),
    }
}

/// Does the lock conflict with one of this process, or of a marked one?
fn is_led_on(held: &[Option<Held>], asked: Held, p: Pid, leading: &[bool; LOCK_PROCESSES]) -> bool
    ensures { result ≡ list_any (is_opposed_by asked
        (λ next. (next == p.0) || slice_index_or leading.now next false)) held.now }
{
    held.iter().any(|place| leads_on(place, asked, p, leading))
}

/// Does the lock conflict with the held one of this place, and is the holder `p` or marked?
fn leads_on(place: &Option<Held>, asked: Held, p: Pid, leading: &[bool; LOCK_PROCESSES]) -> bool
    ensures { result ≡ is_opposed_by asked
        (λ next. (next == p.0) || slice_index_or leading.now next false) place.now }
{
    match place {
        None => false,
        Some(lock) => {
            if is_against(asked, *lock) {
                lock.owner == p || is_marked(leading, lock.owner)
            } else {
                false
            }
        }
    }
}

/// Does the lock conflict with the held one of this place, and is the holder marked?
fn is_opposed(place: &Option<Held>, asked: Held, leading: &[bool; LOCK_PROCESSES]) -> bool
    ensures { result
        ≡ is_opposed_by asked (λ next. slice_index_or leading.now next false) place.now }
{
    match place {
        None => false,
        Some(lock) => {
            if is_against(asked, *lock) {
                is_marked(leading, lock.owner)
            } else {
                false
            }
        }
    }
}

/// Is a process marked?
fn is_marked(marks: &[bool; LOCK_PROCESSES], q: Pid) -> bool
    ensures { result ≡ slice_index_or marks.now q.0 false }
{
    match marks.get(q.0 as usize) {
        None => false,
        Some(mark) => *mark,
    }
}
