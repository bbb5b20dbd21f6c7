ghost use Rattle.std.specs.Prelude.{◌≡◌, None, Some, false, count_by, is_some, slice_set, IfOk, IfSome, IsSome, replicate};
ghost use Rattle.lock_model.specs.Conflict.{conflicts as conflicts_model};
ghost use Rattle.lock_model.specs.Laws.{AreLocks, MayHold};
ghost use Rattle.lock_model.specs.declared.lock.Held.{Held as HeldLock};
ghost use Rattle.lock_model.specs.Locks.{lock_of as lock_of_model, no_locks, request_of as request_of_model, with_lock, with_request};
ghost use Rattle.lock_model.specs.Waits.{after_answer, after_later, closes as closes_model, first_answer, is_late as is_late_model, later_answer, lock_may_go};
ghost use Rattle.record_locks.specs.Places.{IsPath, HasRequestPlace};

use crate::conflict::conflicts;
use crate::cycle::closes;
use lock_model::lock::{Grant, Held, LOCK_PROCESSES, PATH_PLACES, Request};
use os9_base::call::OutOfMemory;
use os9_base::registers::Pid;
use std::alloc::{AllocError, Global};
use std::marker::Model;

/// The lock of each system path, and the request of each waiting process (Level Two manual, RBF
/// record locking). Locks of different processes on a file have no byte in common, and waits form no
/// cycle. Only [`Locks::new`] takes memory.
#[derive(Drop)]
pub struct Locks {
    held: Vec<Option<Held>>,
    requests: Vec<Option<Request>>,
    // The number of locks held. Most often it is 0, and no place is looked at.
    count: usize,
}

impl Model for Locks {
    ghost use Rattle.std.specs.Prelude.{◌≡◌, is_some, count_by};
    ghost use Rattle.lock_model.specs.Locks.{Locks};
    ghost use Rattle.lock_model.specs.Laws.{AreLocks};

    ghost Value = { Locks };

    ghost view = { λ locks. record { held = locks.held.items; requests = locks.requests.items } };

    ghost invariant = { λ locks. record {
      kept : AreLocks (record { held = locks.held.items; requests = locks.requests.items });
      counted : locks.count ≡ count_by is_some locks.held.items;
    } };
}

impl Locks {
    /// No locks, and no waiting process.
    ///
    /// # Errors
    ///
    /// Out of memory.
    pub fn new(alloc: Global) -> Result<Locks, OutOfMemory>
        ensures { IfOk result (λ locks. locks ≡ no_locks) }
    {
        Ok(Locks {
            held: no_held(alloc)?,
            requests: no_requests(alloc)?,
            count: 0,
        })
    }

    /// Answers a request at its call's first attempt: `Granted` exactly if it conflicts with no lock
    /// of another process. Otherwise `Locked` if its ticks are 1, `Deadlock` if waiting would close a
    /// cycle of waits, and else `Wait`. Only `Wait` keeps the request.
    ///
    /// The process must not wait in another request. A grant locks nothing yet: that is
    /// [`Locks::grant`].
    pub fn request(&mut self, request: Request) -> Grant
        requires process { HasRequestPlace request.lock.owner.0 }
        requires quiet { request_of_model self.old request.lock.owner.0 ≡ None }
        ensures answer { result ≡ first_answer self.old request }
        ensures locks { self.new ≡ after_answer self.old request result }
        ensures kept { AreLocks self.new }
    {
        let answer = self.first(request);
        match answer {
            Grant::Wait => self.keep(request),
            Grant::Granted | Grant::Locked | Grant::Deadlock => self.cancel(request.lock.owner),
        }
        answer
    }

    /// Keeps the request of a process, if the process does not wait and the wait closes no cycle.
    fn keep(&mut self, request: Request)
        requires process { HasRequestPlace request.lock.owner.0 }
        requires quiet { request_of_model self.old request.lock.owner.0 ≡ None }
        requires unclosed { closes_model self.old request.lock ≡ false }
        ensures locks { self.new ≡ with_request self.old request.lock.owner.0 (Some request) }
        ensures kept { AreLocks self.new }
    {
        self.requests[request.lock.owner.0 as usize] = Some(request);
    }

    /// The answer to a request at its call's first attempt.
    fn first(&self, request: Request) -> Grant
        ensures answer { result ≡ first_answer self.now request }
        ensures unclosed { result ≡ Grant.Wait → closes_model self.now request.lock ≡ false }
        ensures kept { AreLocks self.now }
    {
        if !self.conflicts(request.lock) {
            Grant::Granted
        } else if request.ticks == 1 {
            Grant::Locked
        } else if closes(&self.held, &self.requests, request.lock) {
            Grant::Deadlock
        } else {
            Grant::Wait
        }
    }

    /// The lock of a system path; None if it holds none.
    pub fn lock_of(&self, path: u8) -> Option<Held>
        ensures lock { result ≡ lock_of_model self.now path }
        ensures kept { AreLocks self.now }
    {
        *self.held.get(path as usize)?
    }

    /// The request in which a process waits; None if it does not wait.
    pub fn request_of(&self, p: Pid) -> Option<Request>
        ensures request { result ≡ request_of_model self.now p.0 }
        ensures kept { AreLocks self.now }
    {
        *self.requests.get(p.0 as usize)?
    }

    /// Answers a process's kept request at a further attempt of its call, in tick `now`: `Granted`
    /// exactly if it conflicts with no lock of another process. Otherwise `Locked` if its limit of
    /// ticks has passed, and else `Wait`. Only `Wait` keeps the request.
    pub fn again(&mut self, p: Pid, now: u32) -> Grant
        requires process { HasRequestPlace p.0 }
        requires waits { IsSome (request_of_model self.old p.0) }
        ensures answer { IfSome (request_of_model self.old p.0)
            (λ request. result ≡ later_answer self.old now request) }
        ensures locks { self.new ≡ after_later self.old p.0 result }
        ensures kept { AreLocks self.new }
    {
        let request = self.waiting(p);
        let answer = self.later(request, now);
        match answer {
            Grant::Wait => {}
            Grant::Granted | Grant::Locked | Grant::Deadlock => self.cancel(p),
        }
        answer
    }

    /// The request of a waiting process.
    fn waiting(&self, p: Pid) -> Request
        requires { IsSome (request_of_model self.now p.0) }
        ensures request { request_of_model self.now p.0 ≡ Some result }
        ensures kept { AreLocks self.now }
    {
        self.requests[p.0 as usize].unwrap()
    }

    /// The answer to a request at a further attempt.
    fn later(&self, request: Request, now: u32) -> Grant
        ensures answer { result ≡ later_answer self.now now request }
        ensures kept { AreLocks self.now }
    {
        if !self.conflicts(request.lock) {
            Grant::Granted
        } else if is_late(now, request) {
            Grant::Locked
        } else {
            Grant::Wait
        }
    }

    /// Does a process wait in a request that [`Locks::again`] would not let wait in tick `now`?
    pub fn may_go(&self, p: Pid, now: u32) -> bool
        ensures may { result ≡ lock_may_go self.now now p.0 }
        ensures kept { AreLocks self.now }
    {
        match self.request_of(p) {
            None => false,
            Some(request) => !self.conflicts(request.lock) || is_late(now, request),
        }
    }

    /// Does a requested lock conflict with a held one?
    fn conflicts(&self, asked: Held) -> bool
        ensures answer { result ≡ conflicts_model self.now asked }
        ensures kept { AreLocks self.now }
    {
        if self.count == 0 {
            return false;
        }
        conflicts(&self.held, asked)
    }

    /// Gives a system path this lock, in place of the lock that it held.
    ///
    /// Its owner must not wait, and the lock must conflict with none.
    pub fn grant(&mut self, path: u8, lock: Held)
        requires path { IsPath path }
        requires may { MayHold self.old lock }
        ensures locks { self.new ≡ with_lock self.old path (Some lock) }
        ensures kept { AreLocks self.new }
    {
        self.count = self.count_with(path);
        self.held[path as usize] = Some(lock);
    }

    /// The number of locks if a system path holds one.
    fn count_with(&self, path: u8) -> usize
        requires { IsPath path }
        ensures { (lock : HeldLock) → result
            ≡ count_by is_some (slice_set self.now.held path (Some lock)) }
    {
        if self.held[path as usize].is_some() {
            return self.count;
        }
        self.count + 1
    }

    /// Takes the lock of a system path away, if it holds one.
    pub fn release(&mut self, path: u8)
        requires { IsPath path }
        ensures locks { self.new ≡ with_lock self.old path None }
        ensures kept { AreLocks self.new }
    {
        self.count = self.count_without(path);
        self.held[path as usize] = None;
    }

    /// The number of locks if a system path holds none.
    fn count_without(&self, path: u8) -> usize
        requires { IsPath path }
        ensures { result ≡ count_by is_some (slice_set self.now.held path None) }
    {
        if self.held[path as usize].is_none() {
            return self.count;
        }
        self.count - 1
    }

    /// Forgets the request of a process, if it waits in one.
    pub fn cancel(&mut self, p: Pid)
        requires { HasRequestPlace p.0 }
        ensures locks { self.new ≡ with_request self.old p.0 None }
        ensures kept { AreLocks self.new }
    {
        self.requests[p.0 as usize] = None;
    }
}

/// Has the request's limit of ticks, if it has one, passed?
fn is_late(now: u32, request: Request) -> bool
    ensures { result ≡ is_late_model now request }
{
    1 < request.ticks && u64::from(request.since) + u64::from(request.ticks) <= u64::from(now)
}

/// A place for each system path, without locks.
fn no_held(alloc: Global) -> Result<Vec<Option<Held>>, AllocError>
    ensures { IfOk result (λ held. held.items ≡ replicate PATH_PLACES None) }
{
    let mut held = Vec::with_capacity(alloc, PATH_PLACES)?;
    'fill: while held.len() < PATH_PLACES {
        held.push(None)?;
    }
    Ok(held)
}

/// A place for each process, without requests.
fn no_requests(alloc: Global) -> Result<Vec<Option<Request>>, AllocError>
    ensures { IfOk result (λ requests. requests.items ≡ replicate LOCK_PROCESSES None) }
{
    let mut requests = Vec::with_capacity(alloc, LOCK_PROCESSES)?;
    'fill: while requests.len() < LOCK_PROCESSES {
        requests.push(None)?;
    }
    Ok(requests)
}
