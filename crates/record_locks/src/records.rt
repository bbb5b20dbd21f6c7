//! Locks with their history.

ghost use Rattle.std.specs.Prelude.{◌≡◌, ◌≤◌, ◌<◌, ◌+◌, ◌++◌, ◌∷◌, [], None, IfOk, IfSome, IsSome, OnOk, OnErr, false, vec_len};
ghost use Rattle.std.specs.Vec.{vec_capacity};
ghost use Rattle.lock_model.specs.Conflict.{conflicts};
ghost use Rattle.lock_model.specs.History.{AtomicPairs};
ghost use Rattle.lock_model.specs.Laws.{MayHold};
ghost use Rattle.lock_model.specs.Locks.{request_of};
ghost use Rattle.lock_model.specs.Records.{AreLockRecords, holding, no_records, with_waiting, without_lock, written_by};
ghost use Rattle.lock_model.specs.Waits.{after_answer, after_later, first_answer, later_answer};
ghost use Rattle.record_locks.specs.Places.{IsPath, HasRequestPlace};

use crate::locks::Locks;
use lock_model::history::{Entry, EntryBytes};
use lock_model::lock::{EntryKind, Grant, Held, PATH_PLACES, Request};
use os9_base::call::OutOfMemory;
use os9_base::registers::Pid;
use std::alloc::{AllocError, Global};
use std::marker::Model;

/// Locks and their history, which has room for the end of each lock (this project's own). So no end
/// of a lock takes memory.
///
/// A path holds a lock if and only if its last entry is a Get, and no other process has written a
/// byte of the lock's range since.
#[derive(Drop)]
pub struct Records {
    locks: Locks,
    history: Vec<Entry>,
    alloc: Global,
}

impl Model for Records {
    ghost use Rattle.std.specs.Prelude.{◌≤◌, ◌+◌, is_some, count_by, length};
    ghost use Rattle.std.specs.Vec.{vec_capacity};
    ghost use Rattle.lock_model.specs.Records.{AreLockRecords, Records};

    ghost Value = { Records };

    ghost view = { λ it. record { locks = it.locks; history = it.history.items } };

    ghost invariant = { λ it. record {
      agree : AreLockRecords (record { locks = it.locks; history = it.history.items });
      room : length it.history.items + count_by is_some it.locks.held ≤ vec_capacity it.history;
    } };
}

impl Records {
    /// No locks, no waiting process, and an empty history.
    ///
    /// # Errors
    ///
    /// Out of memory.
    pub fn new(alloc: Global) -> Result<Records, OutOfMemory>
        ensures { IfOk result (λ records. records ≡ no_records) }
    {
        Ok(Records {
            locks: Locks::new(alloc)?,
            history: Vec::new(alloc),
            alloc,
        })
    }

    /// The locks and requests.
    pub fn locks(&self) -> &Locks
        ensures locks { result.now ≡ self.now.locks }
        ensures agree { AreLockRecords self.now }
    {
        &self.locks
    }

    /// The history, oldest entry first. Each read for update in it and the write of that update are
    /// one step of their file's history.
    pub fn history(&self) -> &[Entry]
        ensures history { result.now ≡ self.now.history }
        ensures atomic { AtomicPairs self.now.history }
        ensures agree { AreLockRecords self.now }
    {
        self.history.as_slice()
    }

    /// Answers a request at its call's first attempt, as [`Locks::request`].
    pub fn request(&mut self, request: Request) -> Grant
        requires process { HasRequestPlace request.lock.owner.0 }
        requires quiet { request_of self.old.locks request.lock.owner.0 ≡ None }
        ensures answer { result ≡ first_answer self.old.locks request }
        ensures records { self.new
            ≡ record self.old { locks = after_answer self.old.locks request result } }
    {
        self.locks.request(request)
    }

    /// Answers a process's kept request at a further attempt of its call, as [`Locks::again`].
    pub fn again(&mut self, p: Pid, now: u32) -> Grant
        requires process { HasRequestPlace p.0 }
        requires waits { IsSome (request_of self.old.locks p.0) }
        ensures answer { IfSome (request_of self.old.locks p.0)
            (λ request. result ≡ later_answer self.old.locks now request) }
        ensures records { self.new
            ≡ record self.old { locks = after_later self.old.locks p.0 result } }
    {
        self.locks.again(p, now)
    }

    /// Forgets the request of a process, if it waits in one.
    pub fn cancel(&mut self, p: Pid)
        requires { HasRequestPlace p.0 }
        ensures { self.new ≡ with_waiting self.old p.0 None }
    {
        self.locks.cancel(p);
    }

    /// Gives a system path this lock, in place of the lock that it held, and enters a Get with the
    /// bytes read.
    ///
    /// The lock's owner must not wait, and the lock must conflict with none.
    ///
    /// # Errors
    ///
    /// Out of memory. Nothing changes then.
    pub fn hold(&mut self, path: u8, lock: Held, bytes: &[u8]) -> Result<(), OutOfMemory>
        requires path { IsPath path }
        requires may { MayHold self.old.locks lock }
        ensures ok { OnOk result (self.new ≡ holding self.old path lock bytes.now) }
        ensures err { OnErr result (self.new ≡ self.old) }
    {
        let bytes = EntryBytes::new(Vec::from_slice(self.alloc, bytes)?);
        make_room(&mut self.history)?;
        push(&mut self.history, entry(EntryKind::Get, path, lock, bytes));
        self.locks.grant(path, lock);
        Ok(())
    }

    /// Enters a Put with the bytes written to a lock's range, and takes the lock of the system path
    /// away, if it holds one.
    ///
    /// The lock must conflict with none.
    ///
    /// # Errors
    ///
    /// Out of memory. Nothing changes then.
    pub fn write(&mut self, path: u8, lock: Held, bytes: &[u8]) -> Result<(), OutOfMemory>
        requires path { IsPath path }
        requires free { conflicts self.old.locks lock ≡ false }
        ensures ok { OnOk result (self.new ≡ written_by self.old path lock bytes.now) }
        ensures err { OnErr result (self.new ≡ self.old) }
    {
        let bytes = EntryBytes::new(Vec::from_slice(self.alloc, bytes)?);
        make_room(&mut self.history)?;
        push(&mut self.history, entry(EntryKind::Put, path, lock, bytes));
        self.locks.release(path);
        Ok(())
    }

    /// Takes the lock of a system path away, if it holds one, and enters a Drop. No memory is
    /// taken: the history has room for the entry.
    pub fn drop_lock(&mut self, path: u8)
        requires { IsPath path }
        ensures { self.new ≡ without_lock self.old path }
    {
        if let Some(lock) = self.locks.lock_of(path) {
            let bytes = EntryBytes::new(Vec::new(self.alloc));
            push(&mut self.history, entry(EntryKind::Drop, path, lock, bytes));
            self.locks.release(path);
        }
    }
}

/// An entry on a lock.
fn entry(kind: EntryKind, path: u8, lock: Held, bytes: EntryBytes) -> Entry
    ensures { result ≡ record {
      kind = kind;
      process = lock.owner.0;
      path = path;
      file = lock.file;
      range = lock.range;
      bytes = bytes;
    } }
{
    Entry {
        kind,
        process: lock.owner.0,
        path,
        file: lock.file,
        range: lock.range,
        bytes,
    }
}

/// Reserves room in a history for an entry and for the end of each lock.
fn make_room(history: &mut Vec<Entry>) -> Result<(), AllocError>
    ensures items { history.new.items ≡ history.old.items }
    ensures kept { vec_capacity history.old ≤ vec_capacity history.new }
    ensures room { OnOk result (vec_len history.new + PATH_PLACES < vec_capacity history.new) }
{
    history.reserve(PATH_PLACES + 1)
}

/// Appends an entry to a history that has room for it.
fn push(history: &mut Vec<Entry>, entry: Entry)
    requires room { vec_len history.old < vec_capacity history.old }
    ensures items { history.new.items ≡ history.old.items ++ entry ∷ [] }
    ensures capacity { vec_capacity history.old ≤ vec_capacity history.new }
{
    let _ = history.push(entry);
}
