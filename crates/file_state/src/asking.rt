//! Requests of calls for records of files, and what they are answered.

ghost use Rattle.std.specs.Prelude.{◌≡◌, ◌<◌, None, Some, unwrap_or};
ghost use Rattle.io_model.specs.Io.{with_call};
ghost use Rattle.io_state.specs.Sound.{MayWait, ReadsNoTerminal};
ghost use Rattle.lock_model.specs.Locks.{request_of};
ghost use Rattle.lock_model.specs.Records.{with_waiting};
ghost use Rattle.file_rules.specs.Locking as model;
ghost use Rattle.file_rules.specs.Locking.{answer_in, end_by, request_by, start_of};
ghost use Rattle.file_state.specs.Asking.{IsClaim, MayBeGranted, IsRequestOf, MayAsk, asked, claimed};

use crate::state::{FileState, OpenFile};
use file_rules::claim::Claim;
use io_model::path::SysPath;
use io_model::pending::PendingCall;
use io_state::ends::refuse;
use lock_model::lock::{Grant, Held, Range, Request};
use os9_base::call::CallEnd;
use os9_base::errors::{E_DEADLK, E_LOCK};
use os9_base::registers::Pid;

/// So many bytes from a position on of a file of this size; all from there on if they reach past
/// its end.
pub fn range_of(size: u32, at: u32, count: u32) -> Range
    ensures { result ≡ model.range_of size at count }
{
    if size < at || size - at < count {
        return Range {
            start: at,
            end: None,
        };
    }
    Range {
        start: at,
        end: Some(at + count),
    }
}

impl FileState {
    /// The position of a path for a call of a process: the one that it had when the call was made.
    pub fn position(&self, p: Pid, opened: &OpenFile) -> u32
        requires { p.0 < 33 }
        ensures { result
            ≡ start_of (request_of self.now.records.locks p.0) opened.now.desc.at }
    {
        match self.records.locks().request_of(p) {
            Some(request) => request.lock.range.start,
            None => opened.desc.at,
        }
    }

    /// The request of a call of a process on a path, in a tick: the one that it waits in, or this
    /// claim at its first attempt.
    pub fn request_now(&self, p: Pid, opened: &OpenFile, claim: Claim, tick: u32) -> Request
        requires process { p.0 < 33 }
        requires may { MayAsk self.now.io self.now.records.locks p.0 opened.now }
        requires claim { request_of self.now.records.locks p.0 ≡ None → IsClaim claim }
        ensures request { result ≡ unwrap_or (request_of self.now.records.locks p.0)
            (claimed p opened.now claim tick) }
        ensures own { IsRequestOf self.now.io self.now.records.locks p.0 result }
    {
        // A process that waits in a request keeps its call.
        prove!(self.io.pending(p).is_some() || self.records.locks().request_of(p).is_none());
        match self.records.locks().request_of(p) {
            Some(request) => request,
            None => first_request(p, opened, claim, tick),
        }
    }

    /// Asks for the record of a request of a process in a tick (Level Two manual, RBF record
    /// locking). The answer is None if it is granted; otherwise it is how the call ends: it is
    /// refused, or it waits in its request.
    pub fn ask(&mut self, p: Pid, request: Request, tick: u32) -> Option<CallEnd>
        requires process { p.0 < 33 }
        requires request { IsRequestOf self.old.io self.old.records.locks p.0 request }
        requires no_read { ReadsNoTerminal self.old.io p.0 }
        ensures end { result ≡ end_by (answer_in self.old.records.locks p.0 tick request) }
        ensures state { self.new ≡ asked self.old p.0 request
            (answer_in self.old.records.locks p.0 tick request) }
        ensures granted { result ≡ None → MayBeGranted self.new.records.locks request.lock }
    {
        match self.answer(p, request, tick) {
            Grant::Granted => None,
            Grant::Locked => Some(refuse(&mut self.io, p, E_LOCK)),
            Grant::Deadlock => Some(refuse(&mut self.io, p, E_DEADLK)),
            Grant::Wait => Some(self.wait(p, request)),
        }
    }

    /// The answer to a request of a process in a tick, at its call's first attempt or at a further
    /// one. The request is kept only if it waits.
    fn answer(&mut self, p: Pid, request: Request, tick: u32) -> Grant
        requires process { p.0 < 33 }
        requires request { IsRequestOf self.old.io self.old.records.locks p.0 request }
        ensures answer { result ≡ answer_in self.old.records.locks p.0 tick request }
        ensures state { self.new ≡ record self.old {
          records = with_waiting self.old.records p.0 (request_by result request);
        } }
    {
        if self.records.locks().request_of(p).is_none() {
            self.records.request(request)
        } else {
            self.records.again(p, tick)
        }
    }

    /// The call of a process waits in its request.
    fn wait(&mut self, p: Pid, request: Request) -> CallEnd
        requires process { p.0 < 33 }
        requires may { MayWait self.old.io.paths p.0 (model.call_of request) }
        requires no_read { ReadsNoTerminal self.old.io p.0 }
        ensures end { result ≡ CallEnd.Wait }
        ensures state { self.new
            ≡ record self.old { io = with_call self.old.io p.0 (Some (model.call_of request)) } }
    {
        self.io.keep(p, Some(call_of(request)));
        CallEnd::Wait
    }
}

/// The request of a claim of a process on a path, made in a tick.
fn first_request(p: Pid, opened: &OpenFile, claim: Claim, tick: u32) -> Request
    ensures { result ≡ claimed p opened.now claim tick }
{
    let lock = Held {
        owner: p,
        file: opened.place,
        range: claim.range,
    };
    Request {
        code: claim.code,
        path: opened.path.0,
        count: claim.count,
        lock,
        ticks: opened.desc.ticks,
        since: tick,
    }
}

/// The call of a request, as it is pending.
fn call_of(request: Request) -> PendingCall
    ensures { result ≡ model.call_of request }
{
    PendingCall {
        code: request.code,
        path: SysPath(request.path),
        moved: 0,
        count: request.count,
    }
}
