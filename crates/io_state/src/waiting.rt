//! Pending calls: when they may go on, what they wait for, and how they are broken off.

ghost use Rattle.std.specs.Prelude.{◌≡◌, ◌<◌, Some, IfSome, IsSome};
ghost use Rattle.io_model.specs.Path.{desc_of};
ghost use Rattle.io_model.specs.Pipe.{IsPipe};
ghost use Rattle.io_model.specs.Io.{target_of};
ghost use Rattle.io_model.specs.Waiting as model;
ghost use Rattle.io_model.specs.Waiting.{cause_by, count_by, interrupted_count, io_interrupted, io_may_go, io_waits_for, may_go_by};
ghost use Rattle.io_state.specs.Sound.{IsThere};

use crate::state::IoState;
use crate::streams::direction_of;
use io_model::io_call::Direction;
use io_model::path::Target;
use io_model::pending::PendingCall;
use io_model::pipe::{PIPE_BYTES, PipeId};
use os9_base::calls::I_READ;
use os9_base::registers::Pid;
use os9_sched::Cause;

impl IoState {
    /// May the pending call of a process on a terminal or a pipe go on?
    pub fn may_go(&self, p: Pid) -> bool
        requires { p.0 < 33 }
        ensures { result ≡ io_may_go self.now p.0 }
    {
        match self.calls[p.0 as usize] {
            Some(call) => self.goes_on(p, call),
            None => false,
        }
    }

    /// May this call of a process go on?
    fn goes_on(&self, p: Pid, call: PendingCall) -> bool
        requires { IsSome (desc_of self.now.paths call.path.0) }
        ensures { result ≡ may_go_by self.now p.0 call (target_of self.now call.path) }
    {
        match self.paths.desc(call.path).target {
            Target::File(_, _) | Target::Folder(_, _) => false,
            Target::Term(terminal) => self.terminals.may_read(terminal, p),
            Target::Pipe(pipe) => {
                self.can_move(pipe, direction_of(call.code)) || self.would_be_alone(p, call)
            }
        }
    }

    /// Has a pipe bytes to read, or room to write?
    fn can_move(&self, pipe: u8, direction: Option<Direction>) -> bool
        requires { IsPipe self.now.pipes pipe }
        ensures { result ≡ model.can_move self.now pipe direction }
    {
        let held = self.pipes.held(PipeId(pipe));
        match direction {
            None => false,
            Some(Direction::Reading) => held != 0,
            Some(Direction::Writing) => held < PIPE_BYTES as u16,
        }
    }

    /// Would a process be alone in its wait in this call?
    fn would_be_alone(&self, p: Pid, call: PendingCall) -> bool
        ensures { result ≡ model.would_be_alone self.now p.0 call }
    {
        match direction_of(call.code) {
            Some(direction) => self.is_alone(p, call.path, direction),
            None => false,
        }
    }

    /// What a process waits for, if it has a pending call on a terminal or a pipe.
    pub fn waits_for(&self, p: Pid) -> Option<Cause>
        requires { p.0 < 33 }
        ensures { result ≡ io_waits_for self.now p.0 }
    {
        match self.wait_target(p) {
            Some(target) => cause(target),
            None => None,
        }
    }

    /// The target of a process's pending call, if it has one.
    fn wait_target(&self, p: Pid) -> Option<Target>
        requires { p.0 < 33 }
        ensures target { result ≡ model.wait_target self.now p.0 }
        ensures there { IfSome result (IsThere self.now) }
    {
        match self.calls[p.0 as usize] {
            Some(call) => Some(self.paths.desc(call.path).target),
            None => None,
        }
    }

    /// Breaks off the pending call of a process, if there is one: neither the call nor its
    /// unfinished read is kept. Returns the count for Y: the bytes that a write or a line read of a
    /// pipe has moved; None for any other call (System Programmer's Manual, F$Icpt).
    pub fn interrupt(&mut self, p: Pid) -> Option<u16>
        requires { p.0 < 33 }
        ensures count { result ≡ interrupted_count self.old p.0 }
        ensures io { self.new ≡ io_interrupted self.old p.0 }
    {
        let count = self.moved_count(p);
        self.break_off(p);
        count
    }

    /// The count that the call of a process returns if it is broken off.
    fn moved_count(&self, p: Pid) -> Option<u16>
        requires { p.0 < 33 }
        ensures { result ≡ interrupted_count self.now p.0 }
    {
        match self.calls[p.0 as usize] {
            Some(call) => moved_on(call, self.paths.desc(call.path).target),
            None => None,
        }
    }

    /// Drops the call of a process, and its unfinished read.
    fn break_off(&mut self, p: Pid)
        requires { p.0 < 33 }
        ensures { self.new ≡ io_interrupted self.old p.0 }
    {
        match self.wait_target(p) {
            Some(target) => self.break_off_from(p, target),
            None => self.calls[p.0 as usize] = None,
        }
    }

    /// As `break_off`, for a pending call on this target.
    fn break_off_from(&mut self, p: Pid, target: Target)
        requires process { p.0 < 33 }
        requires on { model.wait_target self.old p.0 ≡ Some target }
        requires there { IsThere self.old target }
        ensures { self.new ≡ io_interrupted self.old p.0 }
    {
        match target {
            Target::Term(terminal) => {
                self.terminals.release(terminal, p);
                self.calls[p.0 as usize] = None;
            }
            _ => self.calls[p.0 as usize] = None,
        }
    }
}

/// The cause of a wait on this target.
fn cause(target: Target) -> Option<Cause>
    ensures { result ≡ cause_by target }
{
    match target {
        Target::File(_, _) | Target::Folder(_, _) => None,
        Target::Term(terminal) => Some(Cause::Term(terminal)),
        Target::Pipe(pipe) => Some(Cause::Pipe(pipe)),
    }
}

/// The count that a pending call on this target returns if it is broken off.
fn moved_on(call: PendingCall, target: Target) -> Option<u16>
    ensures { result ≡ count_by call (Some target) }
{
    match target {
        Target::Pipe(_) => {
            if call.code == I_READ {
                None
            } else {
                Some(call.moved)
            }
        }
        Target::File(_, _) | Target::Folder(_, _) | Target::Term(_) => None,
    }
}
