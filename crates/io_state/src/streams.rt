//! Pending calls, and the bytes of pipes.

ghost use Rattle.std.specs.Prelude.{◌≡◌, ◌<◌, ◌≤◌, length, take};
ghost use Rattle.io_model.specs.Pipe.{IsPipe, bytes_moved, moved_count, read_answer, read_line_answer, write_answer};
ghost use Rattle.io_model.specs.Alone.{is_alone as is_alone_model, is_direction as is_direction_model, is_in_wait as is_in_wait_model, is_outside as is_outside_model};
ghost use Rattle.io_model.specs.Codes.{direction_of as direction_of_model};
ghost use Rattle.io_model.specs.Io.{pending_at, pipe_bytes};
ghost use Rattle.io_model.specs.Pipes.{after_taking, after_adding};
ghost use Rattle.io_state.specs.Sound.{IsIo};

use crate::state::IoState;
use io_model::io_call::{Direction, io_call};
use io_model::path::SysPath;
use io_model::pending::PendingCall;
use io_model::pipe::{PIPE_BYTES, PipeAns, PipeId};
use os9_base::limits::PROCESS_PLACES;
use os9_base::registers::Pid;

impl IoState {
    /// The pending call of a process on a terminal or a pipe; None if there is none.
    pub fn pending(&self, p: Pid) -> Option<PendingCall>
        requires { p.0 < 33 }
        ensures kept { result ≡ pending_at self.now p.0 }
        ensures sound { IsIo self.now }
    {
        self.calls[p.0 as usize]
    }

    /// Would a process that waits on a path in this direction be alone: does every other process
    /// with the path wait on it in this direction too?
    pub fn is_alone(&self, p: Pid, path: SysPath, direction: Direction) -> bool
        ensures { result ≡ is_alone_model self.now p.0 path.0 direction }
    {
        for number in 0..PROCESS_PLACES {
            if self.is_outside(p, path, direction, Pid(number)) {
                return false;
            }
        }
        true
    }

    /// Does a process `q` other than `p` hold the path, without being in this wait on it?
    fn is_outside(&self, p: Pid, path: SysPath, direction: Direction, q: Pid) -> bool
        requires { q.0 < 33 }
        ensures { result ≡ is_outside_model self.now p.0 path.0 direction q.0 }
    {
        q != p
            && self.paths.holds(q, path)
            && !is_in_wait(path, direction, self.calls[q.0 as usize])
    }

    /// An attempt of I$Read of at most this many bytes, at least one, of a pipe. It moves them to
    /// the front of `into`.
    pub fn read_pipe(
        &mut self,
        pipe: u8,
        alone: bool,
        most: u16,
        into: &mut [u8; PIPE_BYTES],
    ) -> PipeAns
        requires pipe { IsPipe self.old.pipes pipe }
        requires some { 0 < most }
        ensures answer { result ≡ read_answer (pipe_bytes self.old pipe) alone most }
        ensures moved { take (moved_count result) into.new
            ≡ bytes_moved result (pipe_bytes self.old pipe) }
        ensures few { moved_count result ≤ most }
        ensures room { moved_count result ≤ 256 }
        ensures io { self.new ≡ after_taking self.old pipe result }
    {
        let id = PipeId(pipe);
        let room = most.min(self.pipes.held(id).max(1));
        self.pipes.read(id, alone, &mut into[..room as usize])
    }

    /// An attempt of I$ReadLn of at most this many bytes, at least one, of a pipe. It moves them to
    /// the front of `into`.
    pub fn read_pipe_line(
        &mut self,
        pipe: u8,
        alone: bool,
        most: u16,
        into: &mut [u8; PIPE_BYTES],
    ) -> PipeAns
        requires pipe { IsPipe self.old.pipes pipe }
        requires some { 0 < most }
        ensures answer { result ≡ read_line_answer (pipe_bytes self.old pipe) alone most }
        ensures moved { take (moved_count result) into.new
            ≡ bytes_moved result (pipe_bytes self.old pipe) }
        ensures few { moved_count result ≤ most }
        ensures room { moved_count result ≤ 256 }
        ensures io { self.new ≡ after_taking self.old pipe result }
    {
        let id = PipeId(pipe);
        let room = most.min(self.pipes.held(id).max(1));
        self.pipes.read_line(id, alone, &mut into[..room as usize])
    }

    /// An attempt of a write of these bytes, at least one, into a pipe.
    pub fn write_pipe(&mut self, pipe: u8, alone: bool, from: &[u8]) -> PipeAns
        requires pipe { IsPipe self.old.pipes pipe }
        requires some { 0 < length from.now }
        ensures answer { result
            ≡ write_answer (pipe_bytes self.old pipe) alone (length from.now) }
        ensures few { moved_count result ≤ length from.now }
        ensures io { self.new ≡ after_adding self.old pipe result from.now }
    {
        self.pipes.write(PipeId(pipe), alone, from)
    }
}

/// Is a pending call in this wait: does it move bytes in this direction, on this path?
fn is_in_wait(path: SysPath, direction: Direction, pending: Option<PendingCall>) -> bool
    ensures { result ≡ is_in_wait_model path.0 direction pending }
{
    match pending {
        Some(pending) => pending.path == path
            && is_direction(direction, direction_of(pending.code)),
        None => false,
    }
}

/// Is this the direction?
fn is_direction(direction: Direction, other: Option<Direction>) -> bool
    ensures { result ≡ is_direction_model direction other }
{
    matches!(
        (direction, other),
        (Direction::Reading, Some(Direction::Reading))
            | (Direction::Writing, Some(Direction::Writing))
    )
}

/// The direction in which the call of a code moves bytes; None if it moves none.
pub(crate) fn direction_of(code: u8) -> Option<Direction>
    ensures { result ≡ direction_of_model code }
{
    match io_call(code) {
        Some(call) => call.direction(),
        None => None,
    }
}
