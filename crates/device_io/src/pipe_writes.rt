//! Writes into pipes (System Programmer's Manual, I$Write and I$WritLn).

ghost use Rattle.std.specs.Prelude.{◌≡◌, ◌≢◌, ◌<◌, ◌≤◌, ◌+◌, length};
ghost use Rattle.os9_base.specs.declared.registers.Regs.{Regs};
ghost use Rattle.io_model.specs.Pipe.{IsPipe, moved_count};
ghost use Rattle.io_model.specs.Alone.{is_alone};
ghost use Rattle.io_model.specs.Pipes.{writes_pipe, write_end, moved_end};
ghost use Rattle.io_model.specs.Step.{leaves};
ghost use Rattle.io_state.specs.Sound.{MayWait, ReadsNoTerminal};
ghost use Rattle.io_model.specs.declared.io_call.Direction.TheVariants as Direction;
ghost use Rattle.device_io.specs.Leaving.{Settles};

use crate::ends::{finish, keep, moved_on};
use io_model::io_call::Direction;
use io_model::pending::PendingCall;
use io_model::pipe::PipeAns;
use io_state::ends::refuse;
use io_state::state::IoState;
use os9_base::call::CallEnd;
use os9_base::errors::{E_EOF, E_WRITE};
use os9_base::registers::Pid;

/// An attempt of a process to write these bytes into a pipe, of which earlier attempts moved some.
/// It is done with the last byte, and waits before that. The caller sets the registers if it is
/// done.
///
/// # Errors
///
/// E$Write exactly if a byte is left, and no other process outside the same wait holds the path.
/// The moved bytes stay in the pipe.
pub(crate) fn write_pipe(
    io: &mut IoState,
    p: Pid,
    pipe: u8,
    call: PendingCall,
    bytes: &[u8],
) -> CallEnd
    requires process { p.0 < 33 }
    requires pipe { IsPipe io.old.pipes pipe }
    requires all { length bytes.now ≡ call.count }
    requires may { MayWait io.old.paths p.0 call }
    requires no_read { ReadsNoTerminal io.old p.0 }
    ensures { (regs : Regs) → Settles (writes_pipe io.old pipe call
        (is_alone io.old p.0 call.path.0 Direction.Writing) bytes.now regs) regs p.0 result io.new }
{
    let alone = io.is_alone(p, call.path, Direction::Writing);
    let moved = io.write_pipe(pipe, alone, &bytes[call.moved as usize..]);
    settle(io, p, alone, call, moved)
}

/// Ends a write by the pipe's answer.
fn settle(io: &mut IoState, p: Pid, alone: bool, call: PendingCall, moved: PipeAns) -> CallEnd
    requires process { p.0 < 33 }
    requires few { call.moved + moved_count moved ≤ call.count }
    requires may { MayWait io.old.paths p.0 call }
    requires no_read { ReadsNoTerminal io.old p.0 }
    ensures { (regs : Regs) → Settles (leaves (write_end alone call regs moved) io.old) regs p.0
        result io.new }
{
    match moved {
        PipeAns::Done(count) => go_on(io, p, alone, moved_on(call, count)),
        PipeAns::Wait => keep(io, p, call),
        PipeAns::End => refuse(io, p, E_EOF),
        PipeAns::NoReader => refuse(io, p, E_WRITE),
    }
}

/// A write that moved bytes is done if they were the last. Else it waits if another process outside
/// the same wait holds the path, and is refused if none does.
fn go_on(io: &mut IoState, p: Pid, alone: bool, call: PendingCall) -> CallEnd
    requires process { p.0 < 33 }
    requires may { call.moved ≢ call.count → MayWait io.old.paths p.0 call }
    requires no_read { ReadsNoTerminal io.old p.0 }
    ensures { (regs : Regs) → Settles (leaves (moved_end alone call regs) io.old) regs p.0 result
        io.new }
{
    if call.moved == call.count {
        return finish(io, p);
    }
    if alone {
        return refuse(io, p, E_WRITE);
    }
    keep(io, p, call)
}
