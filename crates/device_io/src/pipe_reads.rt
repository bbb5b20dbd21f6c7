//! Reads of pipes (System Programmer's Manual, I$Read and I$ReadLn).

ghost use Rattle.std.specs.Prelude.{◌≡◌, ◌≢◌, ℕ, ◌||◌, false, []};
ghost use Rattle.os9_base.specs.Cells.{FitsIn};
ghost use Rattle.proc_model.specs.Records.{IsLiving};
ghost use Rattle.proc_model.specs.Processes.{Processes};
ghost use Rattle.guest_memory.specs.Tie.{cells_of};
ghost use Rattle.io_model.specs.Pending.{is_complete};
ghost use Rattle.io_model.specs.Line as model;
ghost use Rattle.io_model.specs.Pipe.{IsPipe};
ghost use Rattle.io_model.specs.Attempts.{caller_of};
ghost use Rattle.io_model.specs.Pipes.{line_ended};
ghost use Rattle.io_model.specs.Read.{pipe_read};
ghost use Rattle.io_model.specs.Step.{stores};
ghost use Rattle.io_state.specs.Sound.{MayWait, ReadsNoTerminal};
ghost use Rattle.io_model.specs.declared.terminal.ReadKind.TheVariants as Kind;
ghost use Rattle.proc_state.specs.Tie.{RepresentsProcesses};
ghost use Rattle.io_state.specs.Context.{InCall};
ghost use Rattle.device_io.specs.Leaving.{LeavesIoState};

use crate::ends::{keep, moved_on};
use crate::lines::has_return;
use io_model::io_call::Direction;
use io_model::pending::PendingCall;
use io_model::pipe::{PIPE_BYTES, PipeAns};
use io_state::ends::{answer, refuse};
use io_state::requester::Requester;
use io_state::state::IoState;
use os9_base::call::CallEnd;
use os9_base::errors::{E_EOF, E_WRITE};
use os9_base::registers::Regs;
use proc_state::state::ProcState;

/// An attempt of I$Read on a pipe, whose buffer at X must be in named slots. It is done with what
/// the pipe holds, which is stored at X and counted in Y. It waits while the pipe is empty.
///
/// # Errors
///
/// E$EOF exactly if the pipe is empty, and no other process outside the same wait holds the path.
pub(crate) fn read_pipe(
    s: &mut ProcState,
    io: &mut IoState,
    by: Requester,
    pipe: u8,
    call: PendingCall,
) -> CallEnd
    requires calls { InCall by s.old }
    requires named { FitsIn (cells_of s.old.memory by.p.0) by.regs.x call.count }
    requires pipe { IsPipe io.old.pipes pipe }
    requires may { MayWait io.old.paths by.p.0 call }
    requires no_read { ReadsNoTerminal io.old by.p.0 }
    ensures call { (m : Processes) → RepresentsProcesses s.old m
        → LeavesIoState (pipe_read Kind.Bytes (caller_of m by.p.0) io.old pipe call) m by.p.0
        result s.new io.new }
    ensures lives { IsLiving s.new.table by.p.0 }
{
    let alone = io.is_alone(by.p, call.path, Direction::Reading);
    let mut bytes = [0; PIPE_BYTES];
    let moved = io.read_pipe(pipe, alone, call.count, &mut bytes);
    match moved {
        PipeAns::Done(count) => {
            s.store(by.p, by.regs.x, &bytes[..count as usize]);
            answer(
                s,
                io,
                by.p,
                Regs {
                    y: count,
                    ..by.regs
                },
            )
        }
        PipeAns::Wait => keep(io, by.p, call),
        PipeAns::End => refuse(io, by.p, E_EOF),
        PipeAns::NoReader => refuse(io, by.p, E_WRITE),
    }
}

/// An attempt of I$ReadLn on a pipe, whose buffer at X must be in named slots. It stores the first
/// line, or the available part of it, after the bytes that earlier attempts moved. It is done with
/// a carriage return, or with the last byte that it asks for, and returns the count of all moved
/// bytes in Y. It waits before that. If the process is alone, it returns what was moved.
///
/// # Errors
///
/// E$EOF exactly if the pipe is empty, no other process outside the same wait holds the path, and
/// nothing was moved before.
pub(crate) fn read_pipe_line(
    s: &mut ProcState,
    io: &mut IoState,
    by: Requester,
    pipe: u8,
    call: PendingCall,
) -> CallEnd
    requires calls { InCall by s.old }
    requires named { FitsIn (cells_of s.old.memory by.p.0) by.regs.x call.count }
    requires pipe { IsPipe io.old.pipes pipe }
    requires may { MayWait io.old.paths by.p.0 call }
    requires no_read { ReadsNoTerminal io.old by.p.0 }
    ensures call { (m : Processes) → RepresentsProcesses s.old m
        → LeavesIoState (pipe_read Kind.WholeLine (caller_of m by.p.0) io.old pipe call) m by.p.0
        result s.new io.new }
    ensures lives { IsLiving s.new.table by.p.0 }
{
    let alone = io.is_alone(by.p, call.path, Direction::Reading);
    let mut bytes = [0; PIPE_BYTES];
    let most = call.count - call.moved;
    let moved = io.read_pipe_line(pipe, alone, most, &mut bytes);
    match moved {
        PipeAns::Done(count) => {
            let taken = &bytes[..count as usize];
            s.store(by.p, by.regs.x + call.moved, taken);
            let call = moved_on(call, count);
            if is_over(taken, alone, call) {
                let y = call.moved;
                return answer(s, io, by.p, Regs { y, ..by.regs });
            }
            keep(io, by.p, call)
        }
        PipeAns::Wait => keep(io, by.p, call),
        PipeAns::End => end_of_file(s, io, by, call),
        PipeAns::NoReader => refuse(io, by.p, E_WRITE),
    }
}

/// Is an I$ReadLn over that took these bytes? `call` is the call after them.
fn is_over(taken: &[u8], alone: bool, call: PendingCall) -> bool
    ensures over { result ≡ (model.has_return taken.now || (is_complete call || alone)) }
    ensures left { result ≡ false → call.moved ≢ call.count }
{
    has_return(taken) || call.moved == call.count || alone
}

/// An I$ReadLn finds the pipe empty, and its process alone.
fn end_of_file(s: &mut ProcState, io: &mut IoState, by: Requester, call: PendingCall) -> CallEnd
    requires calls { InCall by s.old }
    requires no_read { ReadsNoTerminal io.old by.p.0 }
    ensures call { (m : Processes) (at : ℕ) → RepresentsProcesses s.old m
        → LeavesIoState (stores at [] (line_ended (caller_of m by.p.0) call) io.old)
        m by.p.0 result s.new io.new }
    ensures lives { IsLiving s.new.table by.p.0 }
{
    if call.moved == 0 {
        return refuse(io, by.p, E_EOF);
    }
    let y = call.moved;
    answer(s, io, by.p, Regs { y, ..by.regs })
}
