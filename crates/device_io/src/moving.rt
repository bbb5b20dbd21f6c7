//! The bytes that an attempt of a write reads: on a pipe only the bytes that it may move.

ghost use Rattle.std.specs.Prelude.{◌≡◌, ◌<◌, ◌≤◌, IfSome, length, option_map, take};
ghost use Rattle.os9_base.specs.Cells.{FitsIn};
ghost use Rattle.proc_model.specs.Processes.{Processes, cells_at};
ghost use Rattle.proc_model.specs.UserBytes.{user_bytes};
ghost use Rattle.guest_memory.specs.Tie.{IsMemorySame as IsSameMemory, cells_of};
ghost use Rattle.io_model.specs.Io.{pending_at, open_path};
ghost use Rattle.proc_state.specs.Tie.{AreProcessesSame, RepresentsProcesses};
ghost use Rattle.device_io.specs.Reading as model;
ghost use Rattle.device_io.specs.Reading.{HasWindow, AreWriteBytesRead};

use guest_memory::memory::Memory;
use io_model::path::Target;
use io_model::pipe::PIPE_BYTES;
use io_state::requester::Requester;
use io_state::state::IoState;
use os9_base::registers::Pid;
use proc_state::state::ProcState;

/// Reads the `count` bytes at X that a process writes on the path in A, each to its place in the
/// buffer, and returns their count. None if one of them is in no named slot or past `FFFF`. For a
/// write into a pipe it reads only the bytes that the attempt may move.
pub(crate) fn read_moving(s: &mut ProcState, io: &IoState, by: Requester, count: u16) -> Option<u16>
    requires process { by.p.0 < 33 }
    requires left { IfSome (pending_at io.now by.p.0) (λ pending. pending.moved < count) }
    ensures read { (m : Processes) → RepresentsProcesses s.old m
        → AreWriteBytesRead io.now by.p.0 by.regs.a (user_bytes (cells_at m by.p.0) by.regs.x count)
        result s.new.buffer.items }
    ensures count { IfSome result (λ all. all ≡ count) }
    ensures same { AreProcessesSame s.old s.new }
{
    if count == 0 || !is_on_pipe(io, by.p, by.regs.a) {
        return read_all(s, by.p, by.regs.x, count);
    }
    if !s.is_named(by.p, by.regs.x, count) {
        return None;
    }
    read_window(s, by, moved_before(io, by.p), count);
    Some(count)
}

/// Is the path of a number on a pipe?
fn is_on_pipe(io: &IoState, p: Pid, number: u8) -> bool
    ensures { result ≡ model.is_on_pipe (open_path io.now p.0 number) }
{
    match io.open_path(p, number) {
        None => false,
        Some(found) => matches!(found.1.target, Target::Pipe(_)),
    }
}

/// The number of bytes that earlier attempts of the call of a process moved.
fn moved_before(io: &IoState, p: Pid) -> u16
    requires { p.0 < 33 }
    ensures { result ≡ model.moved_before (pending_at io.now p.0) }
{
    match io.pending(p) {
        None => 0,
        Some(pending) => pending.moved,
    }
}

/// Reads all `count` bytes into the front of the buffer.
fn read_all(s: &mut ProcState, p: Pid, at: u16, count: u16) -> Option<u16>
    requires { p.0 < 33 }
    ensures read { (m : Processes) → RepresentsProcesses s.old m
        → user_bytes (cells_at m p.0) at count ≡ option_map (λ count. take count s.new.buffer.items)
        result }
    ensures count { IfSome result (λ all. all ≡ count) }
    ensures same { AreProcessesSame s.old s.new }
{
    if s.read_bytes(p, at, count) {
        Some(count)
    } else {
        None
    }
}

/// Of the `count` bytes at X reads those that one attempt may put into a pipe, after the bytes that
/// earlier attempts moved, each to its place in the buffer.
fn read_window(s: &mut ProcState, by: Requester, moved: u16, count: u16)
    requires process { by.p.0 < 33 }
    requires fits { FitsIn (cells_of s.old.memory by.p.0) by.regs.x count }
    requires left { moved < count }
    ensures window { (m : Processes) → RepresentsProcesses s.old m
        → HasWindow (cells_at m by.p.0) by.regs.x moved count s.new.buffer.items }
    ensures same { AreProcessesSame s.old s.new }
{
    load_window(&mut s.memory, by, moved, count, &mut s.buffer);
}

/// As `read_window`, but into a given buffer.
fn load_window(memory: &mut Memory, by: Requester, moved: u16, count: u16, into: &mut [u8])
    requires process { by.p.0 < 33 }
    requires fits { FitsIn (cells_of memory.old by.p.0) by.regs.x count }
    requires left { moved < count }
    requires room { count ≤ length into.old }
    ensures window { HasWindow (cells_of memory.old by.p.0) by.regs.x moved count into.new }
    ensures room { length into.new ≡ length into.old }
    ensures same { IsSameMemory memory.old memory.new }
{
    let few = PIPE_BYTES.min((count - moved) as usize);
    let start = moved as usize;
    memory.load(by.p, by.regs.x + moved, &mut into[start..start + few]);
}
