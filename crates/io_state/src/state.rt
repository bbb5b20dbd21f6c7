//! The state of input and output.

ghost use Rattle.std.specs.Prelude.{◌≡◌, ◌<◌, Some, None, IfOk, IfSome, IsOk, IsErr, option_map, length, replicate};
ghost use Rattle.std.specs.Result.{result_ok};
ghost use Rattle.io_model.specs.Path.{ArePaths, IsOpen, slot_of, new_number, free_number, paths_after_begin, paths_after_dup};
ghost use Rattle.io_model.specs.Pipe.{pipes_after_begin};
ghost use Rattle.io_model.specs.declared.path.Target.TheVariants.{Term};
ghost use Rattle.io_model.specs.Status.{ready_count as ready_count_model};
ghost use Rattle.io_state.specs.Sound.{IsThere, MayWait, ReadsNoTerminal, pipe_number, pipe_opened};
ghost use Rattle.io_model.specs.Close.{after_close};
ghost use Rattle.io_model.specs.Io.{first_io, first_paths as first_paths_model, new_desc as new_desc_model, open_path as open_path_model, with_paths, with_pipes, with_call, pending_at};

use crate::terminals::Terminals;
use io_model::path::{Desc, PathsFull, SysPath, Target};
use io_model::pending::PendingCall;
use io_model::pipe::PipeId;
use os9_base::call::OutOfMemory;
use os9_base::registers::Pid;
use path_desc::paths::Paths;
use pipe_mgr::pipes::Pipes;
use std::alloc::Global;
use std::marker::Model;

/// Processes, by number from 0 to 32.
const PROCESSES: usize = 33;

/// The paths, the terminals, the pipes, and each process's pending call on one of them (Level Two
/// manual, "I/O system").
#[derive(Drop)]
pub struct IoState {
    pub(crate) paths: Paths,
    pub(crate) terminals: Terminals,
    pub(crate) pipes: Pipes,
    pub(crate) calls: [Option<PendingCall>; PROCESSES],
}

impl Model for IoState {
    ghost use Rattle.io_model.specs.Io.{Io};
    ghost use Rattle.io_state.specs.Sound.{IsIo};

    ghost Value = { Io };

    ghost view = { λ s. record { paths = s.paths; terminals = s.terminals; pipes = s.pipes; calls = s.calls } };

    ghost invariant = { λ s. IsIo
        (record { paths = s.paths; terminals = s.terminals; pipes = s.pipes; calls = s.calls }) };
}

impl IoState {
    /// The state of a machine with process 2, whose standard paths are one path on TERM.
    pub fn new(alloc: Global) -> Result<IoState, OutOfMemory>
        ensures { IfOk result (λ io. io ≡ first_io) }
    {
        Ok(IoState {
            paths: first_paths(alloc)?,
            terminals: Terminals::new(alloc)?,
            pipes: Pipes::new(alloc)?,
            calls: [None; PROCESSES],
        })
    }

    /// The system path that a number of a process names; None if it names none.
    pub fn slot(&self, p: Pid, n: u8) -> Option<SysPath>
        ensures { result ≡ slot_of self.now.paths p.0 n }
    {
        self.paths.slot(p, n)
    }

    /// The path that a number of a process names, and its descriptor; None if it names none.
    pub fn open_path(&self, p: Pid, n: u8) -> Option<(SysPath, Desc)>
        ensures path { option_map (λ found. record { path = found.0; desc = found.1 }) result
            ≡ open_path_model self.now p.0 n }
        ensures there { IfSome result (λ found. IsThere self.now found.1.target) }
        ensures low { IfSome result (λ found. found.0.0 < 65) }
    {
        let path = self.paths.slot(p, n)?;
        let desc = self.paths.desc(path);
        Some((path, desc))
    }

    /// The number of bytes that an existing terminal or pipe has for a read.
    pub fn ready_count(&self, target: Target) -> u16
        requires { IsThere self.now target }
        ensures { result ≡ ready_count_model self.now target }
    {
        match target {
            Target::File(_, _) | Target::Folder(_, _) => 0,
            Target::Term(terminal) => self.terminals.waiting(terminal),
            Target::Pipe(pipe) => self.pipes.held(PipeId(pipe)),
        }
    }

    /// Opens a path of a process on a terminal. It gets the least free number of the process.
    ///
    /// # Errors
    ///
    /// `PathsFull` if the process's sixteen numbers or the 64 system paths are in use. A refused
    /// call changes nothing.
    pub fn begin_terminal(&mut self, p: Pid, terminal: u8, mode: u8) -> Result<u8, PathsFull>
        requires process { p.0 < 33 }
        requires terminal { terminal < 4 }
        ensures number { result_ok result ≡ new_number self.old.paths p.0 }
        ensures io { self.new ≡ with_paths self.old
            (paths_after_begin self.old.paths p.0 (new_desc_model (Term terminal) mode)) }
    {
        self.paths.begin(p, new_desc(Target::Term(terminal), mode))
    }

    /// Makes a pipe, and opens a path of a process on it. The path gets the least free number of
    /// the process.
    ///
    /// # Errors
    ///
    /// `PathsFull` if the process's sixteen numbers, the 64 system paths or the sixteen pipes are
    /// in use. A refused call changes nothing.
    pub fn begin_pipe(&mut self, p: Pid, mode: u8) -> Result<u8, PathsFull>
        requires { p.0 < 33 }
        ensures number { result_ok result ≡ pipe_number self.old p.0 }
        ensures opened { IsOk result → self.new ≡ pipe_opened self.old p.0 mode }
        ensures kept { IsErr result → self.new ≡ self.old }
    {
        if self.paths.next_number(p).is_none() {
            return Err(PathsFull);
        }
        let Some(pipe) = self.pipes.begin() else {
            return Err(PathsFull);
        };
        self.paths.begin(p, new_desc(Target::Pipe(pipe.0), mode))
    }

    /// Gives a path of a process another number.
    ///
    /// # Errors
    ///
    /// `PathsFull` if the process's sixteen numbers are in use. A refused call changes nothing.
    pub fn dup(&mut self, p: Pid, n: u8) -> Result<u8, PathsFull>
        requires { IsOpen self.old.paths p.0 n }
        ensures number { result_ok result ≡ free_number self.old.paths p.0 }
        ensures io { self.new
            ≡ with_paths self.old (paths_after_dup self.old.paths p.0 n) }
    {
        self.paths.dup(p, n)
    }

    /// Closes a number of a process that waits in no call. A path ends with its last number, and a
    /// pipe with its path.
    pub fn close(&mut self, p: Pid, n: u8)
        requires open { IsOpen self.old.paths p.0 n }
        requires quiet { pending_at self.old p.0 ≡ None }
        ensures { self.new ≡ after_close self.old p.0 n }
    {
        let Some(desc) = self.paths.close(p, n) else {
            return;
        };
        if let Target::Pipe(pipe) = desc.target {
            self.pipes.finish(PipeId(pipe));
        }
    }

    /// Keeps a pending call of a process, or none, in place of the old one, which must not be a
    /// read of a terminal.
    pub fn keep(&mut self, p: Pid, pending: Option<PendingCall>)
        requires process { p.0 < 33 }
        requires may { IfSome pending (MayWait self.old.paths p.0) }
        requires no_read { ReadsNoTerminal self.old p.0 }
        ensures { self.new ≡ with_call self.old p.0 pending }
    {
        self.calls[p.0 as usize] = pending;
    }
}

/// The paths of process 2: its numbers 0, 1 and 2 are images of one path on TERM.
fn first_paths(alloc: Global) -> Result<Paths, OutOfMemory>
    ensures paths { IfOk result (λ paths. paths ≡ first_paths_model) }
    ensures shape { IfOk result ArePaths }
{
    let mut paths = Paths::new(alloc)?;
    let first = Pid(2);
    let number = paths.begin(first, new_desc(Target::Term(0), 3));
    if let Ok(n) = number {
        let _second = paths.dup(first, n);
        let _third = paths.dup(first, n);
    }
    Ok(paths)
}

/// The descriptor of a new path: its position is 0, and its requests do not wait.
pub fn new_desc(target: Target, mode: u8) -> Desc
    ensures { result ≡ new_desc_model target mode }
{
    let at = 0;
    let ticks = 0;
    Desc {
        target,
        mode,
        at,
        ticks,
    }
}
