//! The beginning and the end of processes in the state of input and output.

ghost use Rattle.std.specs.Prelude.{◌≡◌, ◌<◌, None};
ghost use Rattle.io_model.specs.Path.{slot_of};
ghost use Rattle.io_model.specs.Io.{pending_at, with_call};
ghost use Rattle.io_model.specs.Processes.{closed_below, closed_if_open, io_ended, io_started, without_user};

use crate::state::IoState;
use io_model::path::PROCESS_PATHS;
use os9_base::registers::Pid;

impl IoState {
    /// Gives a new process images of its parent's standard paths (System Programmer's Manual,
    /// F$Fork). No call of it is pending.
    pub fn start(&mut self, parent: Pid, child: Pid)
        requires parent { parent.0 < 33 }
        requires child { child.0 < 33 }
        requires quiet { pending_at self.old child.0 ≡ None }
        ensures { self.new ≡ io_started self.old parent.0 child.0 }
    {
        self.paths.inherit(parent, child);
    }

    /// Ends a process (System Programmer's Manual, F$Exit): its paths are closed, its unfinished
    /// reads and its pending call are dropped, and no terminal has it as its last user.
    pub fn end(&mut self, p: Pid)
        requires { p.0 < 33 }
        ensures { self.new ≡ io_ended self.old p.0 }
    {
        self.forget(p);
        self.close_all(p);
    }

    /// Removes every trace of a process from the terminals, and keeps no call of it.
    fn forget(&mut self, p: Pid)
        requires { p.0 < 33 }
        ensures io { self.new ≡ with_call (without_user self.old p.0) p.0 None }
        ensures quiet { pending_at self.new p.0 ≡ None }
    {
        self.terminals.forget(p);
        self.calls[p.0 as usize] = None;
    }

    /// Closes the numbers of a process without a pending call.
    fn close_all(&mut self, p: Pid)
        requires { pending_at self.old p.0 ≡ None }
        ensures { self.new ≡ closed_below self.old p.0 16 }
    {
        for number in 0..PROCESS_PATHS {
            self.close_if_open(p, number as u8);
        }
    }

    /// Closes a number of the process, if it names a path.
    fn close_if_open(&mut self, p: Pid, n: u8)
        requires { pending_at self.old p.0 ≡ None }
        ensures io { self.new ≡ closed_if_open self.old p.0 n (slot_of self.old.paths p.0 n) }
        ensures quiet { pending_at self.new p.0 ≡ None }
    {
        if self.slot(p, n).is_some() {
            self.close(p, n);
        }
    }
}
