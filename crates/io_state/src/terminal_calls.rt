//! Reads and writes of terminals.

ghost use Rattle.std.specs.Prelude.{◌≡◌, ◌<◌, ◌≤◌, None, length, take, vec_len};
ghost use Rattle.io_model.specs.Line.{line_length, line_put};
ghost use Rattle.io_model.specs.Terminal.{Arrives, TerminalReadAttempt, TerminalWriteAttempt, stored_bytes};
ghost use Rattle.io_model.specs.Io.{terminal_at, with_terminal};
ghost use Rattle.io_state.specs.Sound.{ReadsNoTerminal, most_of};
ghost use Rattle.io_state.specs.Terminals as model;
ghost use Rattle.io_state.specs.Terminals.{ChangesInCall, ChangesWithDriver, MayReadTerminal, count_of};
ghost use Rattle.terminal_mgr.specs.Term.{read_of};

use crate::state::IoState;
use device_table::devices::Devices;
use io_model::pending::PendingCall;
use io_model::terminal::{Arrival, Progress, ReadKind, Reading, TYPE_AHEAD};
use os9_base::registers::Pid;
use os9_outer::terminal::CharDriver;

/// An attempt of a read of a terminal: the terminal, which call reads it, and that call.
#[derive(Clone, Copy, Debug, PartialEq, Eq)]
pub struct AttemptedRead {
    pub terminal: u8,
    pub kind: ReadKind,
    pub call: PendingCall,
}

impl IoState {
    /// An attempt of a read of a terminal (Level Two manual, SCF). It asks for the bytes of the
    /// call, but at most 256, and moves them to the front of `into`. If it waits, the call is
    /// pending; if the read is over, no call of the process is pending.
    pub fn read_terminal(
        &mut self,
        p: Pid,
        read: AttemptedRead,
        into: &mut [u8; TYPE_AHEAD],
        devices: &mut Devices,
    ) -> Progress
        requires may { MayReadTerminal self.old p.0 read.terminal read.kind read.call }
        requires there { read.terminal < vec_len devices.old.terms }
        ensures device { ChangesWithDriver CharDriver-box read.terminal
            (TerminalReadAttempt (read_of p read.kind (most_of read.call)) result)
            self.old.terminals devices.old self.new.terminals devices.new }
        ensures stored { take (count_of result) into.new ≡ stored_bytes result
            (read_of p read.kind (most_of read.call)) (terminal_at self.old read.terminal) }
        ensures few { count_of result ≤ most_of read.call }
        ensures io { ChangesInCall read.terminal p.0
            (model.pending_after result read.call) self.old self.new }
        ensures drives { devices.new.drives ≡ devices.old.drives }
        ensures count { vec_len devices.new.terms ≡ vec_len devices.old.terms }
    {
        let most = read.call.count.min(TYPE_AHEAD as u16);
        let request = Reading {
            process: p,
            kind: read.kind,
            most,
        };
        let answer = self.terminals.read(read.terminal, request, into, devices);
        self.calls[p.0 as usize] = pending_after(answer, read.call);
        answer
    }

    /// An attempt of a write of these bytes to a terminal (Level Two manual, SCF). It never waits,
    /// and no call of the process is pending after it.
    pub fn write_terminal(
        &mut self,
        p: Pid,
        terminal: u8,
        bytes: &[u8],
        devices: &mut Devices,
    ) -> Progress
        requires process { p.0 < 33 }
        requires no_read { ReadsNoTerminal self.old p.0 }
        requires terminal { terminal < 4 }
        requires there { terminal < vec_len devices.old.terms }
        requires most { length bytes.now ≤ 65535 }
        ensures device { ChangesWithDriver CharDriver-box terminal
            (TerminalWriteAttempt p bytes.now (length bytes.now) result)
            self.old.terminals devices.old self.new.terminals devices.new }
        ensures io { ChangesInCall terminal p.0 None self.old self.new }
        ensures drives { devices.new.drives ≡ devices.old.drives }
        ensures count { vec_len devices.new.terms ≡ vec_len devices.old.terms }
    {
        let answer = self.terminals.write(terminal, p, bytes, devices);
        self.calls[p.0 as usize] = None;
        answer
    }

    /// An attempt of a write of a line to a terminal, up to and with the first carriage return, and
    /// a line feed after it (Level Two manual, SCF). It never waits, and no call of the process is
    /// pending after it.
    pub fn write_terminal_line(
        &mut self,
        p: Pid,
        terminal: u8,
        bytes: &[u8],
        devices: &mut Devices,
    ) -> Progress
        requires process { p.0 < 33 }
        requires no_read { ReadsNoTerminal self.old p.0 }
        requires terminal { terminal < 4 }
        requires there { terminal < vec_len devices.old.terms }
        requires most { length bytes.now ≤ 65535 }
        ensures device { ChangesWithDriver CharDriver-box terminal
            (TerminalWriteAttempt p (line_put bytes.now) (line_length bytes.now) result)
            self.old.terminals devices.old self.new.terminals devices.new }
        ensures io { ChangesInCall terminal p.0 None self.old self.new }
        ensures drives { devices.new.drives ≡ devices.old.drives }
        ensures count { vec_len devices.new.terms ≡ vec_len devices.old.terms }
    {
        let answer = self.terminals.write_line(terminal, p, bytes, devices);
        self.calls[p.0 as usize] = None;
        answer
    }

    /// The keys of a terminal that are due at a tick arrive (Level Two manual, SCF). The result has
    /// the signal for its last user, which the caller sends.
    pub fn arrive(&mut self, terminal: u8, tick: u32, devices: &mut Devices) -> Arrival
        requires terminal { terminal < 4 }
        requires there { terminal < vec_len devices.old.terms }
        ensures device { ChangesWithDriver CharDriver-box terminal
            (λ old new before after. Arrives tick old new before after result)
            self.old.terminals devices.old self.new.terminals devices.new }
        ensures io { self.new ≡ with_terminal self.old terminal (terminal_at self.new terminal) }
        ensures drives { devices.new.drives ≡ devices.old.drives }
        ensures count { vec_len devices.new.terms ≡ vec_len devices.old.terms }
    {
        self.terminals.arrive(terminal, tick, devices)
    }

    /// The process that last attempted a read or a write of a terminal; None if there is none, or
    /// if it has ended.
    pub fn last_user(&self, terminal: u8) -> Option<Pid>
        requires { terminal < 4 }
        ensures { result ≡ (terminal_at self.now terminal).user }
    {
        self.terminals.last_user(terminal)
    }
}

/// The pending call after an attempt with this answer.
fn pending_after(answer: Progress, call: PendingCall) -> Option<PendingCall>
    ensures { result ≡ model.pending_after answer call }
{
    match answer {
        Progress::Wait => Some(call),
        Progress::Done(_) | Progress::End | Progress::Fault | Progress::NoMemory => None,
    }
}
