ghost use Rattle.std.specs.Prelude.{◌≡◌, ◌<◌, ◌≤◌, IfOk, length};
ghost use Rattle.io_model.specs.Line.{line_length, line_put};
ghost use Rattle.io_model.specs.Terminal.{new_terminal, reader, released, forgotten, Arrives, TerminalReadAttempt, TerminalWriteAttempt, IsSameCall, stored_over, stored_bytes};
ghost use Rattle.terminal_mgr.specs.Term.{lent_terminal_state, read_of};
ghost use Rattle.io_model.specs.declared.terminal.ReadKind.TheVariants.{Bytes, WholeLine};

use crate::arrival::poll;
use crate::driver::{line_len, put_bytes, put_line};
use crate::type_ahead::TypeAhead;
use crate::typist::{read_keys, refused};
use crate::unfinished::Unfinished;
use io_model::terminal::{Arrival, Progress, ReadKind, Reading};
use os9_base::call::OutOfMemory;
use os9_base::registers::Pid;
use os9_outer::terminal::CharDriver;
use std::alloc::Global;
use std::marker::Model;

/// A terminal: its type-ahead, its unfinished read and its last user (Level Two manual, SCF). Its
/// driver is lent to each call that uses it.
#[derive(Drop)]
pub struct Term {
    ahead: TypeAhead,
    unfinished: Unfinished,
    user: Option<Pid>,
}

impl Model for Term {
    ghost use Rattle.io_model.specs.Terminal.{Terminal};
    ghost use Rattle.terminal_mgr.specs.Term.{terminal_of, IsTerminal};

    ghost Value = { Terminal };

    ghost view = { λ t. terminal_of t.ahead t.unfinished.line t.unfinished.reading t.user };

    ghost invariant = { λ t. IsTerminal (terminal_of t.ahead t.unfinished.line t.unfinished.reading t.user) };
}

impl Term {
    /// A terminal on which nothing was typed. Only this call and the driver's `put` take memory.
    pub fn new(alloc: Global) -> Result<Term, OutOfMemory>
        ensures { IfOk result (λ term. term ≡ new_terminal) }
    {
        Ok(Term {
            ahead: TypeAhead::new(alloc)?,
            unfinished: Unfinished::none(),
            user: None,
        })
    }

    /// The number of keys that the type-ahead holds, at most 256.
    pub fn waiting(&self) -> u16
        ensures len { result ≡ length self.now.ahead }
        ensures within { result ≤ 256 }
    {
        self.ahead.len()
    }

    /// The keys that are due at a tick arrive. A key that sends a signal is not kept; the others go
    /// into the type-ahead, and a bell is put for each key that finds it full. The poll ends early
    /// if the driver fails to give a key, which is not lost then. A failure to put a bell is
    /// ignored.
    pub fn arrive(&mut self, tick: u32, d: &mut dyn CharDriver) -> Arrival
        ensures { Arrives tick self.old self.new (lent_terminal_state CharDriver-dyn d.old)
            (lent_terminal_state CharDriver-dyn d.new) result }
    {
        poll(&mut self.ahead, tick, d)
    }

    /// The process with the unfinished read. None if there is none.
    pub fn reader(&self) -> Option<Pid>
        ensures { result ≡ reader self.now }
    {
        match self.unfinished.reading {
            Some(reading) => Some(reading.process),
            None => None,
        }
    }

    /// The process that last attempted a read or a write here, even if it waited or failed. None if
    /// there is none, or if it was forgotten since. A key that sends a signal sends it to this
    /// process.
    pub fn last_user(&self) -> Option<Pid>
        ensures { result ≡ self.now.user }
    {
        self.user
    }

    /// An attempt of I$Read of at most `most` bytes, from 1 to 256, which are stored into `into`
    /// once it is done (Level Two manual, I$Read). It waits while another process's read is
    /// unfinished, and if the keys of the type-ahead do not finish it.
    pub fn read(&mut self, p: Pid, most: u16, into: &mut [u8], d: &mut dyn CharDriver) -> Progress
        requires some { 1 ≤ most }
        requires most { most ≤ 256 }
        requires buffer { most ≤ length into.old }
        requires same { IsSameCall (read_of p Bytes most) self.old }
        ensures read { TerminalReadAttempt (read_of p Bytes most) result self.old self.new
            (lent_terminal_state CharDriver-dyn d.old) (lent_terminal_state CharDriver-dyn d.new) }
        ensures stored { into.new ≡ stored_over (stored_bytes result
            (read_of p Bytes most) self.old) into.old }
    {
        self.attempt(
            Reading {
                process: p,
                kind: ReadKind::Bytes,
                most,
            },
            into,
            d,
        )
    }

    /// An attempt of I$ReadLn of at most `most` bytes, from 1 to 256, with editing (Level Two
    /// manual, I$ReadLn). It stores and waits as [`Term::read`] does.
    pub fn read_line(
        &mut self,
        p: Pid,
        most: u16,
        into: &mut [u8],
        d: &mut dyn CharDriver,
    ) -> Progress
        requires some { 1 ≤ most }
        requires most { most ≤ 256 }
        requires buffer { most ≤ length into.old }
        requires same { IsSameCall (read_of p WholeLine most) self.old }
        ensures read { TerminalReadAttempt (read_of p WholeLine most) result self.old self.new
            (lent_terminal_state CharDriver-dyn d.old) (lent_terminal_state CharDriver-dyn d.new) }
        ensures stored { into.new ≡ stored_over (stored_bytes result
            (read_of p WholeLine most) self.old) into.old }
    {
        self.attempt(
            Reading {
                process: p,
                kind: ReadKind::WholeLine,
                most,
            },
            into,
            d,
        )
    }

    fn attempt(&mut self, request: Reading, into: &mut [u8], d: &mut dyn CharDriver) -> Progress
        requires some { 1 ≤ request.most }
        requires most { request.most ≤ 256 }
        requires buffer { request.most ≤ length into.old }
        requires same { IsSameCall request self.old }
        ensures read { TerminalReadAttempt request result self.old self.new
            (lent_terminal_state CharDriver-dyn d.old) (lent_terminal_state CharDriver-dyn d.new) }
        ensures stored { into.new ≡ stored_over (stored_bytes result request self.old) into.old }
    {
        self.user = Some(request.process);
        if let Some(reading) = self.unfinished.reading {
            if reading.process != request.process {
                return Progress::Wait;
            }
        }
        read_keys(&mut self.ahead, &mut self.unfinished, request, into, d)
    }

    /// I$Write of at most 65,535 bytes: puts them. It never waits. If a byte is refused, the bytes
    /// before it are out, and the unfinished read of any process is dropped.
    pub fn write(&mut self, p: Pid, bytes: &[u8], d: &mut dyn CharDriver) -> Progress
        requires { length bytes.now ≤ 65535 }
        ensures { TerminalWriteAttempt p bytes.now (length bytes.now) result self.old self.new
            (lent_terminal_state CharDriver-dyn d.old) (lent_terminal_state CharDriver-dyn d.new) }
    {
        self.user = Some(p);
        match put_bytes(d, bytes) {
            Ok(()) => Progress::Done(bytes.len() as u16),
            Err(refusal) => {
                self.unfinished.drop_read();
                refused(refusal)
            }
        }
    }

    /// I$WritLn: puts the bytes up to and with the first carriage return, and a line feed after it.
    /// The returned count does not include the line feed. Otherwise as [`Term::write`].
    pub fn write_line(&mut self, p: Pid, bytes: &[u8], d: &mut dyn CharDriver) -> Progress
        requires { length bytes.now ≤ 65535 }
        ensures { TerminalWriteAttempt p (line_put bytes.now) (line_length bytes.now) result
            self.old self.new (lent_terminal_state CharDriver-dyn d.old)
            (lent_terminal_state CharDriver-dyn d.new) }
    {
        self.user = Some(p);
        match put_line(d, bytes) {
            Ok(()) => Progress::Done(line_len(bytes) as u16),
            Err(refusal) => {
                self.unfinished.drop_read();
                refused(refusal)
            }
        }
    }

    /// Drops the unfinished read of a process, if it has one here. The last user stays.
    pub fn release(&mut self, p: Pid)
        ensures { self.new ≡ released p self.old }
    {
        if let Some(reading) = self.unfinished.reading {
            if reading.process == p {
                self.unfinished.drop_read();
            }
        }
    }

    /// Drops the unfinished read of a process that ends, and forgets the last user if it is this
    /// process.
    pub fn forget(&mut self, p: Pid)
        ensures { self.new ≡ forgotten p self.old }
    {
        self.release(p);
        if let Some(user) = self.user {
            if user == p {
                self.user = None;
            }
        }
    }
}
