//! The terminals of a machine.

ghost use Rattle.std.specs.Prelude.{◌≡◌, ◌<◌, ◌≤◌, not, false, IfOk, length, map, replicate, slice_index_or, slice_set, take, vec_len};
ghost use Rattle.std.specs.Option.{option_map_or};
ghost use Rattle.device_table.specs.Seen.{boxed_terminal_state};
ghost use Rattle.io_model.specs.Line.{line_length, line_put};
ghost use Rattle.io_model.specs.Terminal.{new_terminal, Arrives, TerminalReadAttempt, TerminalWriteAttempt, is_process, forgotten, released, stored_bytes, stored_over};
ghost use Rattle.io_model.specs.Waiting.{may_read_terminal};
ghost use Rattle.io_state.specs.Terminals.{ChangesAlone, ChangesWithDriver, MayBeAsked, count_of};

use device_table::devices::Devices;
use io_model::terminal::{Arrival, Progress, ReadKind, Reading, TYPE_AHEAD};
use os9_base::call::OutOfMemory;
use os9_base::registers::Pid;
use os9_outer::terminal::CharDriver;
use std::alloc::Global;
use std::marker::Model;
use terminal_mgr::term::Term;

/// The maximum number of terminals of a machine: TERM and T1 to T3.
const TERMINALS: usize = 4;

/// TERM, T1, T2 and T3.
#[derive(Drop)]
pub struct Terminals {
    terms: Vec<Term>,
}

impl Model for Terminals {
    ghost use Rattle.std.specs.Prelude.{◌≡◌, List, length};
    ghost use Rattle.io_model.specs.Terminal.{Terminal};

    ghost Value = { List Terminal };

    ghost view = { λ t. t.terms.items };

    ghost invariant = { λ t. length t.terms.items ≡ 4 };
}

impl Terminals {
    /// Terminals on which nothing was typed.
    pub fn new(alloc: Global) -> Result<Terminals, OutOfMemory>
        ensures { IfOk result (λ terminals. terminals ≡ replicate 4 new_terminal) }
    {
        Ok(Terminals {
            terms: new_terms(alloc)?,
        })
    }

    /// The number of keys that the type-ahead of a terminal holds.
    pub fn waiting(&self, n: u8) -> u16
        requires { n < 4 }
        ensures { result ≡ length (slice_index_or self.now n new_terminal).ahead }
    {
        self.terms[n as usize].waiting()
    }

    /// The process that last attempted a read or a write of a terminal, if there is one.
    pub fn last_user(&self, n: u8) -> Option<Pid>
        requires { n < 4 }
        ensures { result ≡ (slice_index_or self.now n new_terminal).user }
    {
        self.terms[n as usize].last_user()
    }

    /// May a read of a terminal by a process go on: is a key there, and no other process's read
    /// unfinished?
    pub fn may_read(&self, n: u8, p: Pid) -> bool
        requires { n < 4 }
        ensures { result ≡ may_read_terminal p.0 (slice_index_or self.now n new_terminal) }
    {
        self.terms[n as usize].waiting() != 0 && !is_taken(p, self.terms[n as usize].reader())
    }

    /// Drops the unfinished read of a process on a terminal, if it has one there.
    pub fn release(&mut self, n: u8, p: Pid)
        requires { n < 4 }
        ensures { self.new
            ≡ slice_set self.old n (released p (slice_index_or self.old n new_terminal)) }
    {
        self.terms[n as usize].release(p);
    }

    /// Removes every trace of a process from the terminals.
    pub fn forget(&mut self, p: Pid)
        ensures { self.new ≡ map (forgotten p) self.old }
    {
        forget(&mut self.terms, p);
    }

    /// An attempt of a read of a terminal. It moves the bytes to the front of `into`.
    pub fn read(
        &mut self,
        n: u8,
        request: Reading,
        into: &mut [u8; TYPE_AHEAD],
        devices: &mut Devices,
    ) -> Progress
        requires terminal { n < 4 }
        requires there { n < vec_len devices.old.terms }
        requires asked { MayBeAsked request (slice_index_or self.old n new_terminal) }
        ensures device { ChangesWithDriver CharDriver-box n (TerminalReadAttempt request result)
            self.old devices.old self.new devices.new }
        ensures stored { take (count_of result) into.new
            ≡ stored_bytes result request (slice_index_or self.old n new_terminal) }
        ensures few { count_of result ≤ request.most }
        ensures terminals { ChangesAlone n self.old self.new }
        ensures drives { devices.new.drives ≡ devices.old.drives }
        ensures count { vec_len devices.new.terms ≡ vec_len devices.old.terms }
    {
        read_in_box(
            &mut self.terms[n as usize],
            request,
            &mut into[..request.most as usize],
            &mut devices.terms[n as usize],
        )
    }

    /// An attempt of a write of these bytes to a terminal.
    pub fn write(&mut self, n: u8, p: Pid, bytes: &[u8], devices: &mut Devices) -> Progress
        requires terminal { n < 4 }
        requires there { n < vec_len devices.old.terms }
        requires most { length bytes.now ≤ 65535 }
        ensures device { ChangesWithDriver CharDriver-box n
            (TerminalWriteAttempt p bytes.now (length bytes.now) result)
            self.old devices.old self.new devices.new }
        ensures terminals { ChangesAlone n self.old self.new }
        ensures drives { devices.new.drives ≡ devices.old.drives }
        ensures count { vec_len devices.new.terms ≡ vec_len devices.old.terms }
    {
        write_in_box(
            &mut self.terms[n as usize],
            p,
            bytes,
            &mut devices.terms[n as usize],
        )
    }

    /// An attempt of a write of a line to a terminal, with a line feed after its carriage return.
    pub fn write_line(&mut self, n: u8, p: Pid, bytes: &[u8], devices: &mut Devices) -> Progress
        requires terminal { n < 4 }
        requires there { n < vec_len devices.old.terms }
        requires most { length bytes.now ≤ 65535 }
        ensures device { ChangesWithDriver CharDriver-box n
            (TerminalWriteAttempt p (line_put bytes.now) (line_length bytes.now) result)
            self.old devices.old self.new devices.new }
        ensures terminals { ChangesAlone n self.old self.new }
        ensures drives { devices.new.drives ≡ devices.old.drives }
        ensures count { vec_len devices.new.terms ≡ vec_len devices.old.terms }
    {
        write_line_in_box(
            &mut self.terms[n as usize],
            p,
            bytes,
            &mut devices.terms[n as usize],
        )
    }

    /// The keys of a terminal that are due at a tick arrive.
    pub fn arrive(&mut self, n: u8, tick: u32, devices: &mut Devices) -> Arrival
        requires terminal { n < 4 }
        requires there { n < vec_len devices.old.terms }
        ensures device { ChangesWithDriver CharDriver-box n
            (λ old new before after. Arrives tick old new before after result)
            self.old devices.old self.new devices.new }
        ensures terminals { ChangesAlone n self.old self.new }
        ensures drives { devices.new.drives ≡ devices.old.drives }
        ensures count { vec_len devices.new.terms ≡ vec_len devices.old.terms }
    {
        arrive_in_box(
            &mut self.terms[n as usize],
            tick,
            &mut devices.terms[n as usize],
        )
    }
}

/// An attempt of a read of the terminal with the driver in a box.
fn read_in_box(
    term: &mut Term,
    request: Reading,
    into: &mut [u8],
    driver: &mut Box<dyn CharDriver>,
) -> Progress
    requires asked { MayBeAsked request term.old }
    requires buffer { request.most ≡ length into.old }
    ensures read { TerminalReadAttempt request result term.old term.new
        (boxed_terminal_state CharDriver-box driver.old)
        (boxed_terminal_state CharDriver-box driver.new) }
    ensures stored { into.new ≡ stored_over (stored_bytes result request term.old) into.old }
{
    match request.kind {
        ReadKind::Bytes => term.read(request.process, request.most, into, &mut **driver),
        ReadKind::WholeLine => term.read_line(request.process, request.most, into, &mut **driver),
    }
}

/// An attempt of a write of bytes to the terminal.
fn write_in_box(term: &mut Term, p: Pid, bytes: &[u8], driver: &mut Box<dyn CharDriver>) -> Progress
    requires { length bytes.now ≤ 65535 }
    ensures { TerminalWriteAttempt p bytes.now (length bytes.now) result term.old term.new
        (boxed_terminal_state CharDriver-box driver.old)
        (boxed_terminal_state CharDriver-box driver.new) }
{
    term.write(p, bytes, &mut **driver)
}

/// An attempt of a write of a line to the terminal.
fn write_line_in_box(
    term: &mut Term,
    p: Pid,
    bytes: &[u8],
    driver: &mut Box<dyn CharDriver>,
) -> Progress
    requires { length bytes.now ≤ 65535 }
    ensures { TerminalWriteAttempt p (line_put bytes.now) (line_length bytes.now) result term.old
        term.new (boxed_terminal_state CharDriver-box driver.old)
        (boxed_terminal_state CharDriver-box driver.new) }
{
    term.write_line(p, bytes, &mut **driver)
}

/// The terminal's keys that are due at a tick arrive.
fn arrive_in_box(term: &mut Term, tick: u32, driver: &mut Box<dyn CharDriver>) -> Arrival
    ensures { Arrives tick term.old term.new (boxed_terminal_state CharDriver-box driver.old)
        (boxed_terminal_state CharDriver-box driver.new) result }
{
    term.arrive(tick, &mut **driver)
}

/// Does another process than `p` have the unfinished read, if there is one?
fn is_taken(p: Pid, reader: Option<Pid>) -> bool
    ensures { result ≡ option_map_or (λ other. not (is_process p other)) reader false }
{
    match reader {
        Some(other) => other != p,
        None => false,
    }
}

/// Removes every trace of a process from these terminals.
fn forget(terms: &mut [Term], p: Pid)
    ensures { terms.new ≡ map (forgotten p) terms.old }
{
    for term in terms.iter_mut() {
        term.forget(p);
    }
}

/// Four terminals.
fn new_terms(alloc: Global) -> Result<Vec<Term>, OutOfMemory>
    ensures { IfOk result (λ terms. terms.items ≡ replicate 4 new_terminal) }
{
    let mut terms = Vec::with_capacity(alloc, TERMINALS)?;
    'fill: while terms.len() < TERMINALS {
        let term = Term::new(alloc)?;
        if terms.push(term).is_err() {
            return Err(OutOfMemory);
        }
    }
    Ok(terms)
}
