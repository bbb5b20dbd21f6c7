//! The answers of a terminal, with worked cases.

ghost use Rattle.std.specs.Prelude.{◌≡◌, true, Some, None, [], ◌∷◌, ◌++◌, codes};
ghost use Rattle.io_model.specs.Terminal.{Arrives, TerminalWriteAttempt, read_attempt, new_terminal, used_by, driver_with};

use os9_base::registers::Pid;

/// The maximum number of keys in the type-ahead of a terminal (this project's own).
pub const TYPE_AHEAD: usize = 256;

/// Which call reads a terminal.
#[derive(Clone, Copy, Debug, PartialEq, Eq)]
pub enum ReadKind {
    /// I$Read, which moves keys unchanged.
    Bytes,
    /// I$ReadLn, which edits a line.
    WholeLine,
}

/// A read of a terminal.
#[derive(Clone, Copy, Debug, PartialEq, Eq)]
pub struct Reading {
    pub process: Pid,
    pub kind: ReadKind,
    /// The number of bytes that it asks for, from 1 to 256.
    pub most: u16,
}

/// How an attempt of a read or a write of a terminal ended.
#[derive(Clone, Copy, Debug, PartialEq, Eq)]
pub enum Progress {
    /// It is done, and moved this number of bytes.
    Done(u16),
    /// It is attempted again after a key that it may use has arrived.
    Wait,
    /// The end of the file.
    End,
    /// The terminal failed. Its driver counts it.
    Fault,
    /// Out of memory.
    NoMemory,
}

/// The result of the keys that arrived in a tick.
#[derive(Clone, Copy, Debug, PartialEq, Eq)]
pub struct Arrival {
    /// The signal to send to the last user, if a key sends one.
    pub signal: Option<u8>,
    /// False if a bell found no memory.
    pub memory: bool,
}

/// A line in the type-ahead is read at once, and the keys after it stay.
pub fn waiting_line()
    ensures { read_attempt
        (record { process = record { 0 = 2 }; kind = ReadKind.WholeLine; most = 80 })
        (record new_terminal { ahead = 97 ∷ 98 ∷ 120 ∷ 8 ∷ 99 ∷ 13 ∷ 100 ∷ [] })
        ≡ record {
          answer = Progress.Done 4;
          terminal = record (used_by (record { 0 = 2 }) new_terminal) {
            ahead = 100 ∷ [];
            line = record { bytes = []; last = codes "abc" };
          };
          echo = 97 ∷ 98 ∷ 120 ∷ 8 ∷ 32 ∷ 8 ∷ 99 ∷ 13 ∷ 10 ∷ [];
          stored = codes "abc" ++ 13 ∷ [];
        } }
{}

/// A write of three bytes to a terminal that fails at the second one leaves one byte out.
pub fn terminal_put_fault()
    ensures { TerminalWriteAttempt (record { 0 = 2 }) (97 ∷ 98 ∷ 99 ∷ []) 3 Progress.Fault
        new_terminal (used_by (record { 0 = 2 }) new_terminal)
        (driver_with [] [] 0) (driver_with [] (97 ∷ []) 1) }
{}

/// A terminal that fails to give a key ends the poll of that tick, and nothing else changes. The
/// key arrives in the next tick.
pub fn key_fault()
    ensures first { Arrives 1 new_terminal new_terminal
        (driver_with (record { tick = 1; byte = 97 } ∷ []) [] 0)
        (driver_with (record { tick = 1; byte = 97 } ∷ []) [] 1)
        (record { signal = None; memory = true }) }
    ensures second { Arrives 2 new_terminal (record new_terminal { ahead = 97 ∷ [] })
        (driver_with (record { tick = 1; byte = 97 } ∷ []) [] 1) (driver_with [] [] 1)
        (record { signal = None; memory = true }) }
{}
