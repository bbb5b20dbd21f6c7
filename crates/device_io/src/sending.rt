//! Bytes that a process sends to a terminal or a pipe.

ghost use Rattle.std.specs.Prelude.{◌≡◌, ◌<◌, length, vec_len};
ghost use Rattle.os9_base.specs.Cells.{Cells};
ghost use Rattle.device_table.specs.Seen.{terminals_seen};
ghost use Rattle.io_model.specs.Again.{path_number as path_number_model};
ghost use Rattle.device_io.specs.Moving.{AreTerminals};
ghost use Rattle.device_io.specs.Sending.{IsLineFirst, IsLineOf, IsPut, IsPutAnswer, MaySend, PutEnds, Sends, SendsFrom, put_on, sender, write_call, write_code as write_code_model, write_named};
ghost use Rattle.device_io.specs.Streams.{streams};
ghost use Rattle.io_state.specs.Sound.{ReadsNoTerminal};

use crate::ends::{call_now, finish};
use crate::pipe_writes::write_pipe;
use device_table::devices::Devices;
use io_model::modes::{STANDARD_ERROR, can_write};
use io_model::path::Target;
use io_model::terminal::Progress;
use io_state::ends::refuse;
use io_state::requester::Requester;
use io_state::state::IoState;
use os9_base::call::CallEnd;
use os9_base::calls::{F_PERR, I_WRITE, I_WRITLN};
use os9_base::errors::{E_BMODE, E_BPNUM, E_UNKSVC, E_WRITE};
use os9_base::registers::{Pid, Regs};
use os9_outer::terminal::CharDriver;

/// Which call writes.
#[derive(Clone, Copy)]
pub(crate) enum WriteKind {
    /// I$Write, which sends bytes as they are.
    Bytes,
    /// I$WritLn, which sends a line.
    Line,
    /// F$PErr, which sends the line of an error.
    ErrorLine,
}

/// What a call writes: the bytes, and which call it is.
#[derive(Clone, Copy)]
pub(crate) struct ToWrite<'a> {
    pub(crate) kind: WriteKind,
    pub(crate) bytes: &'a [u8],
}

/// An attempt of a write on the path that its number names. The process does not get its result
/// yet.
///
/// # Errors
///
/// E$BPNum exactly if the number names no path, else E$BMode exactly if the path may not be
/// written; then E$Write if a terminal failed, or if the pipe is full and no other process outside
/// the same wait holds its path.
pub(crate) fn send(
    io: &mut IoState,
    devices: &mut Devices,
    by: Requester,
    to_write: &ToWrite<'_>,
) -> CallEnd
    requires process { by.p.0 < 33 }
    requires may { MaySend to_write.now.kind by io.old (length to_write.now.bytes.now) }
    requires short { length to_write.now.bytes.now < 65536 }
    requires terminals { AreTerminals io.old.paths (vec_len devices.old.terms) }
    ensures call { IsLineFirst to_write.now.kind io.old by.p.0 to_write.now.bytes.now
        → SendsFrom to_write.now.kind (write_named to_write.now.kind) by to_write.now.bytes.now
        result (streams CharDriver-box io.old devices.old)
        (streams CharDriver-box io.new devices.new) }
    ensures drives { devices.new.drives ≡ devices.old.drives }
    ensures count { vec_len devices.new.terms ≡ vec_len devices.old.terms }
{
    let Some((path, desc)) = io.open_path(by.p, path_number(to_write.kind, by.regs)) else {
        return refuse(io, by.p, E_BPNUM);
    };
    if !can_write(desc.mode) {
        return refuse(io, by.p, E_BMODE);
    }
    let code = write_code(to_write.kind);
    let call = call_now(io, by.p, code, path, to_write.bytes.len() as u16);
    if to_write.bytes.is_empty() {
        return finish(io, by.p);
    }
    match desc.target {
        Target::File(_, _) => refuse(io, by.p, E_UNKSVC),
        Target::Folder(_, _) => refuse(io, by.p, E_UNKSVC),
        Target::Term(n) => put(io, devices, by.p, n, to_write),
        Target::Pipe(pipe) => write_pipe(io, by.p, pipe, call, to_write.bytes),
    }
}

/// The path number that this kind of write uses.
fn path_number(kind: WriteKind, regs: Regs) -> u8
    ensures { result ≡ path_number_model (write_call kind) regs }
{
    match kind {
        WriteKind::Bytes | WriteKind::Line => regs.a,
        WriteKind::ErrorLine => STANDARD_ERROR,
    }
}

/// The code of the call for this kind of write.
fn write_code(kind: WriteKind) -> u8
    ensures { result ≡ write_code_model kind }
{
    match kind {
        WriteKind::Bytes => I_WRITE,
        WriteKind::Line => I_WRITLN,
        WriteKind::ErrorLine => F_PERR,
    }
}

/// An attempt of a write to a terminal.
///
/// # Errors
///
/// E$Write if the terminal failed.
fn put(io: &mut IoState, devices: &mut Devices, p: Pid, n: u8, to_write: &ToWrite<'_>) -> CallEnd
    requires process { p.0 < 33 }
    requires no_read { ReadsNoTerminal io.old p.0 }
    requires terminal { n < 4 }
    requires there { n < vec_len devices.old.terms }
    requires short { length to_write.now.bytes.now < 65536 }
    ensures call { (regs told : Regs) (cells : Cells) → IsLineOf to_write.now.kind
        to_write.now.bytes.now → Sends (put_on to_write.now.kind n to_write.now.bytes.now told)
        (sender p regs cells) io.old told result io.new (terminals_seen CharDriver-box devices.old)
        (terminals_seen CharDriver-box devices.new) }
    ensures drives { devices.new.drives ≡ devices.old.drives }
    ensures count { vec_len devices.new.terms ≡ vec_len devices.old.terms }
{
    let answer = put_as(io, devices, p, n, to_write);
    put_end(answer)
}

/// As `put`, but returns the terminal's answer.
fn put_as(
    io: &mut IoState,
    devices: &mut Devices,
    p: Pid,
    n: u8,
    to_write: &ToWrite<'_>,
) -> Progress
    requires process { p.0 < 33 }
    requires no_read { ReadsNoTerminal io.old p.0 }
    requires terminal { n < 4 }
    requires there { n < vec_len devices.old.terms }
    requires short { length to_write.now.bytes.now < 65536 }
    ensures put { IsPut to_write.now.kind p n to_write.now.bytes.now result
        (streams CharDriver-box io.old devices.old) (streams CharDriver-box io.new devices.new) }
    ensures drives { devices.new.drives ≡ devices.old.drives }
    ensures count { vec_len devices.new.terms ≡ vec_len devices.old.terms }
{
    match to_write.kind {
        WriteKind::Bytes => io.write_terminal(p, n, to_write.bytes, devices),
        WriteKind::Line => io.write_terminal_line(p, n, to_write.bytes, devices),
        WriteKind::ErrorLine => io.write_terminal_line(p, n, to_write.bytes, devices),
    }
}

/// How a write of a terminal ends, by the terminal's answer.
fn put_end(answer: Progress) -> CallEnd
    requires { IsPutAnswer answer }
    ensures { PutEnds answer result }
{
    match answer {
        Progress::Done(_) => CallEnd::Done,
        Progress::Fault => CallEnd::Error(E_WRITE),
        Progress::NoMemory => CallEnd::NoMemory,
        Progress::Wait | Progress::End => unreachable!(),
    }
}
