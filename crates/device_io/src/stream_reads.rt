//! I$Read and I$ReadLn (System Programmer's Manual, I$Read and I$ReadLn).

ghost use Rattle.std.specs.Prelude.{◌≡◌, ℕ, vec_len};
ghost use Rattle.io_model.specs.Read as read_rules;
ghost use Rattle.io_model.specs.Read.{read_call};
ghost use Rattle.io_model.specs.declared.io_call.IoCall.TheVariants as Call;
ghost use Rattle.io_state.specs.Context.{InCall, SameDrives};
ghost use Rattle.device_io.specs.Moving.{MayAttemptIo, read_step};
ghost use Rattle.device_io.specs.Streams.{streams};
ghost use Rattle.device_io.specs.Trying.{IoAttemptedFrom, TriesIoStepFrom, WantsMemoryFrom};

use crate::ends::call_now;
use crate::pipe_reads::{read_pipe, read_pipe_line};
use crate::terminals::read_terminal;
use device_table::devices::Devices;
use io_model::modes::can_read;
use io_model::path::Target;
use io_model::terminal::ReadKind;
use io_state::ends::{answer, refuse};
use io_state::requester::Requester;
use io_state::state::IoState;
use io_state::terminal_calls::AttemptedRead;
use os9_base::call::CallEnd;
use os9_base::calls::{I_READ, I_READLN};
use os9_base::errors::{E_BMODE, E_BPADDR, E_BPNUM, E_UNKSVC};
use os9_outer::terminal::CharDriver;
use proc_state::state::ProcState;

/// I$Read: reads bytes (System Programmer's Manual, I$Read). Takes the path in A, the address of
/// the buffer in X and the maximum count of bytes in Y; returns the count in Y. A read of a pipe
/// waits until the pipe has a byte, a read of a terminal until a carriage return or the smaller of
/// Y and 256 bytes were moved. If it is refused or waits, registers and bytes do not change.
///
/// # Errors
///
/// E$BPAddr exactly if a byte of the buffer is in no named slot or past `FFFF`, else E$BPNum
/// exactly if the number names no path, else E$BMode exactly if the path may not be read; then
/// E$EOF at the end of the file, and E$Write if a terminal failed.
pub fn i_read(s: &mut ProcState, io: &mut IoState, devices: &mut Devices, by: Requester) -> CallEnd
    requires calls { InCall by s.old }
    requires may { MayAttemptIo Call.Read s.old io.old by.p.0 (vec_len devices.old.terms) }
    ensures call { (drives : ℕ) → IoAttemptedFrom Call.Read drives by.p.0 result s.old s.new
        (streams CharDriver-box io.old devices.old) (streams CharDriver-box io.new devices.new) }
    ensures memory { (drives : ℕ) → WantsMemoryFrom Call.Read drives by.p.0 result s.old
        (streams CharDriver-box io.old devices.old) (streams CharDriver-box io.new devices.new) }
    ensures kept { SameDrives by s.new devices.old devices.new }
{
    read(s, io, devices, by, ReadKind::Bytes)
}

/// I$ReadLn: reads a line (System Programmer's Manual, I$ReadLn). Takes the path in A, the address
/// of the buffer in X and the maximum count of bytes in Y; returns the count in Y, with a carriage
/// return counted. It waits on a terminal until a carriage return, on a pipe until a carriage
/// return or Y bytes were moved.
///
/// # Errors
///
/// E$BPAddr exactly if a byte of the buffer is in no named slot or past `FFFF`, else E$BPNum
/// exactly if the number names no path, else E$BMode exactly if the path may not be read; then
/// E$EOF at the end of the file, and E$Write if a terminal failed.
pub fn i_readln(
    s: &mut ProcState,
    io: &mut IoState,
    devices: &mut Devices,
    by: Requester,
) -> CallEnd
    requires calls { InCall by s.old }
    requires may { MayAttemptIo Call.ReadLn s.old io.old by.p.0 (vec_len devices.old.terms) }
    ensures call { (drives : ℕ) → IoAttemptedFrom Call.ReadLn drives by.p.0 result s.old s.new
        (streams CharDriver-box io.old devices.old) (streams CharDriver-box io.new devices.new) }
    ensures memory { (drives : ℕ) → WantsMemoryFrom Call.ReadLn drives by.p.0 result s.old
        (streams CharDriver-box io.old devices.old) (streams CharDriver-box io.new devices.new) }
    ensures kept { SameDrives by s.new devices.old devices.new }
{
    read(s, io, devices, by, ReadKind::WholeLine)
}

/// An attempt of a read of this kind.
fn read(
    s: &mut ProcState,
    io: &mut IoState,
    devices: &mut Devices,
    by: Requester,
    kind: ReadKind,
) -> CallEnd
    requires calls { InCall by s.old }
    requires may { MayAttemptIo (read_call kind) s.old io.old by.p.0 (vec_len devices.old.terms) }
    ensures call { TriesIoStepFrom (read_step kind) by result s.old s.new
        (streams CharDriver-box io.old devices.old) (streams CharDriver-box io.new devices.new) }
    ensures kept { SameDrives by s.new devices.old devices.new }
{
    let regs = by.regs;
    if !s.is_named(by.p, regs.x, regs.y) {
        return refuse(io, by.p, E_BPADDR);
    }
    let Some((path, desc)) = io.open_path(by.p, regs.a) else {
        return refuse(io, by.p, E_BPNUM);
    };
    if !can_read(desc.mode) {
        return refuse(io, by.p, E_BMODE);
    }
    let code = read_code(kind);
    let call = call_now(io, by.p, code, path, regs.y);
    if regs.y == 0 {
        return answer(s, io, by.p, regs);
    }
    match desc.target {
        Target::File(_, _) => refuse(io, by.p, E_UNKSVC),
        Target::Folder(_, _) => refuse(io, by.p, E_UNKSVC),
        Target::Term(terminal) => {
            let read = AttemptedRead {
                terminal,
                kind,
                call,
            };
            read_terminal(s, io, devices, by, read)
        }
        Target::Pipe(pipe) => match kind {
            ReadKind::Bytes => read_pipe(s, io, by, pipe, call),
            ReadKind::WholeLine => read_pipe_line(s, io, by, pipe, call),
        },
    }
}

/// The code of the call for this kind of read.
fn read_code(kind: ReadKind) -> u8
    ensures { result ≡ read_rules.read_code kind }
{
    match kind {
        ReadKind::Bytes => I_READ,
        ReadKind::WholeLine => I_READLN,
    }
}
