//! I$Write, I$WritLn and F$PErr (System Programmer's Manual, I$Write, I$WritLn and F$PErr).

ghost use Rattle.std.specs.Prelude.{◌≡◌, ℕ, IfSome, None, option_map, take, vec_len};
ghost use Rattle.proc_model.specs.Processes.{Processes};
ghost use Rattle.io_model.specs.Attempts.{caller_of};
ghost use Rattle.io_model.specs.Io.{pending_at};
ghost use Rattle.io_model.specs.Write as model;
ghost use Rattle.io_model.specs.Write.{line_bytes};
ghost use Rattle.io_model.specs.declared.io_call.IoCall.TheVariants as Call;
ghost use Rattle.proc_state.specs.Tie.{AreProcessesSame, RepresentsProcesses};
ghost use Rattle.io_state.specs.Context.{InCall, SameDrives};
ghost use Rattle.device_io.specs.Moving.{MayAttemptIo};
ghost use Rattle.device_io.specs.Reading.{AreWriteBytesRead};
ghost use Rattle.device_io.specs.Streams.{streams};
ghost use Rattle.device_io.specs.Trying.{IoAttemptedFrom, WantsMemoryFrom};

use crate::ends::tell;
use crate::moving::read_moving;
use crate::sending::{ToWrite, WriteKind, send};
use device_table::devices::Devices;
use io_state::ends::refuse;
use io_state::requester::Requester;
use io_state::state::IoState;
use os9_base::call::CallEnd;
use os9_base::errors::E_BPADDR;
use os9_base::registers::Regs;
use os9_outer::terminal::CharDriver;
use proc_state::state::ProcState;

/// I$Write: writes bytes (System Programmer's Manual, I$Write). Takes the path in A, the address of
/// the bytes in X and their count in Y; returns the count in Y. A write of a terminal never waits;
/// a write of a pipe waits while the pipe is full.
///
/// # Errors
///
/// E$BPAddr exactly if one of the bytes is in no named slot or past `FFFF`, else E$BPNum exactly if
/// the number names no path, else E$BMode exactly if the path may not be written; then E$Write if a
/// terminal failed, or if the pipe is full and no other process outside the same wait holds its
/// path. Bytes that are out stay out, and the registers do not change.
pub fn i_write(s: &mut ProcState, io: &mut IoState, devices: &mut Devices, by: Requester) -> CallEnd
    requires calls { InCall by s.old }
    requires may { MayAttemptIo Call.Write s.old io.old by.p.0 (vec_len devices.old.terms) }
    ensures call { (drives : ℕ) → IoAttemptedFrom Call.Write drives by.p.0 result s.old s.new
        (streams CharDriver-box io.old devices.old) (streams CharDriver-box io.new devices.new) }
    ensures memory { (drives : ℕ) → WantsMemoryFrom Call.Write drives by.p.0 result s.old
        (streams CharDriver-box io.old devices.old) (streams CharDriver-box io.new devices.new) }
    ensures kept { SameDrives by s.new devices.old devices.new }
{
    match read_moving(s, io, by, by.regs.y) {
        None => refuse(io, by.p, E_BPADDR),
        Some(y) => {
            let kind = WriteKind::Bytes;
            let bytes = &s.buffer[..y as usize];
            let end = send(io, devices, by, &ToWrite { kind, bytes });
            tell(s, by.p, end, by.regs);
            end
        }
    }
}

/// I$WritLn: writes a line (System Programmer's Manual, I$WritLn). Takes the path in A, the address
/// of the line in X and its maximum count of bytes in Y; returns the count in Y. The line ends with
/// its first carriage return, after which a terminal puts a line feed. A write of a terminal never
/// waits; a write of a pipe waits while the pipe is full.
///
/// # Errors
///
/// E$BPAddr exactly if a byte of the line is in no named slot or past `FFFF`, else E$BPNum exactly
/// if the number names no path, else E$BMode exactly if the path may not be written; then E$Write
/// if a terminal failed, or if the pipe is full and no other process outside the same wait holds
/// its path. Bytes that are out stay out, and the registers do not change.
pub fn i_writln(
    s: &mut ProcState,
    io: &mut IoState,
    devices: &mut Devices,
    by: Requester,
) -> CallEnd
    requires calls { InCall by s.old }
    requires may { MayAttemptIo Call.WritLn s.old io.old by.p.0 (vec_len devices.old.terms) }
    ensures call { (drives : ℕ) → IoAttemptedFrom Call.WritLn drives by.p.0 result s.old s.new
        (streams CharDriver-box io.old devices.old) (streams CharDriver-box io.new devices.new) }
    ensures memory { (drives : ℕ) → WantsMemoryFrom Call.WritLn drives by.p.0 result s.old
        (streams CharDriver-box io.old devices.old) (streams CharDriver-box io.new devices.new) }
    ensures kept { SameDrives by s.new devices.old devices.new }
{
    match read_line_now(s, io, by) {
        None => refuse(io, by.p, E_BPADDR),
        Some(y) => {
            let kind = WriteKind::Line;
            let bytes = &s.buffer[..y as usize];
            let end = send(io, devices, by, &ToWrite { kind, bytes });
            tell(s, by.p, end, Regs { y, ..by.regs });
            end
        }
    }
}

/// F$PErr: writes the number of an error as a line to standard error (System Programmer's Manual,
/// F$PErr). Takes the number in B. It waits as I$WritLn does. The registers do not change.
///
/// # Errors
///
/// E$BPNum exactly if standard error names no path, else E$BMode exactly if it may not be written;
/// then E$Write if a terminal failed, or if the pipe is full and no other process outside the same
/// wait holds its path. Bytes that are out stay out.
pub fn f_perr(s: &mut ProcState, io: &mut IoState, devices: &mut Devices, by: Requester) -> CallEnd
    requires calls { InCall by s.old }
    requires may { MayAttemptIo Call.PErr s.old io.old by.p.0 (vec_len devices.old.terms) }
    ensures call { (drives : ℕ) → IoAttemptedFrom Call.PErr drives by.p.0 result s.old s.new
        (streams CharDriver-box io.old devices.old) (streams CharDriver-box io.new devices.new) }
    ensures memory { (drives : ℕ) → WantsMemoryFrom Call.PErr drives by.p.0 result s.old
        (streams CharDriver-box io.old devices.old) (streams CharDriver-box io.new devices.new) }
    ensures kept { SameDrives by s.new devices.old devices.new }
{
    let kind = WriteKind::ErrorLine;
    let bytes = &error_line(by.regs.b);
    let end = send(io, devices, by, &ToWrite { kind, bytes });
    tell(s, by.p, end, by.regs);
    end
}

/// Reads the line that an I$WritLn moves into the front of the buffer, and returns its length. A
/// later attempt moves the number of bytes that the first one found, and on a pipe reads only the
/// bytes that it may move. None if one of them is in no named slot or past `FFFF`.
fn read_line_now(s: &mut ProcState, io: &IoState, by: Requester) -> Option<u16>
    requires { InCall by s.old }
    ensures line { (m : Processes) → RepresentsProcesses s.old m
        → AreWriteBytesRead io.now by.p.0 by.regs.a
        (line_bytes (caller_of m by.p.0) (pending_at io.now by.p.0)) result s.new.buffer.items }
    ensures first { (m : Processes) → RepresentsProcesses s.old m → pending_at io.now by.p.0 ≡ None
        → line_bytes (caller_of m by.p.0) None
        ≡ option_map (λ count. take count s.new.buffer.items) result }
    ensures kept { IfSome result
        (λ count. IfSome (pending_at io.now by.p.0) (λ pending. pending.count ≡ count)) }
    ensures same { AreProcessesSame s.old s.new }
{
    match io.pending(by.p) {
        None => match s.read_line(by.p, by.regs.x, by.regs.y) {
            None => None,
            Some(count) => Some(count as u16),
        },
        Some(pending) => read_moving(s, io, by, pending.count),
    }
}

/// The line that F$PErr writes for an error number.
fn error_line(number: u8) -> [u8; 11]
    ensures { result ≡ model.error_line number }
{
    [
        b'E',
        b'R',
        b'R',
        b'O',
        b'R',
        b' ',
        b'#',
        b'0' + number / 100,
        b'0' + number / 10 % 10,
        b'0' + number % 10,
        0x0D,
    ]
}
