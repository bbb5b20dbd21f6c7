//! The frame of a delivery, and the registers before and after it.

ghost use Rattle.std.specs.Prelude.{◌≡◌, ◌/◌, ◌%◌};
ghost use Rattle.proc_model.specs.Attempts.{refused_regs as refused_regs_model};
ghost use Rattle.proc_model.specs.Delivery.{frame_bytes as frame_bytes_model, routine_regs as routine_regs_model, stack_top as stack_top_model};

use os9_base::registers::Regs;
use proc_model::record::Intercept;

/// The size of a frame in bytes.
pub const FRAME_BYTES: u16 = 12;

/// The condition code E, of a frame with all registers.
const ENTIRE: u8 = 128;

/// The end of the bytes below a stack pointer: for 0 it is the end of memory.
pub fn stack_top(stack: u16) -> u32
    ensures { result ≡ stack_top_model stack }
{
    if stack == 0 { 65_536 } else { u32::from(stack) }
}

/// The bytes of a frame, from its lowest address on: E is set in it.
pub fn frame_bytes(regs: Regs) -> [u8; 12]
    ensures { result ≡ frame_bytes_model regs }
{
    let cc = if regs.cc < ENTIRE {
        regs.cc + ENTIRE
    } else {
        regs.cc
    };
    [
        cc,
        regs.a,
        regs.b,
        regs.dp,
        high(regs.x),
        low(regs.x),
        high(regs.y),
        low(regs.y),
        high(regs.u),
        low(regs.u),
        high(regs.pc),
        low(regs.pc),
    ]
}

/// The high byte of a word.
fn high(word: u16) -> u8
    ensures { result ≡ word / 256 }
{
    (word / 256) as u8
}

/// The low byte of a word.
fn low(word: u16) -> u8
    ensures { result ≡ word % 256 }
{
    (word % 256) as u8
}

/// The registers after a refused call with this number.
pub fn refused_regs(regs: Regs, number: u8) -> Regs
    ensures { result ≡ refused_regs_model regs number }
{
    let cc = regs.cc - regs.cc % 2 + 1;
    Regs {
        cc,
        b: number,
        ..regs
    }
}

/// The registers with which the routine of an intercept begins.
pub fn routine_regs(regs: Regs, intercept: Intercept, signal: u8, frame: u16) -> Regs
    ensures { result ≡ routine_regs_model regs intercept signal frame }
{
    Regs {
        b: signal,
        u: intercept.area,
        s: frame,
        pc: intercept.routine,
        ..regs
    }
}
