ghost use Rattle.std.specs.Prelude.{◌≡◌, ◌++◌, IfOk, OnOk};
ghost use Rattle.std.specs.List.{flat_map};
ghost use Rattle.asm_model.specs.Numbers as model;
ghost use Rattle.cpu_model.specs.Reading.{reading};
ghost use Rattle.os9_debug.specs.Disassembly.{dis_line, reading_length};
ghost use Rattle.os9_debug.specs.Show.{byte_text, end_line, life_text, regs_line, regs_text};

use crate::digits::{four_digits, two_digits};
use asm_print::print;
use cpu_table::decode;
use itoa::Buffer;
use os9_base::registers::{Pid, Regs};
use std::alloc::AllocError;

// Appends texts, one after another.
fn push_pieces(out: &mut Vec<u8>, pieces: &[&[u8]]) -> Result<(), AllocError>
    ensures { OnOk result (out.new.items
        ≡ out.old.items ++ flat_map (λ piece. piece.now) pieces.now) }
{
    for piece in pieces {
        out.extend_from_slice(piece)?;
    }
    Ok(())
}

/// Appends the line of the last position: `end at L`.
pub fn push_end(out: &mut Vec<u8>, last: u64) -> Result<(), AllocError>
    ensures { OnOk result (out.new.items ≡ out.old.items ++ end_line last) }
{
    let mut text = Buffer::new();
    push_pieces(out, &[b"end at ", text.format(last).as_bytes(), b"\n"])
}

/// Appends the line of the registers of a process at a position: `at K process P` and the registers
/// by name in hexadecimal digits, or `ended` if it has ended.
pub fn push_regs(
    out: &mut Vec<u8>,
    at: u64,
    process: Pid,
    regs: Option<Regs>,
) -> Result<(), AllocError>
    ensures { OnOk result (out.new.items ≡ out.old.items ++ regs_line at process.0 regs) }
{
    let mut at_text = Buffer::new();
    let mut process_text = Buffer::new();
    push_pieces(
        out,
        &[
            b"at ",
            at_text.format(at).as_bytes(),
            b" process ",
            process_text.format(process.0).as_bytes(),
        ],
    )?;
    push_life(out, regs)?;
    out.push(b'\n')?;
    Ok(())
}

// Appends the registers of a process, or that it has ended.
fn push_life(out: &mut Vec<u8>, regs: Option<Regs>) -> Result<(), AllocError>
    ensures { OnOk result (out.new.items ≡ out.old.items ++ life_text regs) }
{
    match regs {
        None => out.extend_from_slice(b" ended"),
        Some(regs) => push_registers(out, &regs),
    }
}

// Appends registers, by name in hexadecimal digits.
fn push_registers(out: &mut Vec<u8>, regs: &Regs) -> Result<(), AllocError>
    ensures { OnOk result (out.new.items ≡ out.old.items ++ regs_text regs.now) }
{
    push_pieces(
        out,
        &[
            b" pc ",
            &four_digits(regs.pc),
            b" a ",
            &two_digits(regs.a),
            b" b ",
            &two_digits(regs.b),
            b" dp ",
            &two_digits(regs.dp),
            b" cc ",
            &two_digits(regs.cc),
        ],
    )?;
    push_pieces(
        out,
        &[
            b" x ",
            &four_digits(regs.x),
            b" y ",
            &four_digits(regs.y),
            b" u ",
            &four_digits(regs.u),
            b" s ",
            &four_digits(regs.s),
        ],
    )
}

/// Appends an address, in four hexadecimal digits.
pub fn push_address(out: &mut Vec<u8>, at: u16) -> Result<(), AllocError>
    ensures { OnOk result (out.new.items ≡ out.old.items ++ model.four_digits at) }
{
    out.extend_from_slice(&four_digits(at))
}

/// Appends a byte of memory: a space and two hexadecimal digits, or `--` if there is none.
pub fn push_seen(out: &mut Vec<u8>, byte: Option<u8>) -> Result<(), AllocError>
    ensures { OnOk result (out.new.items ≡ out.old.items ++ byte_text byte) }
{
    match byte {
        None => out.extend_from_slice(b" --"),
        Some(byte) => push_pieces(out, &[b" ", &two_digits(byte)]),
    }
}

/// Appends the line of the instruction with which the bytes at an address begin: the address and
/// the text, or `?` if they are not an instruction. Returns the number of its bytes, 1 if they are
/// not.
pub fn push_instruction(out: &mut Vec<u8>, at: u16, bytes: &[u8]) -> Result<u8, AllocError>
    ensures text { OnOk result (out.new.items
        ≡ out.old.items ++ dis_line at (reading bytes.now)) }
    ensures length { IfOk result (λ length. length ≡ reading_length (reading bytes.now)) }
{
    match decode(bytes) {
        Ok((instruction, length)) => {
            let text = print(&instruction, at);
            push_pieces(out, &[&four_digits(at), b" ", text.as_bytes(), b"\n"])?;
            Ok(length)
        }
        Err(_) => {
            push_pieces(out, &[&four_digits(at), b" ?\n"])?;
            Ok(1)
        }
    }
}
