//! Memory at a position, as bytes and as instructions.

ghost use Rattle.std.specs.Prelude.{◌≡◌, ◌<◌, ◌≤◌, ◌++◌, OnOk};
ghost use Rattle.os9_base.specs.declared.limits.TheConstants.{PROCESS_PLACES};
ghost use Rattle.os9_debug.specs.Disassembly as model;
ghost use Rattle.os9_debug.specs.Disassembly.{dis_lines, longest_instruction};
ghost use Rattle.os9_debug.specs.Show.{mem_line};
ghost use Rattle.os9_debug.specs.Moves.{SeesCells};

use crate::command::Span;
use crate::line::{push_address, push_instruction, push_seen};
use crate::position::Position;
use arrayvec::ArrayVec;
use std::alloc::AllocError;

/// The most bytes of an instruction.
const LONGEST: usize = 5;

// The bytes from an address on up to the first missing one, at most those of the longest
// instruction.
fn bytes_from(position: &Position, mut at: u16) -> ArrayVec<u8, LONGEST>
    requires { position.now.process.0 < PROCESS_PLACES }
    ensures { SeesCells position.now
        (λ cells. result.items ≡ model.bytes_from cells at longest_instruction) }
{
    let mut bytes = ArrayVec::new();
    for _k in 0..LONGEST {
        match position.byte(at) {
            Some(byte) => bytes.push(byte),
            None => return bytes,
        }
        at = at.wrapping_add(1);
    }
    bytes
}

/// Appends the line of these bytes of memory.
pub(crate) fn push_memory(
    out: &mut Vec<u8>,
    position: &Position,
    span: Span,
) -> Result<(), AllocError>
    requires { position.now.process.0 < PROCESS_PLACES }
    ensures { OnOk result (SeesCells position.now
        (λ cells. out.new.items ≡ out.old.items ++ mem_line cells span)) }
{
    push_address(out, span.at)?;
    for n in 0..span.count {
        push_seen(out, position.byte(span.at.wrapping_add(n)))?;
    }
    out.push(b'\n')?;
    Ok(())
}

/// Appends the lines of these instructions, each after the bytes of the one before.
pub(crate) fn push_instructions(
    out: &mut Vec<u8>,
    position: &Position,
    span: Span,
) -> Result<(), AllocError>
    requires { position.now.process.0 < PROCESS_PLACES }
    ensures { OnOk result (SeesCells position.now
        (λ cells. out.new.items ≡ out.old.items ++ dis_lines cells span.at span.count)) }
{
    let mut at = span.at;
    for _k in 0..span.count {
        let bytes = bytes_from(position, at);
        let length = push_instruction(out, at, bytes.as_slice())?;
        at = at.wrapping_add(u16::from(length));
    }
    Ok(())
}
