use cpu6809::Stop;
use os9_base::registers::Regs;
use std::alloc::{AllocError, Global};
use std::str::SplitWhitespace;

/// A byte and its address.
#[derive(Clone, Copy)]
pub(crate) struct Cell {
    pub(crate) at: u16,
    pub(crate) byte: u8,
}

/// A step. Bit n of `slots` is set if slot n of 8,192 bytes is named; bytes that are not in `cells`
/// are 0.
#[derive(Drop)]
pub(crate) struct Vector {
    pub(crate) slots: u8,
    pub(crate) before: Regs,
    pub(crate) cells: Vec<Cell>,
    pub(crate) stop: Stop,
    pub(crate) after: Regs,
    pub(crate) written: Vec<Cell>,
}

fn byte(text: &str) -> Option<u8> {
    u8::from_str_radix(text, 16).ok()
}

fn word(text: &str) -> Option<u16> {
    u16::from_str_radix(text, 16).ok()
}

/// The fields `a b dp cc x y u s pc`.
fn regs(fields: &mut SplitWhitespace<'_>) -> Option<Regs> {
    Some(Regs {
        a: byte(fields.next()?)?,
        b: byte(fields.next()?)?,
        dp: byte(fields.next()?)?,
        cc: byte(fields.next()?)?,
        x: word(fields.next()?)?,
        y: word(fields.next()?)?,
        u: word(fields.next()?)?,
        s: word(fields.next()?)?,
        pc: word(fields.next()?)?,
    })
}

fn one_cell(text: &str) -> Option<Cell> {
    let (at, held) = text.split_once('=')?;
    Some(Cell {
        at: word(at)?,
        byte: byte(held)?,
    })
}

/// `aaaa=bb` joined by commas, or `-` for none.
fn cells(alloc: Global, text: &str) -> Result<Option<Vec<Cell>>, AllocError> {
    let mut found = Vec::new(alloc);
    if text == "-" {
        return Ok(Some(found));
    }
    for part in text.split(',') {
        match one_cell(part) {
            Some(cell) => found.push(cell)?,
            None => return Ok(None),
        }
    }
    Ok(Some(found))
}

fn stop(text: &str) -> Option<Stop> {
    match text {
        "next" => Some(Stop::Next),
        "abort:227" => Some(Stop::Abort(227)),
        "abort:228" => Some(Stop::Abort(228)),
        _ => Some(Stop::Call(byte(text.strip_prefix("call:")?)?)),
    }
}

/// The step of a line, or None if the line has other fields.
pub(crate) fn parse(alloc: Global, line: &str) -> Result<Option<Vector>, AllocError> {
    let mut fields = line.split_whitespace();
    let Some((slots, before, held)) = head(&mut fields) else {
        return Ok(None);
    };
    let Some((stop, after, written)) = tail(&mut fields) else {
        return Ok(None);
    };
    let (Some(cells), Some(written)) = (cells(alloc, held)?, cells(alloc, written)?) else {
        return Ok(None);
    };
    Ok(Some(Vector {
        slots,
        before,
        cells,
        stop,
        after,
        written,
    }))
}

/// The fields up to the cells before the step.
fn head<'a>(fields: &mut SplitWhitespace<'a>) -> Option<(u8, Regs, &'a str)> {
    let _number = fields.next()?;
    Some((byte(fields.next()?)?, regs(fields)?, fields.next()?))
}

/// How the step ends, the registers after it and the cells that it writes.
fn tail<'a>(fields: &mut SplitWhitespace<'a>) -> Option<(Stop, Regs, &'a str)> {
    Some((stop(fields.next()?)?, regs(fields)?, fields.next()?))
}
