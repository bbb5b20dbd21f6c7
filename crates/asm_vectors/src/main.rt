//! Reads lines, prints instructions and assembles sources whose texts, modules and faults are known
//! from elsewhere, one a line. It prints the rows with another result, the number of rows and the
//! number of those with another result.
#![tactic(auto)]

mod row;

use anyhow::Result;
use asm_print::print;
use asm_text::read_instr;
use asm6809::{AsmFault, assemble, error_number};
use cpu_table::{Instr, decode, spell};
use row::{Line, Outcome, Row, Source};
use std::alloc::Global;
use std::io::{BufRead, BufReader};

/// Are these the bytes of the instruction?
fn is_spelled(i: &Instr, bytes: &[u8]) -> bool {
    let spelled = spell(i);
    match spelled.bytes.get(..usize::from(spelled.len)) {
        Some(own) => own == bytes,
        None => false,
    }
}

/// Is the line read as the instruction of its bytes, or refused if there are none?
fn is_read(line: &Line) -> bool {
    match read_instr(line.text.as_str().as_bytes(), line.at) {
        Some(i) => is_spelled(&i, &line.bytes),
        None => line.bytes.is_empty(),
    }
}

/// Is the instruction of the bytes printed as the text, and read from it again?
fn is_printed(line: &Line) -> bool {
    let text = line.text.as_str().as_bytes();
    match decode(&line.bytes) {
        Ok((i, _)) => print(&i, line.at).as_bytes() == text && read_instr(text, line.at) == Some(i),
        Err(_) => false,
    }
}

/// Does the source make its module, or is it refused with its fault?
fn is_assembled(alloc: Global, source: &Source) -> bool {
    match (assemble(alloc, &source.text), &source.outcome) {
        (Ok(bytes), Outcome::Module(module)) => bytes.as_slice() == module.as_slice(),
        (Err(AsmFault::Line(line, error)), Outcome::Fault(at, k)) => {
            line == *at && u64::from(error_number(error)) == *k
        }
        _ => false,
    }
}

fn comes_out(alloc: Global, row: &Row) -> bool {
    match row {
        Row::Read(line) => is_read(line),
        Row::Print(line) => is_printed(line),
        Row::Source(source) => is_assembled(alloc, source),
    }
}

fn main(rt: HostRuntime) -> Result<()> {
    let mut rows: u64 = 0;
    let mut differ: u64 = 0;
    for line in BufReader::new(rt.alloc(), rt.reader())?.lines(rt.alloc()) {
        let line = line?;
        let row = row::parse(rt.alloc(), line.as_str())?;
        rows = rows.saturating_add(1);
        if !comes_out(rt.alloc(), &row) {
            differ = differ.saturating_add(1);
            println!(rt; "differs: {line}")?;
        }
    }
    println!(rt; "{rows} rows, {differ} differ")?;
    Ok(())
}
