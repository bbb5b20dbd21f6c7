//! Runs steps of the processor whose outcome is known from elsewhere, one a line, and prints the
//! number of steps and the number of those with another outcome: over a memory whose bytes lie
//! together, slot by slot, and over one in which no bytes do.
#![tactic(auto)]

ghost use Rattle.std.specs.Prelude.{IsTrue};
ghost use Rattle.cpu_model.specs.Step.{step_of, LeavesCells};

mod memory;
mod vector;

use anyhow::Result;
use cpu6809::{Bus, step};
use memory::{Memory, Scattered};
use std::alloc::{AllocError, Global};
use std::io::{BufRead, BufReader};
use vector::Vector;

/// The memories over which a step ends as its line says.
#[derive(Clone, Copy)]
struct Agreement {
    together: bool,
    scattered: bool,
}

/// Does the step end as the line says, with these registers?
fn comes_out<B: Bus>(vector: &Vector, bus: &mut B) -> bool
    ensures { IsTrue result → LeavesCells (step_of (B.cells bus.old) vector.now.before)
        vector.now.stop vector.now.before vector.now.after (B.cells bus.old) (B.cells bus.new) }
{
    let mut regs = vector.before;
    let stop = step(&mut regs, bus);
    stop == vector.stop && regs == vector.after
}

/// Does the step end as the line says, in registers, in every cell and in how it ends?
fn agreement_of(alloc: Global, vector: &Vector) -> Result<Agreement, AllocError> {
    let expected = Memory::after(alloc, vector)?;
    let mut memory = Memory::before(alloc, vector)?;
    let together = comes_out(vector, &mut memory) && memory.same_bytes(&expected);
    let mut bus = Scattered {
        memory: Memory::before(alloc, vector)?,
    };
    let scattered = comes_out(vector, &mut bus) && bus.memory.same_bytes(&expected);
    Ok(Agreement {
        together,
        scattered,
    })
}

/// The agreement of a line; there is none if the line has other fields.
fn agreement_of_line(alloc: Global, line: &str) -> Result<Agreement, AllocError> {
    match vector::parse(alloc, line)? {
        Some(vector) => agreement_of(alloc, &vector),
        None => Ok(Agreement {
            together: false,
            scattered: false,
        }),
    }
}

fn main(rt: HostRuntime) -> Result<()> {
    let mut steps: u64 = 0;
    let mut differ_together: u64 = 0;
    let mut differ_scattered: u64 = 0;
    for line in BufReader::new(rt.alloc(), rt.reader())?.lines(rt.alloc()) {
        let line = line?;
        let agreed = agreement_of_line(rt.alloc(), line.as_str())?;
        steps = steps.saturating_add(1);
        if !agreed.together {
            differ_together = differ_together.saturating_add(1);
            println!(rt; "differs over bytes that lie together: {line}")?;
        }
        if !agreed.scattered {
            differ_scattered = differ_scattered.saturating_add(1);
            println!(rt; "differs over scattered bytes: {line}")?;
        }
    }
    println!(rt; "bytes that lie together: {steps} steps, {differ_together} differ")?;
    println!(rt; "scattered bytes: {steps} steps, {differ_scattered} differ")?;
    Ok(())
}
