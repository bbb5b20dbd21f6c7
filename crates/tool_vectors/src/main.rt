//! Uses tools on disk images for which their answers and results are known from elsewhere, one list
//! per line, and checks images for which the answer of a check is known, one on each line that
//! begins with `check`. It prints the number of commands, the number of images, and of each the
//! number that differ.
#![tactic(auto)]

mod change;
mod checks;
mod command;
mod fields;
mod files;
mod tree;
mod used;
mod words;

use anyhow::Result;
use checks::{Checks, compare};
use command::differs;
use fields::RowError;
use files::Files;
use std::alloc::Global;
use std::io::{BufRead, BufReader};

/// The number of commands that were run, and of those of which it is only known that their words
/// are refused or that a file is missing.
#[derive(Clone, Copy, Debug)]
struct Counts {
    run: u64,
    differ: u64,
    passed_over: u64,
}

fn main(rt: HostRuntime) -> Result<()> {
    let mut counts = Counts {
        run: 0,
        differ: 0,
        passed_over: 0,
    };
    let mut checks = Checks {
        images: 0,
        differ: 0,
    };
    for line in BufReader::new(rt.alloc(), rt.reader())?.lines(rt.alloc()) {
        let line = line?;
        match line.as_str().strip_prefix("check\t") {
            Some(row) => compare(&rt, row, &mut checks)?,
            None => compare_list(&rt, line.as_str(), &mut counts)?,
        }
    }
    println!(rt;
        "{} commands, {} differ, {} passed over",
        counts.run, counts.differ, counts.passed_over
    )?;
    println!(rt; "{} images, {} differ", checks.images, checks.differ)?;
    Ok(())
}

// Runs the commands of a row, and prints its number if one of them differs.
fn compare_list(rt: &HostRuntime, line: &str, counts: &mut Counts) -> Result<()> {
    let before = counts.differ;
    run_row(rt.alloc(), line, counts)?;
    if counts.differ != before {
        println!(rt; "differs: row {}", line.split('\t').next().unwrap_or(""))?;
    }
    Ok(())
}

// The commands of a row, each on the files that the ones before left.
fn run_row(alloc: Global, line: &str, counts: &mut Counts) -> Result<(), RowError> {
    let mut fields = line.split('\t');
    let _number = fields.next().ok_or(RowError::Missing)?;
    let mut files = Files::of_image(alloc, fields.next().ok_or(RowError::Missing)?)?;
    for field in fields {
        match differs(alloc, field, &mut files)? {
            None => counts.passed_over = counts.passed_over.saturating_add(1),
            Some(other) => {
                counts.run = counts.run.saturating_add(1);
                if other {
                    counts.differ = counts.differ.saturating_add(1);
                }
            }
        }
    }
    Ok(())
}
