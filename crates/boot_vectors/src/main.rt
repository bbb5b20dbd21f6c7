//! Runs command lines whose end is known from elsewhere, one a line: guest programs, guest programs
//! whose images are compared afterwards, and sessions of the debugger. A line such as
//! `= sessions` is above the rows of its sort, and behind them the program prints their number and
//! the number of differences. A line that begins with `#` names the lines after it.
#![tactic(auto)]

mod answering;
mod difference;
mod disk;
mod failing;
mod fields;
mod row;
mod section;
mod shown;
mod stop;
mod terminals;
mod tree;

use anyhow::Result;
use fields::RowError;
use section::{Section, Sort};
use std::io::{BufRead, BufReader};

fn main(rt: HostRuntime) -> Result<()> {
    let mut now: Option<Section> = None;
    for line in BufReader::new(rt.alloc(), rt.reader())?.lines(rt.alloc()) {
        let line = line?;
        if line.as_str().starts_with('#') {
            continue;
        }
        if let Some(name) = line.as_str().strip_prefix("= ") {
            if let Some(section) = now {
                println!(rt; "{section}")?;
            }
            now = Some(Section::new(Sort::named(name)?));
            continue;
        }
        let mut section = now.ok_or(RowError::NoHeading)?;
        if let Some(difference) = section.compare(rt.alloc(), line.as_str())? {
            println!(rt; "differs: line {}{difference}", section.rows())?;
        }
        now = Some(section);
    }
    if let Some(section) = now {
        println!(rt; "{section}")?;
    }
    Ok(())
}
