//! Makes calls on disk images, one row per line, and prints the answer of each call and what it
//! leaves. If a row has a swept call, that call is tried with a fault at each of its driver calls.
#![tactic(auto)]

mod answer;
mod call;
mod image;
mod listing;
mod making;
mod outcome;
mod outside;
mod row;
mod sweep;
mod words;

use anyhow::Result;
use row::Row;
use std::io::{BufRead, BufReader};
use sweep::print_outcomes;

fn main(rt: HostRuntime) -> Result<()> {
    for line in BufReader::new(rt.alloc(), rt.reader())?.lines(rt.alloc()) {
        let line = line?;
        if line.as_str().starts_with('#') {
            continue;
        }
        let row = Row::parse(rt.alloc(), line.as_str())?;
        println!(rt; "row {}", row.number)?;
        print_outcomes(&rt, rt.alloc(), &row)?;
    }
    Ok(())
}
