use crate::outcome::run_row;
use crate::row::Row;
use anyhow::Result;
use std::alloc::Global;

/// Prints the outcomes of a row: if a call is swept, those with a fault at each of its driver
/// calls, each of them once; and last the one without a fault.
pub(crate) fn print_outcomes(rt: &impl Print, alloc: Global, row: &Row) -> Result<()> {
    let mut last = String::new(alloc);
    for failing in 1..u64::MAX {
        let outcome = run_row(alloc, row, failing)?;
        if outcome.text.as_str() != last.as_str() {
            print!(rt; "{}", outcome.text)?;
        }
        if !outcome.failed {
            break;
        }
        last = outcome.text;
    }
    Ok(())
}
