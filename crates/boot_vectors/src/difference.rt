use crate::failing::{Failing, Plan};
use crate::row::Row;
use crate::shown::run;
use crate::stop::differing_stop;
use os9_outer::drive::DriveFault;
use std::alloc::{AllocError, Global};
use std::fmt;

/// The faults of a drive that stops.
const STOPS: [DriveFault; 2] = [DriveFault::ReadFault, DriveFault::WriteFault];

/// The run of a row that shows something else than the row says.
#[derive(Clone, Copy, Debug)]
pub(crate) enum Difference {
    /// The only run of the row.
    Run,
    /// The one that stops at this call of a drive.
    Stop { call: u64 },
}

impl fmt::Display for Difference {
    fn fmt<W: fmt::Write>(&self, f: &mut fmt::Formatter<W>) -> fmt::Result {
        match self {
            Difference::Run => Ok(()),
            Difference::Stop { call } => write!(f, ", a stop at call {call}"),
        }
    }
}

/// The first run of a row that shows something else than the row says, if there is one.
pub(crate) fn first_difference(alloc: Global, row: &Row) -> Result<Option<Difference>, AllocError> {
    match &row.drives {
        Failing::Calls(calls) => {
            let shown = run(alloc, row, &Plan::Calls(calls))?;
            Ok(if shown.is_as(row) {
                None
            } else {
                Some(Difference::Run)
            })
        }
        Failing::Stops { drive } => stop_difference(alloc, row, *drive),
    }
}

/// The same for a row with a drive that stops.
fn stop_difference(alloc: Global, row: &Row, drive: u8) -> Result<Option<Difference>, AllocError> {
    for fault in STOPS {
        if let Some(call) = differing_stop(alloc, row, drive, fault)? {
            return Ok(Some(Difference::Stop { call }));
        }
    }
    Ok(None)
}
