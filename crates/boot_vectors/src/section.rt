use crate::difference::{Difference, first_difference};
use crate::fields::RowError;
use crate::row::Row;
use std::alloc::Global;
use std::fmt;

/// A sort of rows.
#[derive(Clone, Copy, Debug, PartialEq, Eq)]
pub(crate) enum Sort {
    /// Guest programs, with or without images, whose files stay as they are.
    Programs,
    /// Guest programs, with or without images, whose images are compared afterwards.
    Trees,
    /// Sessions of the debugger.
    Sessions,
}

impl Sort {
    /// The sort that a heading names.
    pub(crate) fn named(name: &str) -> Result<Sort, RowError> {
        match name {
            "programs" => Ok(Sort::Programs),
            "programs and trees" => Ok(Sort::Trees),
            "sessions" => Ok(Sort::Sessions),
            _ => Err(RowError::BadHeading),
        }
    }
}

impl fmt::Display for Sort {
    fn fmt<W: fmt::Write>(&self, f: &mut fmt::Formatter<W>) -> fmt::Result {
        match self {
            Sort::Programs => write!(f, "programs"),
            Sort::Trees => write!(f, "programs and trees"),
            Sort::Sessions => write!(f, "sessions"),
        }
    }
}

/// The rows below a heading, as far as they are run.
#[derive(Clone, Copy, Debug)]
pub(crate) struct Section {
    sort: Sort,
    rows: u64,
    differ: u64,
}

impl Section {
    /// None of the rows below the heading of this sort.
    pub(crate) fn new(sort: Sort) -> Section {
        Section {
            sort,
            rows: 0,
            differ: 0,
        }
    }

    /// The number of rows that were run.
    pub(crate) fn rows(&self) -> u64 {
        self.rows
    }

    /// Runs the row of the next line. Returns the first difference, if there is one, and counts it.
    pub(crate) fn compare(
        &mut self,
        alloc: Global,
        line: &str,
    ) -> Result<Option<Difference>, RowError> {
        let row = Row::parse(alloc, self.sort, line)?;
        let difference = first_difference(alloc, &row)?;
        self.rows = self.rows.saturating_add(1);
        if difference.is_some() {
            self.differ = self.differ.saturating_add(1);
        }
        Ok(difference)
    }
}

impl fmt::Display for Section {
    fn fmt<W: fmt::Write>(&self, f: &mut fmt::Formatter<W>) -> fmt::Result {
        write!(f, "{} {}, {} differ", self.rows, self.sort, self.differ)
    }
}
