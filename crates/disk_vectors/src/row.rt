use crate::call::Call;
use crate::image::parse_image;
use crate::words::{RowError, Words, number};
use os9_base::errors::{E_READ, E_WRITE};
use os9_base::registers::TimePacket;
use os9_outer::drive::DriveFault;
use os9_outer::ram_drive::PlannedFault;
use std::alloc::{AllocError, Global};

/// A call with its number in the row; the mount is call 1.
#[derive(Debug, Drop)]
pub(crate) struct NumberedCall {
    pub(crate) number: u32,
    pub(crate) call: Call,
}

impl NumberedCall {
    /// The time of the call: its number is the minute, modulo 256.
    pub(crate) fn time(&self) -> TimePacket {
        TimePacket {
            year: 90,
            month: 2,
            day: 3,
            hour: 4,
            minute: (self.number % 256) as u8,
            second: 6,
        }
    }
}

/// The call that is tried with a fault at each of its driver calls.
#[derive(Clone, Copy, Debug, PartialEq, Eq)]
pub(crate) enum Swept {
    Nothing,
    Mount(DriveFault),
    /// The call in this place after the mount, from 0.
    Call(usize, DriveFault),
}

impl Swept {
    /// The plan of the drive for the mount, if the driver call of this number fails in the swept
    /// call.
    pub(crate) fn mount_plan(
        self,
        alloc: Global,
        failing: u64,
    ) -> Result<Vec<PlannedFault>, AllocError> {
        match self {
            Swept::Mount(fault) => plan(alloc, failing, fault),
            _ => Ok(Vec::new(alloc)),
        }
    }

    /// The plan of the drive for the swept call, if there is one.
    pub(crate) fn call_plan(
        self,
        alloc: Global,
        failing: u64,
    ) -> Result<Vec<PlannedFault>, AllocError> {
        match self {
            Swept::Call(_, fault) => plan(alloc, failing, fault),
            _ => Ok(Vec::new(alloc)),
        }
    }
}

// The plan in which one driver call fails.
fn plan(alloc: Global, call: u64, fault: DriveFault) -> Result<Vec<PlannedFault>, AllocError> {
    Ok(vec![in alloc; PlannedFault { call, fault }]?)
}

/// The calls of a row before the swept one, that call itself, and the calls after it.
#[derive(Clone, Copy)]
pub(crate) struct Parts<'a> {
    pub(crate) before: &'a [NumberedCall],
    pub(crate) swept: &'a [NumberedCall],
    pub(crate) after: &'a [NumberedCall],
}

/// An image, the calls that are made on it after the mount, and which of them is swept.
#[derive(Debug, Drop)]
pub(crate) struct Row {
    pub(crate) number: u32,
    pub(crate) image: Vec<u8>,
    pub(crate) swept: Swept,
    pub(crate) calls: Vec<NumberedCall>,
}

impl Row {
    /// The row of a line: its number, the image, `-` or the swept call and its fault, and the
    /// calls, the first of which is `mount`, separated by tabs.
    pub(crate) fn parse(alloc: Global, line: &str) -> Result<Row, RowError> {
        let mut fields = line.split('\t');
        let text = fields.next().ok_or(RowError::Missing)?;
        let image = parse_image(alloc, fields.next().ok_or(RowError::Missing)?)?;
        let swept = parse_swept(fields.next().ok_or(RowError::Missing)?)?;
        if fields.next() != Some("mount") {
            return Err(RowError::NoSuchCall);
        }
        let mut calls = Vec::new(alloc);
        let mut next: u32 = 2;
        for field in fields {
            let call = Call::parse(alloc, field)?;
            calls.push(NumberedCall { number: next, call })?;
            next = next.checked_add(1).ok_or(RowError::LeftOver)?;
        }
        Ok(Row {
            number: number(text.parse::<u32>().ok())?,
            image,
            swept,
            calls,
        })
    }

    /// The parts of the calls. If none of them is swept, all are before it.
    pub(crate) fn parts(&self) -> Parts<'_> {
        let calls = self.calls.as_slice();
        let place = match self.swept {
            Swept::Call(place, _) => place.min(calls.len()),
            _ => calls.len(),
        };
        let (before, rest) = calls.split_at(place);
        let (swept, after) = rest.split_at(rest.len().min(1));
        Parts {
            before,
            swept,
            after,
        }
    }
}

// `-`, or the number of a call, from 1, and the number of a fault.
fn parse_swept(field: &str) -> Result<Swept, RowError> {
    if field == "-" {
        return Ok(Swept::Nothing);
    }
    let mut words = Words::of(field);
    let call = words.byte()?;
    let fault = match words.byte()? {
        E_READ => DriveFault::ReadFault,
        E_WRITE => DriveFault::WriteFault,
        _ => return Err(RowError::NoSuchFault),
    };
    words.end()?;
    match call {
        0 => Err(RowError::BadNumber),
        1 => Ok(Swept::Mount(fault)),
        _ => Ok(Swept::Call(usize::from(call - 2), fault)),
    }
}
