ghost use Rattle.std.specs.Prelude.{◌≡◌, None, IfOk};

use crate::fields::RowError;
use os9_outer::drive::{BlockDriver, DriveFault};
use os9_outer::ram_drive::{PlannedFault, RamDrive};
use std::alloc::{AllocError, Global};

/// The possible faults of a drive.
const FAULTS: [DriveFault; 5] = [
    DriveFault::WriteProtect,
    DriveFault::ReadFault,
    DriveFault::WriteFault,
    DriveFault::NotReady,
    DriveFault::SeekFault,
];

/// A failing call of a drive.
#[derive(Debug, Drop)]
pub(crate) struct FailingCall {
    /// 0 to 3, for D0 to D3.
    drive: u8,
    planned: PlannedFault,
}

/// The failing calls of drives in the runs of a row.
#[derive(Debug, Drop)]
pub(crate) enum Failing {
    /// These calls of drives, in one run.
    Calls(Vec<FailingCall>),
    /// The calls of a drive from one of them on, for each call in turn, in a run of its own.
    Stops { drive: u8 },
}

impl Failing {
    /// No call fails.
    pub(crate) fn nothing(alloc: Global) -> Failing {
        Failing::Calls(Vec::new(alloc))
    }

    /// The meaning of a field such as `D1 1 244,D0 7 245`: the drive, the number of the call among
    /// the reads and writes of that drive, from 1, and the number of its fault; or such as
    /// `stops D0`.
    pub(crate) fn parse(alloc: Global, field: &str) -> Result<Failing, RowError> {
        if let Some(name) = field.strip_prefix("stops ") {
            let drive = drive(name).ok_or(RowError::BadCall)?;
            return Ok(Failing::Stops { drive });
        }
        Ok(Failing::Calls(failing_calls(alloc, field)?))
    }
}

/// What fails in one run.
#[derive(Clone, Copy)]
pub(crate) enum Plan<'a> {
    /// These calls of drives.
    Calls(&'a [FailingCall]),
    /// This call of a drive, and each later one.
    Stop { drive: u8, first: PlannedFault },
}

impl Plan<'_> {
    /// The drive of this number, without an image.
    pub(crate) fn drive(&self, alloc: Global, number: u8) -> Result<RamDrive, AllocError>
        ensures { IfOk result (λ drive. ⟦<RamDrive as BlockDriver>⟧.media drive ≡ None) }
    {
        match self {
            Plan::Stop { drive, first } if *drive == number => {
                Ok(RamDrive::stopping(first.call, first.fault))
            }
            Plan::Stop { .. } => Ok(RamDrive::new(Vec::new(alloc))),
            Plan::Calls(calls) => Ok(RamDrive::new(plan_of(alloc, calls, number)?)),
        }
    }
}

/// The calls of a field, which commas separate.
fn failing_calls(alloc: Global, field: &str) -> Result<Vec<FailingCall>, RowError> {
    let mut calls = Vec::new(alloc);
    if field.is_empty() {
        return Ok(calls);
    }
    for words in field.split(',') {
        calls.push(failing_call(words).ok_or(RowError::BadCall)?)?;
    }
    Ok(calls)
}

/// What is planned for the drive of this number.
fn plan_of(
    alloc: Global,
    calls: &[FailingCall],
    drive: u8,
) -> Result<Vec<PlannedFault>, AllocError> {
    let mut plan = Vec::new(alloc);
    for call in calls {
        if call.drive == drive {
            plan.push(call.planned)?;
        }
    }
    Ok(plan)
}

/// The call of words such as `D1 1 244`.
fn failing_call(words: &str) -> Option<FailingCall> {
    let (name, numbers) = words.split_once(' ')?;
    let (call, fault) = numbers.split_once(' ')?;
    let planned = PlannedFault {
        call: call.parse::<u64>().ok()?,
        fault: drive_fault(fault.parse::<u8>().ok()?)?,
    };
    Some(FailingCall {
        drive: drive(name)?,
        planned,
    })
}

/// The number of the drive of a name.
fn drive(name: &str) -> Option<u8> {
    match name {
        "D0" => Some(0),
        "D1" => Some(1),
        "D2" => Some(2),
        "D3" => Some(3),
        _ => None,
    }
}

/// The fault of a call with this number.
fn drive_fault(number: u8) -> Option<DriveFault> {
    for fault in FAULTS {
        if fault.number() == number {
            return Some(fault);
        }
    }
    None
}
