ghost use Rattle.std.specs.Prelude.{◌≡◌};
ghost use Rattle.proc_model.specs.Records.{record_passes, new_record as new_record_model};
ghost use Rattle.proc_model.specs.Ends.{is_child as is_child_model, is_ended_child as is_ended_child_model, orphaned as orphaned_model, ended_record as ended_record_model};

use os9_base::registers::{Pid, Regs};
use proc_model::record::{Life, Record};

/// The parent number that means no process.
const NO_PARENT: Pid = Pid(0);

/// The registers of a process before they are set.
const ZERO_REGS: Regs = Regs {
    a: 0,
    b: 0,
    dp: 0,
    cc: 0,
    x: 0,
    y: 0,
    u: 0,
    s: 0,
    pc: 0,
};

/// The record of a new process.
pub fn new_record(parent: Pid, user: u16, priority: u8) -> Record
    ensures { result ≡ new_record_model parent user priority }
{
    Record {
        parent,
        user,
        priority,
        regs: ZERO_REGS,
        life: Life::Running,
        intercept: None,
        signal: None,
    }
}

/// The record of a process that has ended with this status, if a parent may wait for it.
pub fn ended(process: Record, status: u8) -> Option<Record>
    ensures { result ≡ ended_record_model process status }
{
    if process.parent == NO_PARENT {
        return None;
    }
    let life = Life::Ended(status);
    Some(Record { life, ..process })
}

/// Is there a record here of a child of this process?
pub fn is_child(place: &Option<Record>, parent: Pid) -> bool
    ensures { result ≡ record_passes (is_child_model parent.0) place.now }
{
    match place {
        None => false,
        Some(record) => record.parent == parent,
    }
}

/// Is there a record here of an ended child of this process?
pub fn is_ended_child(place: &Option<Record>, parent: Pid) -> bool
    ensures { result ≡ record_passes (is_ended_child_model parent.0) place.now }
{
    match place {
        None => false,
        Some(record) => record.parent == parent && matches!(record.life, Life::Ended(_)),
    }
}

/// What remains of a record after this process has ended.
pub fn orphaned(place: &Option<Record>, parent: Pid) -> Option<Record>
    ensures { result ≡ orphaned_model parent.0 place.now }
{
    let record = (*place)?;
    if record.parent != parent {
        return Some(record);
    }
    match record.life {
        Life::Ended(_) => None,
        Life::Running | Life::Waiting => Some(Record {
            parent: NO_PARENT,
            ..record
        }),
    }
}
