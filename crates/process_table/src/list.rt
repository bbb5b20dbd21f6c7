ghost use Rattle.std.specs.Prelude.{◌≡◌, None, option_map, IfOk, IfSome, IsSome, length, map, replicate};
ghost use Rattle.proc_model.specs.Records.{IsProcessNumber, free_process as free_process_model, record_of};
ghost use Rattle.proc_model.specs.Ends.{has_child as has_child_model, ended_child as ended_child_model, orphaned as orphaned_model};

use crate::places::{is_child, is_ended_child, orphaned};
use os9_base::limits::PROCESS_PLACES;
use os9_base::registers::Pid;
use proc_model::record::Record;
use std::alloc::{AllocError, Global};

/// The least number that a process has.
const FIRST: usize = 2;

/// Places without records.
pub fn empty_places(alloc: Global) -> Result<Vec<Option<Record>>, AllocError>
    ensures { IfOk result (λ places. places.items ≡ replicate PROCESS_PLACES None) }
{
    let mut places = Vec::with_capacity(alloc, PROCESS_PLACES as usize)?;
    'fill: while places.len() < PROCESS_PLACES as usize {
        places.push(None)?;
    }
    Ok(places)
}

/// The least number of a process that no record has.
pub fn free_process(records: &[Option<Record>]) -> Option<Pid>
    requires { length records.now ≡ PROCESS_PLACES }
    ensures number { option_map (λ p. p.0) result ≡ free_process_model records.now }
    ensures process { IfSome result (λ p. IsProcessNumber p.0) }
{
    let place = records[FIRST..].iter().position(|place| place.is_none())?;
    Some(Pid((place + FIRST) as u8))
}

/// Does some record have this parent?
pub fn has_child(records: &[Option<Record>], parent: Pid) -> bool
    ensures { result ≡ has_child_model records.now parent.0 }
{
    records.iter().any(|place| is_child(place, parent))
}

/// The number of the first record of an ended child.
pub fn ended_child(records: &[Option<Record>], parent: Pid) -> Option<Pid>
    requires { length records.now ≡ PROCESS_PLACES }
    ensures number { option_map (λ p. p.0) result ≡ ended_child_model records.now parent.0 }
    ensures there { IfSome result (λ p. IsSome (record_of records.now p.0)) }
{
    let place = records
        .iter()
        .position(|place| is_ended_child(place, parent))?;
    Some(Pid(place as u8))
}

/// Removes this parent from its children, and the records of the ended ones.
pub fn orphan(records: &mut [Option<Record>], parent: Pid)
    ensures { records.new ≡ map (orphaned_model parent.0) records.old }
{
    for place in records.iter_mut() {
        *place = orphaned(place, parent);
    }
}
