//! The processes of a machine before the first one begins, and the number of living ones.

ghost use Rattle.std.specs.Prelude.{◌≡◌, ◌≤◌, IfOk, replicate, vec_len};
ghost use Rattle.proc_model.specs.Processes.{Processes, no_own};
ghost use Rattle.proc_state.specs.First.{first_processes, living_count};
ghost use Rattle.proc_state.specs.Tie.{RepresentsProcesses};

use crate::ends::NO_OWN;
use crate::state::ProcState;
use guest_memory::memory::Memory;
use os9_base::call::OutOfMemory;
use os9_base::limits::PROCESS_PLACES;
use os9_sched::Sched;
use proc_model::own::Own;
use process_table::Table;
use std::alloc::{AllocError, Global};

/// The size of the longest range of a process's memory: all of it.
const MOST_BYTES: usize = 65_536;

impl ProcState {
    /// The state of a machine with 8 to 256 blocks and without processes. Only this call takes
    /// memory.
    pub fn new(alloc: Global, blocks: u16) -> Result<ProcState, OutOfMemory>
        requires least { 8 ≤ blocks }
        requires most { blocks ≤ 256 }
        ensures { IfOk result (λ state. RepresentsProcesses state (first_processes blocks)) }
    {
        Ok(ProcState {
            memory: Memory::new(alloc, blocks)?,
            table: Table::new(alloc)?,
            sched: Sched::new(alloc)?,
            own: empty_places(alloc)?,
            tick: 0,
            buffer: vec![in alloc; 0; MOST_BYTES]?,
        })
    }

    /// The number of living processes.
    pub fn living(&self) -> u8
        ensures here { result ≡ living_count self.now.table }
        ensures tied { (m : Processes) → RepresentsProcesses self.now m → result
            ≡ living_count m.records }
    {
        self.sched.count()
    }
}

/// Places for processes without data.
fn empty_places(alloc: Global) -> Result<Vec<Own>, AllocError>
    ensures { IfOk result (λ places. places.items ≡ replicate PROCESS_PLACES no_own) }
{
    let mut places = Vec::with_capacity(alloc, PROCESS_PLACES as usize)?;
    'fill: while places.len() < PROCESS_PLACES as usize {
        places.push(NO_OWN)?;
    }
    Ok(places)
}
