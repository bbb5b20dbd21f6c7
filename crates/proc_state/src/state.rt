ghost use Rattle.std.specs.Prelude.{◌≡◌, ◌≤◌, IfOk, vec_len};
ghost use Rattle.guest_memory.specs.Tie.{modules_of};
ghost use Rattle.os9_base.specs.declared.limits.TheConstants.{LAST_TICK, PROCESS_PLACES};
ghost use Rattle.proc_model.specs.Records.{AreProcessRecords};
ghost use Rattle.proc_state.specs.Sound.{AreTurns, ArePrimaries, AreSleeps};

use guest_memory::memory::Memory;
use os9_sched::Sched;
use proc_model::own::Own;
use process_table::Table;

/// The processes of the machine.
#[derive(Drop)]
pub struct ProcState {
    /// The blocks, the maps and the module directory.
    pub memory: Memory,
    /// The records of the processes.
    pub table: Table,
    /// Their turns.
    pub sched: Sched,
    /// The data of each process other than its record and its memory, by process number.
    pub own: Vec<Own>,
    /// The number of slices begun.
    pub tick: u32,
    /// Room for the longest range of a process's memory.
    pub buffer: Vec<u8>,
    ghost numbers: { AreProcessRecords table },
    ghost turns: { AreTurns table sched },
    ghost primaries: { ArePrimaries own.items (modules_of memory) },
    ghost sleeps: { AreSleeps own.items tick },
    ghost places: { vec_len own ≡ PROCESS_PLACES },
    ghost time: { tick ≤ LAST_TICK },
    ghost room: { vec_len buffer ≡ 65536 },
}

impl ProcState {
    ghost use Rattle.proc_state.specs.Tie.{RepresentsProcesses};
}
