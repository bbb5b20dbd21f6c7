//! The numbers of errors for refusals below a call.

ghost use Rattle.std.specs.Prelude.{◌≡◌};
ghost use Rattle.proc_model.specs.Memory as model;

use os9_base::errors::{E_MEMFUL, E_NORAM};
use proc_model::memory::MemoryFault;

/// The error of a refused change of memory.
pub fn memory_error(fault: MemoryFault) -> u8
    ensures { result ≡ model.memory_error fault }
{
    match fault {
        MemoryFault::MemFull => E_MEMFUL,
        MemoryFault::NoRam => E_NORAM,
    }
}
