//! Laws of the states that a kernel and its devices represent at one moment.
#![tactic(auto)]

ghost use Rattle.std.specs.Prelude.{◌≡◌, ℕ};
ghost use Rattle.proc_model.specs.Processes.{cells_at};
ghost use Rattle.machine_model.specs.State.{State};
ghost use Rattle.os9_kernel.specs.declared.kernel.Kernel.{Kernel};
ghost use Rattle.os9_kernel.specs.Outside.{Outside};
ghost use Rattle.os9_kernel.specs.Tie.{Represents};
ghost use Rattle.state_laws.specs.Numbers.{DifferInNumbersAlone};
/// A kernel and its devices represent a single state, except for the numbers of objects: two such
/// states have the same live objects, one to one and with the same bytes, and all else is equal,
/// including the volumes that are mounted on the drives.
pub fn representation_is_unique()
    ensures { (kernel : Kernel) (devices : Outside) (s t : State)
        → Represents kernel devices s → Represents kernel devices t
        → DifferInNumbersAlone s t }
{}
/// If two states differ only in the numbers of objects, each process sees the same byte at each
/// address.
pub fn numbers_of_objects_are_not_seen()
    ensures { (s t : State) (process address : ℕ) → DifferInNumbersAlone s t
        → cells_at t.processes process address ≡ cells_at s.processes process address }
{}
