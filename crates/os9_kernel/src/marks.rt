//! Whose waiting calls on paths may go on, as far as the kernel knows it without asking.

ghost use Rattle.std.specs.Prelude.{◌≡◌, ◌≢◌, ◌↔◌, ◌<◌, ℕ, false, Some, IsTrue};
ghost use Rattle.proc_model.specs.IoReady.{has_io};
ghost use Rattle.os9_kernel.specs.Marks.{Concerns};
ghost use Rattle.os9_sched.specs.declared.member.Cause.{Cause as CauseModel};

use os9_base::registers::Pid;
use os9_sched::Cause;
use proc_model::io_ready::IoReady;

/// Whom the attempts since the last look concern.
#[derive(Clone, Copy, Debug)]
pub(crate) enum Marks {
    /// Nobody.
    Nobody,
    /// This process, which made them, and who waits for what they were on.
    Waiters { process: Pid, cause: Option<Cause> },
    /// Everyone.
    Everyone,
}

impl Marks {
    /// These, and whom an attempt of a process on this concerns.
    pub(crate) fn add(self, process: Pid, cause: Option<Cause>) -> Marks
        ensures kept { (q : ℕ) (other : CauseModel) → Concerns self q other
            → Concerns result q other }
        ensures own { (other : CauseModel) → Concerns result process.0 other }
        ensures waiters { (q : ℕ) (other : CauseModel) → cause ≡ Some other
            → Concerns result q other }
    {
        match self {
            Marks::Nobody => Marks::Waiters { process, cause },
            Marks::Waiters {
                process: before,
                cause: on,
            } if before == process => { with_cause(process, on, cause) }
            Marks::Waiters { .. } | Marks::Everyone => Marks::Everyone,
        }
    }

    /// Is a process with this wait among them?
    pub(crate) fn concerns(self, p: Pid, cause: Cause) -> bool
        ensures { IsTrue result ↔ Concerns self p.0 cause }
    {
        match self {
            Marks::Nobody => false,
            Marks::Waiters { process, cause: on } => p == process || on == Some(cause),
            Marks::Everyone => true,
        }
    }
}

/// Whom the attempts of a process concern that were on these; everyone if they differ.
fn with_cause(process: Pid, on: Option<Cause>, cause: Option<Cause>) -> Marks
    ensures own { (other : CauseModel) → Concerns result process.0 other }
    ensures on { (q : ℕ) (other : CauseModel) → on ≡ Some other → Concerns result q other }
    ensures waiters { (q : ℕ) (other : CauseModel) → cause ≡ Some other → Concerns result q other }
{
    if cause.is_none() || cause == on {
        return Marks::Waiters { process, cause: on };
    }
    if on.is_none() {
        return Marks::Waiters { process, cause };
    }
    Marks::Everyone
}

/// Whose waiting calls may go on, as far as it is known.
#[derive(Clone, Copy, Debug)]
pub(crate) struct Known {
    /// Those whose calls may go on; of those whom the marks concern it is not known.
    pub(crate) ready: IoReady,
    /// The tick before which that is so, if nothing but the tick changes.
    pub(crate) until: u32,
    pub(crate) marks: Marks,
}

/// These processes, and this one if its call may go on.
pub(crate) fn with(ready: IoReady, p: Pid, goes: bool) -> IoReady
    requires process { p.0 < 33 }
    requires stands { has_io ready p.0 ≡ false }
    ensures own { has_io result p.0 ≡ goes }
    ensures others { (q : ℕ) → q ≢ p.0 → has_io result q ≡ has_io ready q }
{
    let mut more = ready;
    if goes {
        more.allow(p);
    }
    more
}
