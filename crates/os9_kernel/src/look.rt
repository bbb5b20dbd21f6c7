//! Who is Ready: whom a choice looks at.

ghost use Rattle.std.specs.Prelude.{◌≡◌, ◌<◌, ◌^◌, ℕ, true, IfNone, IfSome, option_and_then, slice_index_or};
ghost use Rattle.proc_model.specs.Processes.{no_own};
ghost use Rattle.proc_model.specs.IoReady.{has_io};
ghost use Rattle.file_rules.specs.Locking.{files_may_go};
ghost use Rattle.machine_model.specs.State.{State};
ghost use Rattle.os9_kernel.specs.Causes.{awaited};
ghost use Rattle.os9_kernel.specs.Looks.{EndsNotBefore, may_go_in};
ghost use Rattle.os9_kernel.specs.Marks.{Concerns};
ghost use Rattle.os9_kernel.specs.Outside.{Outside};
ghost use Rattle.os9_kernel.specs.Tie.{IsKnown, Represents, ticks};
ghost use Rattle.proc_state.specs.Active.{AreActiveAt};

use crate::kernel::Kernel;
use crate::marks::{Known, Marks, with};
use os9_base::limits::PROCESS_PLACES;
use os9_base::registers::Pid;
use os9_sched::{Cause, Wait};
use proc_model::io_ready::IoReady;
use proc_state::choice::settle;

impl Kernel {
    /// Makes exactly the Ready processes active. If only instructions were executed since the last
    /// look, it looks at them only if a tick is reached that ends a sleep or a wait for a record.
    pub(crate) fn look(&mut self)
        ensures represents { (devices : Outside) (s : State) → Represents self.old devices s
            → Represents self.new devices s }
        ensures active { (devices : Outside) (s : State) → Represents self.old devices s
            → AreActiveAt
            (files_may_go s.files s.processes.tick) s.processes.tick self.new.machine.processes }
        ensures count { ticks self.new ≡ ticks self.old }
    {
        let tick = self.machine.processes.tick;
        if tick < self.looked_until {
            return;
        }
        self.known = self.asked();
        settle(&mut self.machine.processes, &self.known.ready);
        self.looked_until = self.next_sleep().min(self.known.until);
    }

    /// Whose waiting calls on paths may go on in this tick. Only those are asked whom the attempts
    /// since the last look concern, unless this tick ends a wait for a record. If nobody waits,
    /// everyone is marked, so that no attempt looks up whom it concerns.
    fn asked(&self) -> Known
        ensures may_go { IsKnown self.now → (p : ℕ) → p < 33
            → has_io result.ready p ≡ may_go_in self.now.machine.files (ticks self.now) p }
        ensures waits { (p : ℕ) → p < 33 → EndsNotBefore (ticks self.now) result.until
            (option_and_then (λ wait. wait.until) (awaited self.now.machine.files p)) }
        ensures fits { result.until < 2 ^ 32 }
    {
        let mut ready = IoReady::none();
        let mut until = u32::MAX;
        let mut marks = Marks::Everyone;
        for number in 0..PROCESS_PLACES {
            let p = Pid(number);
            let wait = self.machine.files.waits_for(p);
            ready = with(ready, p, self.goes(p, wait));
            until = until.min(later(self.machine.processes.tick, until_of(wait)));
            marks = marks_beside(marks, wait);
        }
        Known {
            ready,
            until,
            marks,
        }
    }

    /// May the call on a path of a process that waits for this go on in this tick?
    fn goes(&self, p: Pid, wait: Option<Wait>) -> bool
        requires process { p.0 < 33 }
        requires waits { wait ≡ awaited self.now.machine.files p.0 }
        ensures { IsKnown self.now
            → result ≡ may_go_in self.now.machine.files (ticks self.now) p.0 }
    {
        match wait {
            None => false,
            Some(wait) => {
                if self.knows(p, wait.cause) {
                    self.known.ready.allows(p)
                } else {
                    self.may_go(p)
                }
            }
        }
    }

    /// Is it known whether the call of a process that waits for this may go on?
    fn knows(&self, p: Pid, cause: Cause) -> bool
        ensures early { result ≡ true → ticks self.now < self.now.known.until }
        ensures apart { result ≡ true → Concerns self.now.known.marks p.0 cause → ⊥ }
    {
        self.machine.processes.tick < self.known.until && !self.known.marks.concerns(p, cause)
    }

    /// May the waiting call of a process on a path go on in this tick?
    fn may_go(&self, p: Pid) -> bool
        requires { p.0 < 33 }
        ensures { result ≡ may_go_in self.now.machine.files (ticks self.now) p.0 }
    {
        let files = &self.machine.files;
        files.io.may_go(p) || files.records.locks().may_go(p, self.machine.processes.tick)
    }

    /// The next tick that ends a sleep, or the largest number if there is none.
    fn next_sleep(&self) -> u32
        ensures sleeps { (p : ℕ) → p < 33 → EndsNotBefore (ticks self.now) result
            (slice_index_or self.now.machine.processes.own.items p no_own).until }
        ensures fits { result < 2 ^ 32 }
    {
        let mut least = u32::MAX;
        for number in 0..PROCESS_PLACES {
            let end = self.machine.processes.own(Pid(number)).until;
            least = least.min(later(self.machine.processes.tick, end));
        }
        least
    }
}

/// The marks of a look, after a process that waits for this: nobody's, as soon as one waits.
fn marks_beside(marks: Marks, wait: Option<Wait>) -> Marks
    ensures none { IfNone wait (result ≡ marks) }
    ensures some { IfSome wait (λ wait. result ≡ Marks.Nobody) }
{
    match wait {
        None => marks,
        Some(_) => Marks::Nobody,
    }
}

/// The tick that ends a wait, if one does.
fn until_of(wait: Option<Wait>) -> Option<u32>
    ensures { result ≡ option_and_then (λ wait. wait.until) wait }
{
    wait.and_then(|wait| wait.until)
}

/// This tick if there is one and it is after `now`, else the largest number.
fn later(now: u32, end: Option<u32>) -> u32
    ensures { EndsNotBefore now result end }
{
    match end {
        Some(tick) if now < tick => tick,
        Some(_) | None => u32::MAX,
    }
}
