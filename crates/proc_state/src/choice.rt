//! The processes that are Ready become active, and one of them is chosen.

ghost use Rattle.std.specs.Prelude.{◌≡◌, ◌≢◌, ◌<◌, ℕ, Bool, IfSome};
ghost use Rattle.os9_sched.specs.Members.{is_active_in};
ghost use Rattle.proc_model.specs.Records.{IsLiving};
ghost use Rattle.proc_model.specs.Choice.{choice_of, after_choice};
ghost use Rattle.proc_model.specs.Processes.{Processes};
ghost use Rattle.proc_model.specs.IoReady.{has_io};
ghost use Rattle.proc_state.specs.Ready.{ready_at};
ghost use Rattle.proc_state.specs.Tie.{RepresentsProcesses};
ghost use Rattle.proc_state.specs.Active.{AreActiveAt};

use crate::state::ProcState;
use os9_base::limits::PROCESS_PLACES;
use os9_base::registers::Pid;
use proc_model::io_ready::IoReady;
use proc_model::record::Life;

/// Chooses the active process of greatest age, among equals the one that was chosen longest ago;
/// None if no process is active. If exactly the Ready ones are active, this is the choice of the
/// rules: the age of the chosen process becomes its priority, that of each other Ready one grows by
/// 1 up to 255, and that of each other one is its priority.
pub fn dispatch(s: &mut ProcState) -> Option<Pid>
    ensures chosen { (io : ℕ → Bool) (m : Processes) → AreActiveAt io m.tick s.old
        → RepresentsProcesses s.old m → result ≡ (choice_of io m).chosen }
    ensures tied { (io : ℕ → Bool) (m : Processes) → AreActiveAt io m.tick s.old
        → RepresentsProcesses s.old m → RepresentsProcesses s.new (after_choice io m) }
    ensures active { (io : ℕ → Bool) (tick : ℕ) → AreActiveAt io tick s.old
        → AreActiveAt io tick s.new }
    ensures tick { s.new.tick ≡ s.old.tick }
    ensures lives { IfSome result (λ p. IsLiving s.new.table p.0) }
{
    s.sched.dispatch()
}

/// Makes exactly the Ready processes active.
pub fn settle(s: &mut ProcState, io: &IoReady)
    ensures active { AreActiveAt (has_io io.now) s.new.tick s.new }
    ensures tied { (m : Processes) → RepresentsProcesses s.old m → RepresentsProcesses s.new m }
{
    for number in 0..PROCESS_PLACES {
        settle_one(s, Pid(number), io);
    }
}

/// Makes a process active if it is Ready, and puts it to rest otherwise.
fn settle_one(s: &mut ProcState, p: Pid, io: &IoReady)
    requires { p.0 < 33 }
    ensures active { is_active_in s.new.sched.members p.0
        ≡ ready_at (has_io io.now) s.new.tick s.new p.0 }
    ensures others { (q : ℕ) → q ≢ p.0
        → is_active_in s.new.sched.members q ≡ is_active_in s.old.sched.members q }
    ensures ready { (q : ℕ) → ready_at (has_io io.now) s.new.tick s.new q
        ≡ ready_at (has_io io.now) s.old.tick s.old q }
    ensures tied { (m : Processes) → RepresentsProcesses s.old m → RepresentsProcesses s.new m }
{
    if s.table.life(p) != Some(Life::Waiting) {
        return;
    }
    if s.ready(p, io) {
        s.sched.wake(p);
    } else {
        s.sched.rest(p);
    }
}
