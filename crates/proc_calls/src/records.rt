//! Calls that read and change the record of a process.

ghost use Rattle.std.specs.Prelude.{◌≡◌};
ghost use Rattle.proc_model.specs.Records.{IsLiving, is_living};
ghost use Rattle.proc_model.specs.Signals.{is_reached};
ghost use Rattle.proc_model.specs.Processes.{Processes};
ghost use Rattle.proc_model.specs.Id.{f_id as f_id_model};
ghost use Rattle.proc_model.specs.SPrior.{f_sprior as f_sprior_model};
ghost use Rattle.proc_model.specs.SUser.{f_suser as f_suser_model};
ghost use Rattle.proc_state.specs.Tie.{RepresentsProcesses, ReturnsCallEnd};

use os9_base::call::CallEnd;
use os9_base::errors::E_IPRCID;
use os9_base::registers::{Pid, Regs};
use proc_model::record::Life;
use proc_state::state::ProcState;
use process_table::Table;

/// The user that may act on every process.
const SUPERUSER: u16 = 0;

/// F$ID: returns the process number and the user (System Programmer's Manual, F$ID): the number in
/// A and the user in Y.
pub fn f_id(s: &mut ProcState, p: Pid) -> CallEnd
    requires lives { IsLiving s.old.table p.0 }
    ensures call { (m : Processes) → RepresentsProcesses s.old m
        → ReturnsCallEnd m p.0 (f_id_model m p.0) result s.new }
    ensures lives { IsLiving s.new.table p.0 }
{
    let user = s.table.user(p);
    let regs = s.regs(p);
    let regs = Regs {
        a: p.0,
        y: user,
        ..regs
    };
    s.set_regs(p, regs);
    CallEnd::Done
}

/// F$SUser: gives the process to the user in Y (System Programmer's Manual, F$SUser).
pub fn f_suser(s: &mut ProcState, p: Pid) -> CallEnd
    requires lives { IsLiving s.old.table p.0 }
    ensures call { (m : Processes) → RepresentsProcesses s.old m
        → ReturnsCallEnd m p.0 (f_suser_model m p.0) result s.new }
    ensures lives { IsLiving s.new.table p.0 }
{
    let regs = s.regs(p);
    s.table.set_user(p, regs.y);
    CallEnd::Done
}

/// F$SPrior: gives the process in A the priority in B (System Programmer's Manual, F$SPrior). Its
/// age stays until the next choice.
///
/// # Errors
///
/// E$IPrcID exactly if no such process lives, or it is another user's and the caller is not
/// user 0.
pub fn f_sprior(s: &mut ProcState, p: Pid) -> CallEnd
    requires lives { IsLiving s.old.table p.0 }
    ensures call { (m : Processes) → RepresentsProcesses s.old m
        → ReturnsCallEnd m p.0 (f_sprior_model m p.0) result s.new }
    ensures lives { IsLiving s.new.table p.0 }
{
    let regs = s.regs(p);
    let user = s.table.user(p);
    let target = Pid(regs.a);
    if !reaches(&s.table, user, target) {
        return CallEnd::Error(E_IPRCID);
    }
    s.table.set_priority(target, regs.b);
    s.sched.set_priority(target, regs.b);
    CallEnd::Done
}

/// May this user act on this process? It lives, and it is the user's own or the user is 0.
fn reaches(table: &Table, user: u16, p: Pid) -> bool
    ensures { result ≡ is_reached table.now user p.0 }
{
    lives(table, p) && (table.user(p) == user || user == SUPERUSER)
}

/// Does a process live?
fn lives(table: &Table, p: Pid) -> bool
    ensures { result ≡ is_living table.now p.0 }
{
    matches!(table.life(p), Some(Life::Running | Life::Waiting))
}
