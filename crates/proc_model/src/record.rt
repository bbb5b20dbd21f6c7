ghost use Rattle.std.specs.Prelude.{◌≡◌, Some, None, Ok, Err, option_map};
ghost use Rattle.proc_model.specs.Records.{record_of, record_at, free_process};
ghost use Rattle.proc_model.specs.Ends.{family, family_ended, reaped, after_reap, after_exit};
ghost use Rattle.proc_model.specs.Signals.{send_fault, after_send};

use os9_base::registers::{Pid, Regs};
use thiserror::Error;

/// What a process is doing.
#[derive(Clone, Copy, Debug, PartialEq, Eq)]
pub enum Life {
    /// It runs instructions.
    Running,
    /// It waits in a call that has been attempted.
    Waiting,
    /// It has ended with this status, which no parent has received yet.
    Ended(u8),
}

/// What F$Icpt sets for the signals of a process (System Programmer's Manual, F$Icpt).
#[derive(Clone, Copy, Debug, PartialEq, Eq)]
pub struct Intercept {
    /// The address of the routine that receives a signal; never 0.
    pub routine: u16,
    /// The address that the routine finds in U.
    pub area: u16,
}

/// The record of a process (System Programmer's Manual, process descriptors).
#[derive(Clone, Copy, Debug)]
pub struct Record {
    /// The process that may wait for this one; 0 if there is none.
    pub parent: Pid,
    /// The number of the user who owns the process; 0 is the superuser.
    pub user: u16,
    /// The age of the process after each time that it is chosen.
    pub priority: u8,
    /// The registers, as the next instruction finds them.
    pub regs: Regs,
    pub life: Life,
    pub intercept: Option<Intercept>,
    /// The pending signal.
    pub signal: Option<u8>,
}

/// Why a parent receives no ended child (System Programmer's Manual, F$Wait).
#[derive(Clone, Copy, Debug, PartialEq, Eq, Error)]
pub enum Reap {
    /// No process has this parent: error 226.
    #[error("no child")]
    NoChild,
    /// None of the children has ended.
    #[error("no child has ended")]
    NotYet,
}

/// Why a signal is not sent (System Programmer's Manual, F$Send).
#[derive(Clone, Copy, Debug, PartialEq, Eq, Error)]
pub enum SendFault {
    /// No such process lives, or it is another user's and the sender is not user 0: error 224.
    #[error("no such process")]
    NoProcess,
    /// Another signal is pending there: error 233.
    #[error("signal pending")]
    Pending,
}

/// A parent receives its ended children in the order of their numbers, each once, and the numbers
/// are used again. Processes 3 and 4 are the children of process 2.
pub fn an_ended_child_is_given_once()
    ensures not_yet { reaped family 2 ≡ Err Reap.NotYet }
    ensures least_first { reaped family_ended 2 ≡ Ok (record { 0 = 3 }, 9) }
    ensures then_the_other { reaped (after_reap family_ended 2) 2 ≡ Ok (record { 0 = 4 }, 7) }
    ensures none_left { reaped (after_reap (after_reap family_ended 2) 2) 2 ≡ Err Reap.NoChild }
    ensures number_again { free_process (after_reap (after_exit family 3 9) 2) ≡ Some 3 }
{}

/// A parent that ends leaves no record of its ended children, nor of itself if it has no parent,
/// and its living children have no parent any more.
pub fn a_parent_ends_before_its_children()
    ensures parent_gone { record_of (after_exit (after_exit family 3 9) 2 1) 2 ≡ None }
    ensures ended_child_gone { record_of (after_exit (after_exit family 3 9) 2 1) 3 ≡ None }
    ensures living_child_stays { option_map (λ r. r.parent) (record_of (after_exit family 2 1) 4)
        ≡ Some (record { 0 = 0 }) }
{}

/// A second signal is refused while one is pending, even signal 0, and signal 1 is never pending.
/// The processes are user 7's.
pub fn one_signal_is_pending()
    ensures sent { (record_at (after_send family 0 3 7) 3).signal ≡ Some 7 }
    ensures pending { send_fault (after_send family 0 3 7) 7 3 0 ≡ Some SendFault.Pending }
    ensures wake { (record_at (after_send family 7 3 1) 3).signal ≡ None }
    ensures wake_beside { send_fault (after_send family 0 3 7) 7 3 1 ≡ None }
    ensures other_user { send_fault (after_send family 0 3 7) 8 3 0 ≡ Some SendFault.NoProcess }
    ensures ended { send_fault (after_exit family 3 9) 0 3 7 ≡ Some SendFault.NoProcess }
{}
