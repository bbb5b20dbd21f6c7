ghost use Rattle.std.specs.Prelude.{◌≡◌, ◌<◌, IsSome, IfOk, IfSome, Some, None, option_map, is_some, map, replicate, slice_set};
ghost use Rattle.std.specs.Result.{result_err};
ghost use Rattle.proc_model.specs.Records as model;
ghost use Rattle.proc_model.specs.Records.{IsLiving, AreProcessRecords, record_of, record_at, after_make, with_user, with_priority, with_regs, with_waiting, IsProcessNumber};
ghost use Rattle.proc_model.specs.Ends.{reaped, after_reap, after_exit, orphaned, end_status};
ghost use Rattle.proc_model.specs.Signals.{is_reached, send_fault, after_send, intercept_of, with_intercept, with_signal};

use crate::list::{empty_places, ended_child, free_process, has_child, orphan};
use crate::places::{ended, new_record};
use os9_base::call::OutOfMemory;
use os9_base::limits::PROCESS_PLACES;
use os9_base::registers::{Pid, Regs};
use proc_model::record::{Intercept, Life, Reap, Record, SendFault};
use std::alloc::Global;
use std::marker::Model;

/// The signal that ends a sleep, S$Wake. It is never pending.
const WAKE: u8 = 1;

/// The user that may act on every process.
const SUPERUSER: u16 = 0;

/// The records of up to 31 processes, by number from 2 to 32.
#[derive(Drop)]
pub struct Table {
    records: Vec<Option<Record>>,
}

impl Model for Table {
    ghost use Rattle.std.specs.Prelude.{List, Option};
    ghost use Rattle.proc_model.specs.declared.record.Record.{Record};
    ghost use Rattle.proc_model.specs.Records.{AreProcessRecords};

    ghost Value = { List (Option Record) };

    ghost view = { λ table. table.records.items };

    ghost invariant = { λ table. AreProcessRecords table.records.items };
}

impl Table {
    /// A table without records. Only this call takes memory.
    pub fn new(alloc: Global) -> Result<Table, OutOfMemory>
        ensures empty { IfOk result (λ table. table ≡ replicate PROCESS_PLACES None) }
    {
        Ok(Table {
            records: empty_places(alloc)?,
        })
    }

    /// Makes the record of a new process with the least number from 2 to 32 that no record has. The
    /// process runs, its registers are all 0, and it has no intercept and no signal. A parent of 0
    /// means none. Returns None if there are 31 records.
    pub fn make(&mut self, parent: Pid, user: u16, priority: u8) -> Option<Pid>
        ensures number { option_map (λ p. p.0) result ≡ model.free_process self.old }
        ensures records { self.new ≡ after_make self.old parent user priority }
        ensures shape { AreProcessRecords self.new }
    {
        let p = free_process(&self.records)?;
        self.put(p, Some(new_record(parent, user, priority)));
        Some(p)
    }

    /// The least number from 2 to 32 that no record has; None if there are 31 records.
    pub fn free(&self) -> Option<Pid>
        ensures number { option_map (λ p. p.0) result ≡ model.free_process self.now }
        ensures process { IfSome result (λ p. IsProcessNumber p.0) }
        ensures shape { AreProcessRecords self.now }
    {
        free_process(&self.records)
    }

    /// What a process is doing; None if it has no record.
    pub fn life(&self, p: Pid) -> Option<Life>
        ensures life { result ≡ option_map (λ r. r.life) (record_of self.now p.0) }
        ensures shape { AreProcessRecords self.now }
    {
        match self.records.get(p.0 as usize) {
            Some(Some(record)) => Some(record.life),
            _ => None,
        }
    }

    /// The parent of a process that has a record, even of an ended one; 0 if there is none.
    pub fn parent(&self, p: Pid) -> Pid
        requires { IsSome (record_of self.now p.0) }
        ensures parent { result ≡ (record_at self.now p.0).parent }
        ensures shape { AreProcessRecords self.now }
    {
        self.record(p).parent
    }

    /// Makes a process waiting, or running.
    pub fn set_waiting(&mut self, p: Pid, waits: bool)
        requires { IsLiving self.old p.0 }
        ensures records { self.new ≡ with_waiting self.old p.0 waits }
        ensures shape { AreProcessRecords self.new }
    {
        let life = if waits { Life::Waiting } else { Life::Running };
        let record = self.record(p);
        self.put(p, Some(Record { life, ..record }));
    }

    /// The number of the user who owns the process.
    pub fn user(&self, p: Pid) -> u16
        requires { IsLiving self.now p.0 }
        ensures user { result ≡ (record_at self.now p.0).user }
        ensures shape { AreProcessRecords self.now }
    {
        self.record(p).user
    }

    /// Gives a process to another user.
    pub fn set_user(&mut self, p: Pid, user: u16)
        requires { IsLiving self.old p.0 }
        ensures records { self.new ≡ with_user self.old p.0 user }
        ensures shape { AreProcessRecords self.new }
    {
        let record = self.record(p);
        self.put(p, Some(Record { user, ..record }));
    }

    /// The age of the process after each time that it is chosen.
    pub fn priority(&self, p: Pid) -> u8
        requires { IsLiving self.now p.0 }
        ensures priority { result ≡ (record_at self.now p.0).priority }
        ensures shape { AreProcessRecords self.now }
    {
        self.record(p).priority
    }

    /// Sets the priority of a process.
    pub fn set_priority(&mut self, p: Pid, priority: u8)
        requires { IsLiving self.old p.0 }
        ensures records { self.new ≡ with_priority self.old p.0 priority }
        ensures shape { AreProcessRecords self.new }
    {
        let record = self.record(p);
        self.put(p, Some(Record { priority, ..record }));
    }

    /// The registers as the next instruction of the process finds them.
    pub fn regs(&self, p: Pid) -> Regs
        requires { IsLiving self.now p.0 }
        ensures regs { result ≡ (record_at self.now p.0).regs }
        ensures shape { AreProcessRecords self.now }
    {
        self.record(p).regs
    }

    /// Sets the registers that the next instruction of a process finds.
    pub fn set_regs(&mut self, p: Pid, r: Regs)
        requires { IsLiving self.old p.0 }
        ensures records { self.new ≡ with_regs self.old p.0 r }
        ensures shape { AreProcessRecords self.new }
    {
        let record = self.record(p);
        self.put(p, Some(Record { regs: r, ..record }));
    }

    /// Ends a process with this status (System Programmer's Manual, F$Exit). The records of its
    /// ended children are removed, and the living ones have no parent any more. Its own record is
    /// kept for its parent, or removed if it has none.
    pub fn exit(&mut self, p: Pid, status: u8)
        requires { IsLiving self.old p.0 }
        ensures records { self.new ≡ after_exit self.old p.0 status }
        ensures shape { AreProcessRecords self.new }
    {
        let record = self.record(p);
        self.orphan(p);
        self.put(p, ended(record, status));
    }

    /// Returns to a parent its ended child of least number, and the status with which it has ended
    /// (System Programmer's Manual, F$Wait). The child's record is removed.
    ///
    /// # Errors
    ///
    /// `NoChild` if no record has this parent, and else `NotYet` if none of those has ended. No
    /// record changes then.
    pub fn reap(&mut self, parent: Pid) -> Result<(Pid, u8), Reap>
        ensures child { result ≡ reaped self.old parent.0 }
        ensures records { self.new ≡ after_reap self.old parent.0 }
        ensures shape { AreProcessRecords self.new }
    {
        let Some(child) = ended_child(&self.records, parent) else {
            return Err(if has_child(&self.records, parent) {
                Reap::NotYet
            } else {
                Reap::NoChild
            });
        };
        let status = self.status(child);
        self.put(child, None);
        Ok((child, status))
    }

    /// Sends a signal to a process (System Programmer's Manual, F$Send). It is pending then; signal
    /// 1, which only ends a sleep, changes no record.
    ///
    /// # Errors
    ///
    /// `NoProcess` if no such process lives, or if it is another user's and `from_user` is not 0;
    /// else `Pending` if a signal is already pending there and the one sent is not 1. No record
    /// changes then.
    pub fn send(&mut self, from_user: u16, to: Pid, signal: u8) -> Result<(), SendFault>
        ensures fault { result_err result ≡ send_fault self.old from_user to.0 signal }
        ensures records { self.new ≡ after_send self.old from_user to.0 signal }
        ensures shape { AreProcessRecords self.new }
    {
        let record = self.reached(from_user, to).ok_or(SendFault::NoProcess)?;
        if signal == WAKE {
            return Ok(());
        }
        if record.signal.is_some() {
            return Err(SendFault::Pending);
        }
        let signal = Some(signal);
        self.put(to, Some(Record { signal, ..record }));
        Ok(())
    }

    /// Sets the routine that receives the signals of a process, and the address that the routine
    /// finds in U (System Programmer's Manual, F$Icpt). A routine of 0 removes the intercept.
    pub fn intercept(&mut self, p: Pid, routine: u16, area: u16)
        requires { IsLiving self.old p.0 }
        ensures records { self.new ≡ with_intercept self.old p.0 (intercept_of routine area) }
        ensures shape { AreProcessRecords self.new }
    {
        let intercept = if routine == 0 {
            None
        } else {
            Some(Intercept { routine, area })
        };
        let record = self.record(p);
        self.put(
            p,
            Some(Record {
                intercept,
                ..record
            }),
        );
    }

    /// The routine and the area of the intercept; None if there is no intercept.
    pub fn handler(&self, p: Pid) -> Option<(u16, u16)>
        requires { IsLiving self.now p.0 }
        ensures handler { result
            ≡ option_map (λ h. (h.routine, h.area)) (record_at self.now p.0).intercept }
        ensures shape { AreProcessRecords self.now }
    {
        let intercept = self.record(p).intercept?;
        Some((intercept.routine, intercept.area))
    }

    /// The pending signal.
    pub fn due_signal(&self, p: Pid) -> Option<u8>
        requires { IsLiving self.now p.0 }
        ensures signal { result ≡ (record_at self.now p.0).signal }
        ensures shape { AreProcessRecords self.now }
    {
        self.record(p).signal
    }

    /// Takes the pending signal, if there is one.
    pub fn clear_signal(&mut self, p: Pid) -> Option<u8>
        requires { IsLiving self.old p.0 }
        ensures signal { result ≡ (record_at self.old p.0).signal }
        ensures records { self.new ≡ with_signal self.old p.0 None }
        ensures shape { AreProcessRecords self.new }
    {
        let record = self.record(p);
        let signal = None;
        self.put(p, Some(Record { signal, ..record }));
        record.signal
    }
}

impl Table {
    fn record(&self, p: Pid) -> Record
        requires { IsSome (record_of self.now p.0) }
        ensures record { result ≡ record_at self.now p.0 }
        ensures process { IsProcessNumber p.0 }
        ensures shape { AreProcessRecords self.now }
    {
        self.records[p.0 as usize].unwrap()
    }

    fn put(&mut self, p: Pid, place: Option<Record>)
        requires { IsProcessNumber p.0 }
        ensures records { self.new ≡ slice_set self.old p.0 place }
        ensures shape { AreProcessRecords self.new }
    {
        self.records[p.0 as usize] = place;
    }

    /// Removes this parent from its children, and the records of the ended ones.
    fn orphan(&mut self, parent: Pid)
        ensures records { self.new ≡ map (orphaned parent.0) self.old }
        ensures shape { AreProcessRecords self.new }
    {
        orphan(&mut self.records, parent);
    }

    /// The record of a living process on which this user may act.
    fn reached(&self, user: u16, p: Pid) -> Option<Record>
        ensures reached { is_some result ≡ is_reached self.now user p.0 }
        ensures record { IfSome result (λ r. r ≡ record_at self.now p.0) }
        ensures process { IfSome result (λ r. IsProcessNumber p.0) }
        ensures shape { AreProcessRecords self.now }
    {
        let record = (*self.records.get(p.0 as usize)?)?;
        let lives = !matches!(record.life, Life::Ended(_));
        if lives && (record.user == user || user == SUPERUSER) {
            Some(record)
        } else {
            None
        }
    }

    /// The status with which a process has ended.
    fn status(&self, p: Pid) -> u8
        requires { IsSome (record_of self.now p.0) }
        ensures status { result ≡ end_status (record_at self.now p.0).life }
        ensures shape { AreProcessRecords self.now }
    {
        match self.record(p).life {
            Life::Ended(status) => status,
            Life::Running | Life::Waiting => 0,
        }
    }
}
