ghost use Rattle.std.specs.Prelude.{◌≡◌, ◌<◌, ◌≤◌, ◌++◌, ◌∷◌, [], None, Some, IfOk, IfSome, IfNone, length, replicate, slice_set, vec_len};
ghost use Rattle.std.specs.Vec.{vec_capacity};
ghost use Rattle.proc_model.specs.Records.{IsProcessNumber};
ghost use Rattle.proc_model.specs.Turns as model;
ghost use Rattle.proc_model.specs.Turns.{without_turn};
ghost use Rattle.os9_sched.specs.Members.{member_of, member_at, IsMember, HasWait, HasNoWait, IsNextWaiting, NobodyWaits};
ghost use Rattle.os9_sched.specs.Schedule.{IsSchedule, with_priority, with_standing, after_add, after_remove, after_wait, after_wake, after_rest, after_go, after_tick, chosen, after_dispatch};
ghost use Rattle.os9_sched.specs.Dispatch.{grown_older, with_last};

use crate::list::{age, age_in, eldest, empty_places, next_waiting, priority_in, wake_due};
use crate::member::{Cause, Member, Standing, Wait, rested, woken};
use os9_base::call::OutOfMemory;
use os9_base::limits::PROCESS_PLACES;
use os9_base::registers::Pid;
use proc_model::turn::Turn;
use std::alloc::Global;
use std::marker::Model;

/// The processes in the order in which they were last chosen, with their ages, and what each of
/// them waits for. A process in it is active or resting, and has a cause or none.
#[derive(Drop)]
pub struct Sched {
    order: Vec<Turn>,
    members: Vec<Option<Member>>,
}

impl Model for Sched {
    ghost use Rattle.std.specs.Prelude.{◌≤◌};
    ghost use Rattle.std.specs.Vec.{vec_capacity};
    ghost use Rattle.os9_sched.specs.Schedule.{Schedule, IsSchedule};

    ghost Value = { Schedule };

    ghost view = { λ s. record { order = s.order.items; members = s.members.items } };

    ghost invariant = { λ s. record {
      schedule : IsSchedule (record { order = s.order.items; members = s.members.items });
      room : 33 ≤ vec_capacity s.order;
    } };
}

impl Sched {
    /// A scheduler without processes. Only this call takes memory.
    pub fn new(alloc: Global) -> Result<Sched, OutOfMemory>
        ensures empty { IfOk result (λ s. s
            ≡ record { order = []; members = replicate PROCESS_PLACES None }) }
    {
        Ok(Sched {
            order: Vec::with_capacity(alloc, PROCESS_PLACES as usize)?,
            members: empty_places(alloc)?,
        })
    }

    /// Adds a process, which is active without a cause. It counts as chosen now, and its age is its
    /// priority.
    pub fn add(&mut self, p: Pid, priority: u8)
        requires process { IsProcessNumber p.0 }
        requires apart { member_of self.old.members p.0 ≡ None }
        ensures schedule { self.new ≡ after_add self.old p priority }
        ensures shape { IsSchedule self.new }
    {
        push_turn(
            &mut self.order,
            Turn {
                process: p,
                age: priority,
            },
        );
        let standing = Standing::Going;
        self.members[p.0 as usize] = Some(Member { priority, standing });
    }

    /// Removes a process, active or resting.
    pub fn remove(&mut self, p: Pid)
        requires { IsMember self.old.members p.0 }
        ensures schedule { self.new ≡ after_remove self.old p.0 }
        ensures shape { IsSchedule self.new }
    {
        remove_turn(&mut self.order, p);
        self.members[p.0 as usize] = None;
    }

    /// Sets the priority of a process. Its age stays until the next dispatch.
    pub fn set_priority(&mut self, p: Pid, priority: u8)
        requires { IsMember self.old.members p.0 }
        ensures schedule { self.new ≡ with_priority self.old p.0 priority }
        ensures shape { IsSchedule self.new }
    {
        let member = self.member(p);
        self.put(p, Member { priority, ..member });
    }

    /// The age of a process.
    pub fn age(&self, p: Pid) -> u8
        requires { IsMember self.now.members p.0 }
        ensures age { model.age_in self.now.order p.0 ≡ Some result }
        ensures shape { IsSchedule self.now }
    {
        age_in(&self.order, p).unwrap()
    }

    /// The number of processes in it.
    pub fn count(&self) -> u8
        ensures count { result ≡ length self.now.order }
        ensures shape { IsSchedule self.now }
    {
        self.order.len() as u8
    }

    /// Puts a process to rest: it waits for this, until this tick if there is one.
    pub fn wait(&mut self, p: Pid, cause: Cause, until: Option<u32>)
        requires { HasNoWait self.old.members p.0 }
        ensures schedule { self.new
            ≡ after_wait self.old p.0 (record { cause = cause; until = until }) }
        ensures shape { IsSchedule self.new }
    {
        self.set_standing(p, Standing::Resting(Wait { cause, until }));
    }

    /// The process of least number above `after` that has this cause; None if there is none.
    pub fn next_waiting(&self, cause: Cause, after: u8) -> Option<Pid>
        ensures found { IfSome result (λ p. IsNextWaiting self.now.members cause after p.0) }
        ensures none { IfNone result (NobodyWaits self.now.members cause after) }
        ensures shape { IsSchedule self.now }
    {
        next_waiting(&self.members, cause, after)
    }

    /// Makes a process with a cause active. The cause stays.
    pub fn wake(&mut self, p: Pid)
        requires { HasWait self.old.members p.0 }
        ensures schedule { self.new ≡ after_wake self.old p.0 }
        ensures shape { IsSchedule self.new }
    {
        let member = self.member(p);
        self.set_standing(p, woken(member.standing));
    }

    /// Puts a process with a cause to rest. The cause stays.
    pub fn rest(&mut self, p: Pid)
        requires { HasWait self.old.members p.0 }
        ensures schedule { self.new ≡ after_rest self.old p.0 }
        ensures shape { IsSchedule self.new }
    {
        let member = self.member(p);
        self.set_standing(p, rested(member.standing));
    }

    /// Makes each process active if its tick is this one or an earlier one.
    pub fn wake_due(&mut self, tick: u32)
        ensures schedule { self.new ≡ after_tick self.old tick }
        ensures shape { IsSchedule self.new }
    {
        wake_due(&mut self.members, tick);
    }

    /// Makes a process active without a cause and a tick.
    pub fn go(&mut self, p: Pid)
        requires { IsMember self.old.members p.0 }
        ensures schedule { self.new ≡ after_go self.old p.0 }
        ensures shape { IsSchedule self.new }
    {
        self.set_standing(p, Standing::Going);
    }

    /// Chooses the active process of greatest age, among equals the one that was chosen longest
    /// ago; None if no process is active. The age of the chosen process becomes its priority, that
    /// of each other active one grows by 1 up to 255, and each resting one has its priority as its
    /// age, even if none is active.
    pub fn dispatch(&mut self) -> Option<Pid>
        ensures chosen { result ≡ chosen self.old }
        ensures schedule { self.new ≡ after_dispatch self.old }
        ensures shape { IsSchedule self.new }
    {
        let chosen = eldest(&self.order, &self.members);
        self.grow_older();
        if let Some(p) = chosen {
            self.put_last(p);
        }
        chosen
    }
}

impl Sched {
    fn member(&self, p: Pid) -> Member
        requires { IsMember self.now.members p.0 }
        ensures member { result ≡ member_at self.now.members p.0 }
        ensures shape { IsSchedule self.now }
    {
        self.members[p.0 as usize].unwrap()
    }

    fn put(&mut self, p: Pid, member: Member)
        requires { IsMember self.old.members p.0 }
        ensures schedule { self.new
            ≡ record self.old { members = slice_set self.old.members p.0 (Some member) } }
        ensures shape { IsSchedule self.new }
    {
        self.members[p.0 as usize] = Some(member);
    }

    fn set_standing(&mut self, p: Pid, standing: Standing)
        requires { IsMember self.old.members p.0 }
        ensures schedule { self.new ≡ with_standing self.old p.0 standing }
        ensures shape { IsSchedule self.new }
    {
        let member = self.member(p);
        self.put(p, Member { standing, ..member });
    }

    /// The ages after a dispatch, except that of the chosen process.
    fn grow_older(&mut self)
        ensures schedule { self.new ≡ grown_older self.old }
        ensures shape { IsSchedule self.new }
    {
        age(&mut self.order, &self.members);
    }

    /// Puts a process after the others, with its priority as its age.
    fn put_last(&mut self, p: Pid)
        requires { IsMember self.old.members p.0 }
        ensures schedule { self.new ≡ with_last self.old p }
        ensures shape { IsSchedule self.new }
    {
        let age = priority_in(&self.members, p);
        remove_turn(&mut self.order, p);
        push_turn(&mut self.order, Turn { process: p, age });
    }
}

/// Puts a turn after the others.
fn push_turn(order: &mut Vec<Turn>, turn: Turn)
    requires room { vec_len order.old < vec_capacity order.old }
    ensures items { order.new.items ≡ order.old.items ++ turn ∷ [] }
    ensures capacity { vec_capacity order.old ≤ vec_capacity order.new }
{
    let _ = order.push(turn);
}

/// Removes the turn of a process.
fn remove_turn(order: &mut Vec<Turn>, p: Pid)
    ensures items { order.new.items ≡ without_turn order.old.items p.0 }
    ensures capacity { vec_capacity order.new ≡ vec_capacity order.old }
{
    order.retain(|turn| turn.process != p);
}
