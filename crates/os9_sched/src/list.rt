ghost use Rattle.std.specs.Prelude.{◌≡◌, ◌==◌, Some, None, IfOk, IfSome, IfNone, option_map, map, length, replicate};
ghost use Rattle.std.specs.List.{find};
ghost use Rattle.proc_model.specs.Turns.{age_in as age_in_model, ready_turns, greatest_age as greatest_age_model, eldest as eldest_model, aged};
ghost use Rattle.os9_sched.specs.Elder.{elder as elder_model};
ghost use Rattle.os9_sched.specs.Waits.{woken_at as woken_at_model};
ghost use Rattle.os9_sched.specs.Members.{IsMember, is_active_in as is_active_in_model, priority_in as priority_in_model, IsNextWaiting, NobodyWaits};

use crate::member::{Cause, Member, is_active, waits_for, woken_at};
use os9_base::limits::PROCESS_PLACES;
use os9_base::registers::Pid;
use proc_model::turn::Turn;
use std::alloc::{AllocError, Global};

/// Places without members.
pub fn empty_places(alloc: Global) -> Result<Vec<Option<Member>>, AllocError>
    ensures { IfOk result (λ places. places.items ≡ replicate PROCESS_PLACES None) }
{
    let mut places = Vec::with_capacity(alloc, PROCESS_PLACES as usize)?;
    'fill: while places.len() < PROCESS_PLACES as usize {
        places.push(None)?;
    }
    Ok(places)
}

/// Is this process a member, and active?
pub fn is_active_in(members: &[Option<Member>], p: Pid) -> bool
    ensures { result ≡ is_active_in_model members.now p.0 }
{
    match members.get(p.0 as usize) {
        Some(Some(member)) => is_active(member.standing),
        _ => false,
    }
}

/// The priority of a process, if it is a member.
pub fn priority_in(members: &[Option<Member>], p: Pid) -> u8
    ensures { result ≡ priority_in_model members.now p.0 }
{
    match members.get(p.0 as usize) {
        Some(Some(member)) => member.priority,
        _ => 0,
    }
}

/// The age of a process, if it has a turn.
pub fn age_in(order: &[Turn], p: Pid) -> Option<u8>
    ensures { result ≡ age_in_model order.now p.0 }
{
    let turn = order.iter().find(|turn| turn.process == p)?;
    Some(turn.age)
}

/// The active process of greatest age; of several the first one.
pub fn eldest(order: &[Turn], members: &[Option<Member>]) -> Option<Pid>
    ensures eldest { result ≡ eldest_model
        (ready_turns (is_active_in_model members.now) order.now) }
    ensures member { IfSome result (λ p. IsMember members.now p.0) }
{
    let turn = eldest_turn(order, members)?;
    Some(turn.process)
}

/// The turn of this process.
fn eldest_turn(order: &[Turn], members: &[Option<Member>]) -> Option<Turn>
    ensures eldest { let turns = ready_turns (is_active_in_model members.now) order.now in
        result ≡ find (λ t. t.age == greatest_age_model turns) turns }
    ensures member { IfSome result (λ t. IsMember members.now t.process.0) }
{
    let mut eldest = None;
    for turn in order {
        if is_active_in(members, turn.process) {
            eldest = Some(elder(eldest, *turn));
        }
    }
    eldest
}

/// The elder of two turns, if there are two; of equals the first one.
fn elder(first: Option<Turn>, second: Turn) -> Turn
    ensures { Some result ≡ elder_model first second }
{
    match first {
        Some(turn) if second.age <= turn.age => turn,
        _ => second,
    }
}

/// The ages after a choice of another process: an active process grows older by 1 up to 255, and a
/// resting one has its priority.
pub fn age(order: &mut [Turn], members: &[Option<Member>])
    ensures { order.new
        ≡ map (aged (is_active_in_model members.now) (priority_in_model members.now)) order.old }
{
    for turn in order.iter_mut() {
        turn.age = age_after(*turn, members);
    }
}

/// The age of a turn after a choice of another process.
fn age_after(turn: Turn, members: &[Option<Member>]) -> u8
    ensures { result
        ≡ (aged (is_active_in_model members.now) (priority_in_model members.now) turn).age }
{
    match members.get(turn.process.0 as usize) {
        Some(Some(member)) if is_active(member.standing) => turn.age.saturating_add(1),
        Some(Some(resting)) => resting.priority,
        _ => 0,
    }
}

/// Makes each process active if its tick is reached.
pub fn wake_due(members: &mut [Option<Member>], tick: u32)
    ensures { members.new ≡ map (option_map (woken_at_model tick)) members.old }
{
    for place in members.iter_mut() {
        *place = place.map(|member| woken_at(tick, member));
    }
}

/// The process of least number above `after` that waits for this.
pub fn next_waiting(members: &[Option<Member>], cause: Cause, after: u8) -> Option<Pid>
    requires { length members.now ≡ PROCESS_PLACES }
    ensures found { IfSome result (λ p. IsNextWaiting members.now cause after p.0) }
    ensures none { IfNone result (NobodyWaits members.now cause after) }
{
    for number in after as usize + 1..members.len() {
        if waits_for(members[number], cause) {
            return Some(Pid(number as u8));
        }
    }
    None
}
