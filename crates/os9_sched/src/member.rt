ghost use Rattle.std.specs.Prelude.{◌≡◌, ◌↔◌, IsTrue, Some, Option, option_map};
ghost use Rattle.os9_sched.specs.Members.{wait_at};
ghost use Rattle.os9_sched.specs.Waits as model;

/// What a process waits for.
#[derive(Clone, Copy, Debug, PartialEq, Eq)]
pub enum Cause {
    /// The end of a child.
    Child,
    /// A tick, or signal 1.
    Sleep,
    /// A key of the terminal of this number.
    Term(u8),
    /// The pipe of this number.
    Pipe(u8),
    /// A record of the file with this descriptor on this drive.
    Lock(u8, u32),
}

/// A cause, and the tick at which the wait is over in any case.
#[derive(Clone, Copy, Debug)]
pub struct Wait {
    pub cause: Cause,
    pub until: Option<u32>,
}

/// Whether a process may be chosen, and what it waits for.
#[derive(Clone, Copy, Debug)]
pub enum Standing {
    /// Active, without a cause.
    Going,
    /// Active, with the cause of a wait that may be over.
    Woken(Wait),
    /// Resting.
    Resting(Wait),
}

/// What the scheduler keeps of a process, other than its turn.
#[derive(Clone, Copy, Debug)]
pub struct Member {
    pub priority: u8,
    pub standing: Standing,
}

/// May a process of this standing be chosen?
pub fn is_active(standing: Standing) -> bool
    ensures { result ≡ model.is_active standing }
{
    match standing {
        Standing::Going | Standing::Woken(_) => true,
        Standing::Resting(_) => false,
    }
}

/// The standing made active; the cause stays.
pub fn woken(standing: Standing) -> Standing
    ensures { result ≡ model.woken standing }
{
    match standing {
        Standing::Going => Standing::Going,
        Standing::Woken(wait) | Standing::Resting(wait) => Standing::Woken(wait),
    }
}

/// The standing put to rest, if it has a cause; the cause stays.
pub fn rested(standing: Standing) -> Standing
    ensures { result ≡ model.rested standing }
{
    match standing {
        Standing::Going => Standing::Going,
        Standing::Woken(wait) | Standing::Resting(wait) => Standing::Resting(wait),
    }
}

/// The process made active if it has a tick that is reached.
pub fn woken_at(tick: u32, member: Member) -> Member
    ensures { result ≡ model.woken_at tick member }
{
    if !is_due(tick, member.standing) {
        return member;
    }
    let standing = woken(member.standing);
    Member { standing, ..member }
}

/// Does a process of this standing have a tick that is reached?
fn is_due(tick: u32, standing: Standing) -> bool
    ensures { result ≡ model.is_due tick standing }
{
    let until = wait_of(standing).and_then(|wait| wait.until);
    until.is_some_and(|until| until <= tick)
}

/// Does the process in this place wait for this?
pub fn waits_for(place: Option<Member>, cause: Cause) -> bool
    ensures { IsTrue result ↔ (option_map (λ w. w.cause) (wait_at place) ≡ Some cause) }
{
    match place {
        None => false,
        Some(member) => match wait_of(member.standing) {
            None => false,
            Some(wait) => wait.cause == cause,
        },
    }
}

/// The cause and its tick, if there is a cause.
fn wait_of(standing: Standing) -> Option<Wait>
    ensures { result ≡ model.wait_of standing }
{
    match standing {
        Standing::Going => None,
        Standing::Woken(wait) | Standing::Resting(wait) => Some(wait),
    }
}
