//! Who waits for a record, as locks are released and taken.

ghost use Rattle.std.specs.Prelude.{◌≡◌};
ghost use Rattle.record_locks.specs.Places.{IsPath};
ghost use Rattle.proc_model.specs.Records.{IsLiving, IsProcessNumber, is_living};

use file_state::state::FileState;
use lock_model::lock::{Grant, Held, Range, Request};
use lock_model::place::FilePlace;
use os9_base::calls::I_READ;
use os9_base::limits::PROCESS_PLACES;
use os9_base::registers::Pid;
use os9_sched::Cause;
use proc_model::io_ready::IoReady;
use proc_state::choice::{dispatch, settle};
use proc_state::state::ProcState;
use process_table::Life;
use record_locks::records::Records;
use std::fmt::Debug;
use std::process::Abort;
use std::test::Fail;

/// The process that waits for the record; its priority is 100.
const WAITER: Pid = Pid(2);

/// The process that locks the record first; its priority is 100.
const HOLDER: Pid = Pid(3);

/// The process that locks the record before the waiter does; its priority is 200.
const RIVAL: Pid = Pid(4);

/// The system path of the rival.
const RIVAL_PATH: u8 = 4;

/// The file of the record.
const FILE: FilePlace = FilePlace {
    drive: 0,
    number: 9,
};

/// What a process waits for that waits for a record of this file.
const RECORD: Cause = Cause::Lock(FILE.drive, FILE.number);

/// `assert_eq!` as a function call, which costs a proof less than the macro's code.
fn same<T: PartialEq + Debug + Drop>(rt: &impl Abort, got: T, want: T) {
    assert_eq!(rt; got, want);
}

/// Does a process live?
fn lives(s: &ProcState, p: Pid) -> bool
    ensures { result ≡ is_living s.now.table p.0 }
{
    matches!(s.table.life(p), Some(Life::Running | Life::Waiting))
}

/// The age of a process.
fn age(s: &ProcState, p: Pid) -> u8
    requires { IsLiving s.now.table p.0 }
{
    s.sched.age(p)
}

/// A request of a process for the record on a system path, without a limit of ticks.
fn request(owner: Pid, path: u8) -> Request
    ensures owner { result.lock.owner ≡ owner }
    ensures path { result.path ≡ path }
{
    Request {
        code: I_READ,
        path,
        count: 4,
        lock: Held {
            owner,
            file: FILE,
            range: Range {
                start: 0,
                end: Some(4),
            },
        },
        ticks: 0,
        since: 0,
    }
}

/// The answer to a process that asks for the record on a system path; a granted lock is held.
fn ask(records: &mut Records, owner: Pid, path: u8) -> Result<Grant, Fail>
    requires process { IsProcessNumber owner.0 }
    requires path { IsPath path }
{
    if records.locks().request_of(owner).is_some() {
        return Ok(Grant::Locked);
    }
    let asked = request(owner, path);
    let grant = records.request(asked);
    match grant {
        Grant::Granted => records.hold(path, asked.lock, &[])?,
        Grant::Locked | Grant::Deadlock | Grant::Wait => {}
    }
    Ok(grant)
}

/// The processes whose requests for a record may go on in a tick.
fn ready(records: &Records, tick: u32) -> IoReady {
    let mut ready = IoReady::none();
    for number in 0..PROCESS_PLACES {
        if records.locks().may_go(Pid(number), tick) {
            ready.allow(Pid(number));
        }
    }
    ready
}

/// The choice of a process.
fn chosen(s: &mut ProcState, files: &FileState) -> Option<Pid> {
    settle(s, &ready(&files.records, s.tick));
    dispatch(s)
}

#[test]
fn record_that_another_process_takes_first(rt: HostRuntime) -> Result<(), Fail> {
    let mut s = ProcState::new(rt.alloc(), 8)?;
    let mut files = FileState::new(rt.alloc())?;
    same(&rt, s.make(Pid(0), 7, 100), Some(WAITER));
    same(&rt, s.make(Pid(0), 7, 100), Some(HOLDER));
    same(&rt, s.make(Pid(0), 7, 200), Some(RIVAL));
    same(&rt, ask(&mut files.records, HOLDER, 3)?, Grant::Granted);
    same(&rt, ask(&mut files.records, WAITER, 2)?, Grant::Wait);
    assert!(rt; lives(&s, WAITER));
    s.wait(WAITER, RECORD, None);
    same(&rt, chosen(&mut s, &files), Some(RIVAL));
    assert!(rt; lives(&s, WAITER));
    same(&rt, age(&s, WAITER), 100);
    // The holder exits: the waiter is active and grows older.
    assert!(rt; lives(&s, HOLDER));
    s.end(HOLDER, 0);
    files.end(HOLDER);
    same(&rt, chosen(&mut s, &files), Some(RIVAL));
    same(&rt, s.sched.next_waiting(RECORD, 0), Some(WAITER));
    assert!(rt; lives(&s, WAITER));
    same(&rt, age(&s, WAITER), 101);
    // The rival takes the record: the waiter rests, and its age is its priority again.
    let granted = ask(&mut files.records, RIVAL, RIVAL_PATH)?;
    same(&rt, granted, Grant::Granted);
    same(&rt, chosen(&mut s, &files), Some(RIVAL));
    assert!(rt; lives(&s, WAITER));
    same(&rt, age(&s, WAITER), 100);
    // The rival exits: the waiter is chosen.
    assert!(rt; lives(&s, RIVAL));
    s.end(RIVAL, 0);
    files.end(RIVAL);
    same(&rt, chosen(&mut s, &files), Some(WAITER));
    Ok(())
}
