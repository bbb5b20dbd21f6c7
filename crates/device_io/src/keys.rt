//! Keys that arrive.

ghost use Rattle.std.specs.Prelude.{◌≡◌, ◌<◌, ◌≤◌, ◌||◌, false, None, Ok, IsErr, IsOk, vec_len};
ghost use Rattle.device_table.specs.Seen.{terminals_seen};
ghost use Rattle.proc_model.specs.Processes.{Processes};
ghost use Rattle.io_model.specs.Arrivals.{after_key_signal, after_signal_to};
ghost use Rattle.device_io.specs.Keys.{AllKeysArrive, KeysArriveAt, KeysBreak, KeysBreakAt};
ghost use Rattle.proc_state.specs.Tie.{RepresentsProcesses};

use device_table::devices::Devices;
use io_model::path::Target;
use io_state::state::IoState;
use os9_base::call::OutOfMemory;
use os9_base::registers::Pid;
use os9_outer::terminal::CharDriver;
use proc_state::state::ProcState;

/// The superuser, who may signal every process.
const SUPERUSER: u16 = 0;

/// The keys that are due at the tick of these processes arrive, at TERM, T1, T2 and T3 in this
/// order (Level Two manual, SCF). After the poll of a terminal, the signal of its first key that
/// sends one is sent to its last user. A driver that fails to give a key ends the poll of its
/// terminal alone, and the key is not lost. The result is false only if nothing but the devices has
/// changed: no key went into a type-ahead, and none sends a signal.
///
/// # Errors
///
/// `OutOfMemory` if a bell found no memory: the poll ends there, and no later terminal is polled.
pub fn arrive_keys(
    s: &mut ProcState,
    io: &mut IoState,
    devices: &mut Devices,
) -> Result<bool, OutOfMemory>
    requires { vec_len devices.old.terms ≤ 4 }
    ensures arrived { IsOk result → AllKeysArrive s.old io.old
        (terminals_seen CharDriver-box devices.old) s.new io.new
        (terminals_seen CharDriver-box devices.new) }
    ensures broken { IsErr result → KeysBreak s.old io.old
        (terminals_seen CharDriver-box devices.old) s.new io.new
        (terminals_seen CharDriver-box devices.new) }
    ensures quiet { result ≡ Ok false → (s.new ≡ s.old) × (io.new ≡ io.old) }
    ensures tick { s.new.tick ≡ s.old.tick }
    ensures drives { devices.new.drives ≡ devices.old.drives }
    ensures count { vec_len devices.new.terms ≡ vec_len devices.old.terms }
{
    let mut changed = false;
    for n in 0..devices.terms.len() {
        let here = arrive_on(s, io, n as u8, devices)?;
        changed = either(changed, here);
    }
    Ok(changed)
}

/// Is one of them true?
fn either(before: bool, here: bool) -> bool
    ensures { result ≡ (before || here) }
{
    before || here
}

/// As `arrive_keys`, at one terminal.
fn arrive_on(
    s: &mut ProcState,
    io: &mut IoState,
    n: u8,
    devices: &mut Devices,
) -> Result<bool, OutOfMemory>
    requires terminal { n < 4 }
    requires there { n < vec_len devices.old.terms }
    ensures arrived { IsOk result → KeysArriveAt s.old io.old
        (terminals_seen CharDriver-box devices.old) s.new io.new
        (terminals_seen CharDriver-box devices.new) n }
    ensures broken { IsErr result → KeysBreakAt s.old io.old
        (terminals_seen CharDriver-box devices.old) s.new io.new
        (terminals_seen CharDriver-box devices.new) n }
    ensures quiet { result ≡ Ok false → (s.new ≡ s.old) × (io.new ≡ io.old) }
    ensures tick { s.new.tick ≡ s.old.tick }
    ensures drives { devices.new.drives ≡ devices.old.drives }
    ensures count { vec_len devices.new.terms ≡ vec_len devices.old.terms }
{
    let before = io.ready_count(Target::Term(n));
    let answer = io.arrive(n, s.tick, devices);
    if !answer.memory {
        return Err(OutOfMemory);
    }
    send_to_user(s, io.last_user(n), answer.signal);
    let now = io.ready_count(Target::Term(n));
    Ok(has_changed(answer.signal, before, now))
}

/// Has a poll of a terminal changed more than its device, by its signal and by the number of keys
/// in the type-ahead before it and after it?
fn has_changed(signal: Option<u8>, before: u16, now: u16) -> bool
    ensures { result ≡ false → (signal ≡ None) × (now ≡ before) }
{
    signal.is_some() || now != before
}

/// Sends the signal of a terminal to its last user, if it has both.
fn send_to_user(s: &mut ProcState, user: Option<Pid>, signal: Option<u8>)
    ensures sent { (m : Processes) → RepresentsProcesses s.old m
        → RepresentsProcesses s.new (after_key_signal m user signal) }
    ensures unsent { signal ≡ None → s.new ≡ s.old }
    ensures tick { s.new.tick ≡ s.old.tick }
{
    match (user, signal) {
        (Some(user), Some(signal)) => send_signal(s, user, signal),
        (Some(_), None) | (None, _) => {}
    }
}

/// Sends a signal to a process. It is dropped if the process has a pending signal.
fn send_signal(s: &mut ProcState, to: Pid, signal: u8)
    ensures sent { (m : Processes) → RepresentsProcesses s.old m
        → RepresentsProcesses s.new (after_signal_to m to signal) }
    ensures tick { s.new.tick ≡ s.old.tick }
{
    let _sent = s.table.send(SUPERUSER, to, signal);
}
