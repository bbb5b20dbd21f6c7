//! Whether every process waits for keys.

ghost use Rattle.std.specs.Prelude.{◌≡◌, ℕ, ◌<◌, IsFalse, IsTrue, vec_len};
ghost use Rattle.machine_model.specs.State.{State};
ghost use Rattle.os9_base.specs.declared.limits.TheConstants.{PROCESS_PLACES};
ghost use Rattle.os9_kernel.specs.Outside.{Outside, outside};
ghost use Rattle.os9_kernel.specs.Tie.{Represents};
ghost use Rattle.os9_kernel.specs.View as model;
ghost use Rattle.console_run.specs.Turn.{AllWait};
ghost use Rattle.console_run.specs.Waiting.{NoneWakes, WaitsForLine};

use crate::load::has_no_keys;
use device_table::devices::Devices;
use os9_base::limits::PROCESS_PLACES;
use os9_base::registers::Pid;
use os9_kernel::{Kernel, SliceEnd};
use os9_outer::drive::BlockDriver;
use os9_outer::terminal::CharDriver;
use std::alloc::Global;

/// Does every process wait for keys after a slice that ended so? None was Ready in it, no tick ends
/// what one waits for, and TERM has no key left.
pub(crate) fn waits_for_line(
    alloc: Global,
    kernel: &Kernel,
    last: SliceEnd,
    devices: &mut Devices,
) -> bool
    requires some { 0 < vec_len devices.old.terms }
    ensures all { IsTrue result → AllWait last kernel.now
        (outside BlockDriver-box CharDriver-box devices.old) }
    ensures other { IsFalse result → (s : State) → Represents kernel.now
        (outside BlockDriver-box CharDriver-box devices.old) s → ¬ WaitsForLine last s }
    ensures kept { outside BlockDriver-box CharDriver-box devices.new
        ≡ outside BlockDriver-box CharDriver-box devices.old }
    ensures terminals { vec_len devices.new.terms ≡ vec_len devices.old.terms }
    ensures drives { vec_len devices.new.drives ≡ vec_len devices.old.drives }
{
    match last {
        SliceEnd::Ran | SliceEnd::NoMemory => return false,
        SliceEnd::Idle => {}
    }
    if wakes_by_clock(kernel) {
        return false;
    }
    has_no_keys(alloc, devices)
}

/// Does a tick end what a process waits for?
fn wakes_by_clock(kernel: &Kernel) -> bool
    ensures one { IsTrue result → (devices : Outside) (s : State)
        → Represents kernel.now devices s
        → (p : ℕ) × (p < PROCESS_PLACES) × IsTrue (model.wakes_by_clock s p) }
    ensures none { IsFalse result → (devices : Outside) (s : State)
        → Represents kernel.now devices s → NoneWakes s }
{
    for number in 0..PROCESS_PLACES {
        if kernel.wakes_by_clock(Pid(number)) {
            return true;
        }
    }
    false
}
