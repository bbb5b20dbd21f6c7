//! Ways from one position to another.

ghost use Rattle.std.specs.Prelude.{◌≡◌, ◌≤◌, Ok, OnOk, vec_len};
ghost use Rattle.os9_kernel.specs.Outside.{OnDevices, outside};
ghost use Rattle.os9_debug.specs.declared.command.Command.TheVariants.{To};
ghost use Rattle.os9_debug.specs.Moves.{IsAtEnd, IsUnderWay, MovesOn};

use crate::machine::{Machine, SessionFault, restart};
use crate::position::{Position, Step};
use device_table::devices::Devices;
use os9_outer::drive::BlockDriver;
use os9_outer::terminal::CharDriver;
use std::alloc::Global;

// Goes to the first position, if the one after `k` events is before this one.
fn go_back(
    alloc: Global,
    machine: &Machine,
    position: &mut Position,
    k: u64,
    devices: &mut Devices,
) -> Result<(), SessionFault>
    requires { IsUnderWay machine.now position.old
        (outside BlockDriver-box CharDriver-box devices.old) }
    ensures moved { OnDevices (MovesOn machine.now (To k) position.old position.new result)
        BlockDriver-box CharDriver-box devices.old devices.new }
    ensures earlier { OnOk result (position.new.events ≤ k) }
    ensures terminals { vec_len devices.new.terms ≡ vec_len devices.old.terms }
    ensures drives { vec_len devices.new.drives ≡ vec_len devices.old.drives }
{
    if position.events() <= k {
        return Ok(());
    }
    match restart(alloc, machine, devices) {
        Ok(start) => {
            *position = start;
            Ok(())
        }
        Err(fault) => Err(fault),
    }
}

/// Goes to the position after `k` events, forwards or back, or to the last one.
pub(crate) fn go_to(
    alloc: Global,
    machine: &Machine,
    position: &mut Position,
    k: u64,
    devices: &mut Devices,
) -> Result<Step, SessionFault>
    requires { IsUnderWay machine.now position.old
        (outside BlockDriver-box CharDriver-box devices.old) }
    ensures moved { OnDevices (MovesOn machine.now (To k) position.old position.new result)
        BlockDriver-box CharDriver-box devices.old devices.new }
    ensures reached { result ≡ Ok Step.Event → position.new.events ≡ k }
    ensures end { result ≡ Ok Step.End → OnDevices (IsAtEnd k machine.now position.old position.new)
        BlockDriver-box CharDriver-box devices.old devices.new }
    ensures terminals { vec_len devices.new.terms ≡ vec_len devices.old.terms }
    ensures drives { vec_len devices.new.drives ≡ vec_len devices.old.drives }
{
    match go_back(alloc, machine, position, k, devices) {
        Ok(()) => {}
        Err(fault) => return Err(fault),
    }
    match position.advance_to(k, machine.slices, devices) {
        Ok(step) => Ok(step),
        Err(_) => Err(SessionFault::NoMemory),
    }
}
