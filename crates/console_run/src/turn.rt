//! A slice of a session.

ghost use Rattle.std.specs.Prelude.{◌≡◌, ◌<◌, ◌+◌};
ghost use Rattle.os9_base.specs.declared.limits.TheConstants.{LAST_TICK};
ghost use Rattle.os9_kernel.specs.Outside.{outside};
ghost use Rattle.os9_kernel.specs.Tie.{RepresentsSomeState, ticks};
ghost use Rattle.os9_words.specs.Notes.{notes_of};
ghost use Rattle.boot_run.specs.World.{OnWorld};
ghost use Rattle.console_run.specs.Seen.{KeepsDeviceCounts};
ghost use Rattle.console_run.specs.Turn.{RunsTurn};

use crate::typed::SLICE;
use boot_run::{RunFault, pass_on};
use device_table::devices::Devices;
use os9_kernel::{Kernel, SliceEnd};
use os9_outer::drive::BlockDriver;
use os9_outer::host::{Host, HostFault};
use os9_outer::terminal::CharDriver;

/// Runs a slice, and passes what it writes to the output stream.
///
/// # Errors
///
/// Those of [`pass_on`], and that memory is out within the slice.
pub(crate) fn run_turn<H: Host>(
    kernel: &mut Kernel,
    host: &mut H,
    devices: &mut Devices,
) -> Result<SliceEnd, RunFault>
    requires early { ticks kernel.old + 1 < LAST_TICK }
    requires stands { RepresentsSomeState kernel.old
        (outside BlockDriver-box CharDriver-box devices.old) }
    ensures turn { OnWorld (RunsTurn kernel.old kernel.new result)
        H.Host host.old host.new BlockDriver-box CharDriver-box devices.old devices.new }
    ensures notes_kept { notes_of H.Host host.new ≡ notes_of H.Host host.old }
    ensures places { KeepsDeviceCounts devices.old devices.new }
{
    let end = kernel.slice(SLICE, devices);
    if let SliceEnd::NoMemory = end {
        return Err(RunFault::NoMemory);
    }
    match pass_on(devices, host) {
        Ok(()) => Ok(end),
        Err(HostFault::Failed) => Err(RunFault::Output),
        Err(HostFault::OutOfMemory) => Err(RunFault::NoMemory),
    }
}
