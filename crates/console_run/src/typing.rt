//! Keys are typed before a slice.

ghost use Rattle.std.specs.Prelude.{◌<◌, ◌+◌, vec_len};
ghost use Rattle.os9_base.specs.declared.limits.TheConstants.{LAST_TICK};
ghost use Rattle.os9_kernel.specs.Outside.{outside};
ghost use Rattle.os9_kernel.specs.Tie.{RepresentsSomeState, ticks};
ghost use Rattle.console_run.specs.Seen.{KeepsDeviceCounts};
ghost use Rattle.console_run.specs.Turn.{console_state, HasAsked};

use crate::asking::{Asked, ask_line};
use crate::console::Console;
use crate::keyboard::Keyboard;
use crate::part::type_part;
use crate::waiting::waits_for_line;
use device_table::devices::Devices;
use os9_kernel::{Kernel, SliceEnd};
use os9_outer::drive::BlockDriver;
use os9_outer::host::Host;
use os9_outer::terminal::CharDriver;

/// Types the next part of a line at TERM, if every process waits for keys after a slice that ended
/// so. It is due in the next tick. If nothing is left of a line, the next one is taken from the
/// keyboard.
pub(crate) fn type_line<H: Host, K: Keyboard<H> + Drop>(
    kernel: &Kernel,
    last: SliceEnd,
    console: &mut Console<K>,
    host: &H,
    devices: &mut Devices,
) -> Asked
    requires early { ticks kernel.now + 1 < LAST_TICK }
    requires some { 0 < vec_len devices.old.terms }
    requires stands { RepresentsSomeState kernel.now
        (outside BlockDriver-box CharDriver-box devices.old) }
    ensures asked { HasAsked last kernel.now (H.bytes_out host.now) result
        (console_state K.Keyboard console.old) (console_state K.Keyboard console.new)
        (outside BlockDriver-box CharDriver-box devices.old)
        (outside BlockDriver-box CharDriver-box devices.new) }
    ensures places { KeepsDeviceCounts devices.old devices.new }
{
    if !waits_for_line(console.alloc, kernel, last, devices) {
        return Asked::GoesOn;
    }
    match ask_line(console, host) {
        Asked::GoesOn => {}
        Asked::AtEnd => return Asked::AtEnd,
        Asked::NoMemory => return Asked::NoMemory,
    }
    match type_part(console, kernel.ticks() + 1, devices) {
        Ok(()) => Asked::GoesOn,
        Err(_) => Asked::NoMemory,
    }
}
