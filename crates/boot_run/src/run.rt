ghost use Rattle.std.specs.Prelude.{◌≡◌, ◌+◌, ◌<◌, length, vec_len};
ghost use Rattle.os9_kernel.specs.Outside.{outside};
ghost use Rattle.os9_kernel.specs.Tie.{RepresentsSomeState, ticks};
ghost use Rattle.os9_words.specs.Notes.{notes_of};
ghost use Rattle.boot_run.specs.Slices.{RunsSlices};
ghost use Rattle.boot_run.specs.World.{OnWorld};

use crate::console::pass_on;
use device_table::devices::Devices;
use os9_base::limits::LAST_TICK;
use os9_kernel::{Kernel, SliceEnd};
use os9_outer::drive::BlockDriver;
use os9_outer::host::{Host, HostFault};
use os9_outer::terminal::CharDriver;

/// Why a run stopped before its end.
#[derive(Clone, Copy, Debug, PartialEq, Eq)]
pub enum RunFault {
    /// The output stream could not be written.
    Output,
    /// Out of memory.
    NoMemory,
}

/// Runs the slices, and passes what each writes to the output stream. It stops before a slice if no
/// process lives.
///
/// # Errors
///
/// The output has gained a prefix of what the run over some first slices writes.
pub fn run_slices<H: Host>(
    kernel: &mut Kernel,
    slices: &[u32],
    host: &mut H,
    devices: &mut Devices,
) -> Result<(), RunFault>
    requires few { ticks kernel.old + length slices.now < LAST_TICK }
    requires stands { RepresentsSomeState kernel.old
        (outside BlockDriver-box CharDriver-box devices.old) }
    ensures ran { OnWorld (RunsSlices slices.now kernel.old kernel.new result)
        H.Host host.old host.new BlockDriver-box CharDriver-box devices.old devices.new }
    ensures notes_kept { notes_of H.Host host.new ≡ notes_of H.Host host.old }
    ensures terminals { vec_len devices.new.terms ≡ vec_len devices.old.terms }
    ensures drives { vec_len devices.new.drives ≡ vec_len devices.old.drives }
{
    for n in slices {
        if kernel.living() == 0 {
            return Ok(());
        }
        if let SliceEnd::NoMemory = kernel.slice(*n, devices) {
            return Err(RunFault::NoMemory);
        }
        match pass_on(devices, host) {
            Ok(()) => {}
            Err(HostFault::Failed) => return Err(RunFault::Output),
            Err(HostFault::OutOfMemory) => return Err(RunFault::NoMemory),
        }
    }
    Ok(())
}
