//! A machine is started, and run as a person types.

ghost use Rattle.std.specs.Prelude.{◌≡◌, []};
ghost use Rattle.os9_kernel.specs.Outside.{outside};
ghost use Rattle.os9_words.specs.Notes.{notes_of};
ghost use Rattle.boot_run.specs.Machine.{CanRun, history_left};
ghost use Rattle.boot_run.specs.World.{OnWorld};
ghost use Rattle.console_run.specs.Typed.{IsUntyped};
ghost use Rattle.console_run.specs.Keyboard.{keyboard_state};
ghost use Rattle.console_run.specs.Seen.{KeepsDeviceCounts};
ghost use Rattle.console_run.specs.Session.{SessionRuns};

use crate::console::Console;
use crate::keyboard::Keyboard;
use crate::turns::{Stop, run_turns};
use boot_run::{RunEnd, RunFault, end_of_start, run_end};
use device_table::devices::Devices;
use os9_kernel::{Config, Kernel};
use os9_outer::drive::BlockDriver;
use os9_outer::host::Host;
use os9_outer::terminal::CharDriver;
use record_locks::records::Records;

/// How a session ended.
#[derive(Clone, Copy, Debug, PartialEq, Eq)]
pub enum SessionEnd {
    /// The run of its machine ended so, and it is over, or the run could not go on.
    OfRun(RunEnd),
    /// Memory was out for keys. The run of its machine over the slices that are kept ended so.
    LineLost(RunEnd),
}

/// A session that is over: how it ended, and what it leaves.
#[derive(Drop)]
pub struct SessionOutcome {
    /// How it ended.
    pub end: SessionEnd,
    /// The record locks of the machine's last state with their history, if its run over the slices
    /// that are kept came to its end.
    pub records: Option<Records>,
}

/// Starts a machine with a boot file and the images in its first drives, and runs it as a person
/// types. What the terminals are given goes to the output stream after each slice, before the
/// keyboard is asked again. Its outcome is that of the machine that `run_machine` runs over the kept
/// slices and with the kept keys, and it was a session.
pub fn run_session<H: Host, K: Keyboard<H> + Drop>(
    config: Config,
    file: &[u8],
    console: &mut Console<K>,
    host: &mut H,
    devices: &mut Devices,
) -> SessionOutcome
    requires untyped { IsUntyped console.old.typed }
    requires machine { CanRun config [] (outside BlockDriver-box CharDriver-box devices.old) }
    ensures call { OnWorld (SessionRuns config file.now result.end (history_left result.records)
        console.new.typed (keyboard_state K.Keyboard console.old.keyboard)
        (keyboard_state K.Keyboard console.new.keyboard))
        H.Host host.old host.new BlockDriver-box CharDriver-box devices.old devices.new }
    ensures notes_kept { notes_of H.Host host.new ≡ notes_of H.Host host.old }
    ensures places { KeepsDeviceCounts devices.old devices.new }
{
    let mut kernel = match Kernel::new(console.alloc, config, file, devices) {
        Ok(kernel) => kernel,
        Err(error) => {
            let end = SessionEnd::OfRun(end_of_start(error));
            return SessionOutcome { end, records: None };
        }
    };
    let stop = match run_turns(&mut kernel, console, host, devices) {
        Ok(stop) => stop,
        Err(RunFault::Output) => {
            let end = SessionEnd::OfRun(RunEnd::OutputFailed);
            return SessionOutcome { end, records: None };
        }
        Err(RunFault::NoMemory) => {
            let end = SessionEnd::OfRun(RunEnd::NoMemory);
            return SessionOutcome { end, records: None };
        }
    };
    let end = run_end(kernel.living(), kernel.ticks());
    let records = Some(kernel.into_records());
    match stop {
        Stop::Over => {
            let end = SessionEnd::OfRun(end);
            SessionOutcome { end, records }
        }
        Stop::LineLost => {
            let end = SessionEnd::LineLost(end);
            SessionOutcome { end, records }
        }
    }
}
