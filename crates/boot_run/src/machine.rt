//! A machine is started and run.

ghost use Rattle.std.specs.Prelude.{◌≡◌, ◌≢◌, vec_len};
ghost use Rattle.os9_kernel.specs.Outside.{outside};
ghost use Rattle.os9_words.specs.Notes.{notes_of};
ghost use Rattle.boot_run.specs.Machine.{CanRun, MachineRuns, config_of, history_left};
ghost use Rattle.boot_run.specs.RunEnd.{start_end};
ghost use Rattle.boot_run.specs.World.{OnWorld};

use crate::imaged::Start;
use crate::load_keys;
use crate::run::{RunFault, run_slices};
use device_table::devices::Devices;
use lock_model::history::Entry;
use os9_base::limits::LAST_TICK;
use os9_kernel::{BootFault, Config, Kernel, StartError};
use os9_outer::drive::BlockDriver;
use os9_outer::host::Host;
use os9_outer::terminal::CharDriver;
use record_locks::records::Records;
use std::alloc::Global;

/// How a run of a machine ended.
#[derive(Clone, Copy, Debug, PartialEq, Eq)]
pub enum RunEnd {
    /// No process lives; the number of slices begun.
    Ended(u32),
    /// The slices are used up, and a process lives; the number of slices begun.
    Living(u32),
    /// The boot file is refused.
    Refused(BootFault),
    /// A drive failed when its image was mounted: its number, and the number of its fault.
    DriveFailed(u8, u8),
    /// The output stream could not be written.
    OutputFailed,
    /// Out of memory.
    NoMemory,
}

/// A run of a machine that is over: how it ended, and what it leaves.
#[derive(Drop)]
pub struct RunOutcome {
    /// How it ended.
    pub end: RunEnd,
    /// The record locks of its last state with their history, if it ran to its end.
    pub records: Option<Records>,
}

impl RunOutcome {
    /// The history of the record locks, oldest entry first; empty if the machine did not run to its
    /// end.
    pub fn history(&self) -> &[Entry]
        ensures { result.now ≡ history_left self.now.records }
    {
        match &self.records {
            Some(records) => records.history(),
            None => &[],
        }
    }
}

/// Starts a machine with this number of images in its first drives, and runs it over the slices.
/// The bytes put on the terminals go to the output stream after each slice. The terminals are
/// loaded with their keys once the kernel is made.
pub fn run_machine<H: Host>(
    alloc: Global,
    start: &Start,
    images: u8,
    host: &mut H,
    devices: &mut Devices,
) -> RunOutcome
    requires { CanRun (config_of start.now images) start.now.slices.items
        (outside BlockDriver-box CharDriver-box devices.old) }
    ensures call { OnWorld (MachineRuns start.now images result.end
        (history_left result.records)) H.Host host.old host.new
        BlockDriver-box CharDriver-box devices.old devices.new }
    ensures notes_kept { notes_of H.Host host.new ≡ notes_of H.Host host.old }
    ensures terminals { vec_len devices.new.terms ≡ vec_len devices.old.terms }
    ensures drives { vec_len devices.new.drives ≡ vec_len devices.old.drives }
{
    let config = Config {
        blocks: start.blocks,
        images,
        time: start.time,
    };
    let mut kernel = match Kernel::new(alloc, config, start.file.as_slice(), devices) {
        Ok(kernel) => kernel,
        Err(error) => {
            let end = end_of_start(error);
            return RunOutcome { end, records: None };
        }
    };
    match load_keys(alloc, devices, start.keys.as_slice()) {
        Ok(()) => {}
        Err(_) => {
            let end = RunEnd::NoMemory;
            return RunOutcome { end, records: None };
        }
    }
    match run_slices(&mut kernel, start.slices.as_slice(), host, devices) {
        Ok(()) => {
            let end = run_end(kernel.living(), kernel.ticks());
            let records = Some(kernel.into_records());
            RunOutcome { end, records }
        }
        Err(RunFault::Output) => {
            let end = RunEnd::OutputFailed;
            RunOutcome { end, records: None }
        }
        Err(RunFault::NoMemory) => {
            let end = RunEnd::NoMemory;
            RunOutcome { end, records: None }
        }
    }
}

/// The end of a run whose machine did not start.
pub fn end_of_start(error: StartError) -> RunEnd
    ensures { result ≡ start_end error }
{
    match error {
        StartError::Boot(BootFault::OutOfMemory) => RunEnd::NoMemory,
        StartError::Boot(fault) => RunEnd::Refused(fault),
        StartError::Drive(drive, number) => RunEnd::DriveFailed(drive, number),
    }
}

/// The end of a run, by the number of processes that live after it, with the number of slices
/// begun.
pub fn run_end(living: u8, begun: u32) -> RunEnd
    ensures idle { living ≡ 0 → result ≡ RunEnd.Ended begun }
    ensures lives { living ≢ 0 → result ≡ RunEnd.Living begun }
{
    if living == 0 {
        RunEnd::Ended(begun)
    } else {
        RunEnd::Living(begun)
    }
}
