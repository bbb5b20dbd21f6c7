//! The machine of a session, and its start.

ghost use Rattle.std.specs.Prelude.{◌≡◌, vec_len};
ghost use Rattle.os9_kernel.specs.Outside.{OnDevices, outside};
ghost use Rattle.os9_debug.specs.Machine.{CanStart, start_fault};
ghost use Rattle.os9_debug.specs.Moves.{HasRestarted, HasStartedMachine, HasCome};

use crate::console::empty_terminals;
use crate::position::Position;
use boot_run::{drop_keys, load_keys};
use device_table::devices::Devices;
use machine_model::ends::BootFault;
use os9_base::registers::TimePacket;
use os9_kernel::{Config, Kernel, StartError};
use os9_outer::drive::BlockDriver;
use os9_outer::terminal::CharDriver;
use script_text::script::ScriptKey;
use std::alloc::Global;

/// What is run, in addition to the devices. No image of a disk is mounted.
#[derive(Clone, Copy)]
pub struct Machine<'a> {
    /// The number of blocks of 8,192 bytes of its memory, from 8 to 256.
    pub blocks: u16,
    /// The date and time at its start.
    pub time: TimePacket,
    /// The boot file.
    pub file: &'a [u8],
    /// The keys of its terminals.
    pub keys: &'a [ScriptKey],
    /// The instructions of each slice.
    pub slices: &'a [u32],
}

/// Why a session stopped before its last command was done.
#[derive(Clone, Copy, Debug, PartialEq, Eq)]
pub enum SessionFault {
    /// The boot file is refused.
    Refused(BootFault),
    /// A terminal failed when its keys were taken: its number.
    TerminalFailed(u8),
    /// The output stream could not be written.
    OutputFailed,
    /// Out of memory.
    NoMemory,
}

// Why a machine does not start.
fn fault_of(fault: BootFault) -> SessionFault
    ensures { result ≡ start_fault fault }
{
    match fault {
        BootFault::OutOfMemory => SessionFault::NoMemory,
        fault => SessionFault::Refused(fault),
    }
}

/// Starts a machine: a new kernel, and then each terminal loaded with its keys.
pub(crate) fn start(
    alloc: Global,
    machine: &Machine,
    devices: &mut Devices,
) -> Result<Position, SessionFault>
    requires { CanStart machine.now (outside BlockDriver-box CharDriver-box devices.old) }
    ensures started { OnDevices (HasStartedMachine machine.now result)
        BlockDriver-box CharDriver-box devices.old devices.new }
    ensures terminals { vec_len devices.new.terms ≡ vec_len devices.old.terms }
    ensures drives { vec_len devices.new.drives ≡ vec_len devices.old.drives }
{
    let config = Config {
        blocks: machine.blocks,
        images: 0,
        time: machine.time,
    };
    let kernel = match Kernel::new(alloc, config, machine.file, devices) {
        Ok(kernel) => kernel,
        Err(StartError::Boot(fault)) => return Err(fault_of(fault)),
        // No image is in a drive.
        Err(StartError::Drive(..)) => unreachable!(),
    };
    match load_keys(alloc, devices, machine.keys) {
        Ok(()) => Ok(Position::start(kernel)),
        Err(_) => Err(SessionFault::NoMemory),
    }
}

/// Starts the machine again, after each terminal is emptied of its keys and its bytes.
pub(crate) fn restart(
    alloc: Global,
    machine: &Machine,
    devices: &mut Devices,
) -> Result<Position, SessionFault>
    requires { HasCome machine.now (outside BlockDriver-box CharDriver-box devices.old) }
    ensures restarted { OnDevices (HasRestarted machine.now result)
        BlockDriver-box CharDriver-box devices.old devices.new }
    ensures terminals { vec_len devices.new.terms ≡ vec_len devices.old.terms }
    ensures drives { vec_len devices.new.drives ≡ vec_len devices.old.drives }
{
    match drop_keys(devices) {
        Ok(()) => {}
        Err(fault) => return Err(SessionFault::TerminalFailed(fault.0)),
    }
    empty_terminals(devices);
    start(alloc, machine, devices)
}
