//! The commands of a session.

ghost use Rattle.std.specs.Prelude.{◌≡◌, ◌<◌, IfOk, vec_len};
ghost use Rattle.os9_base.specs.declared.limits.TheConstants.{PROCESS_PLACES};
ghost use Rattle.os9_kernel.specs.Outside.{OnDevices, outside};
ghost use Rattle.os9_debug.specs.Prints.{shows};
ghost use Rattle.os9_debug.specs.Show as model;
ghost use Rattle.os9_debug.specs.declared.command.Command.TheVariants.{To, Back};
ghost use Rattle.os9_debug.specs.Machine.{or_no_memory};
ghost use Rattle.os9_debug.specs.Moves.{AtPosition, HasShown, IsUnderWay, MovesOn};

use crate::command::{Command, Span};
use crate::line::{push_end, push_regs};
use crate::machine::{Machine, SessionFault};
use crate::memory::{push_instructions, push_memory};
use crate::moves::go_to;
use crate::position::{Position, Step};
use device_table::devices::Devices;
use os9_outer::drive::BlockDriver;
use os9_outer::terminal::CharDriver;
use std::alloc::{AllocError, Global};

// The line of the last position.
fn end_line(alloc: Global, last: u64) -> Result<Vec<u8>, AllocError>
    ensures { IfOk result (λ line. line.items ≡ model.end_line last) }
{
    let mut line = Vec::new(alloc);
    push_end(&mut line, last)?;
    Ok(line)
}

// The line of the registers here.
fn regs_line(alloc: Global, position: &Position) -> Result<Vec<u8>, AllocError>
    ensures { IfOk result (λ line. AtPosition position.now
        (λ course. line.items ≡ shows course position.now.events Command.Regs)) }
{
    let mut line = Vec::new(alloc);
    let regs = position.regs();
    push_regs(&mut line, position.events(), position.process(), regs)?;
    Ok(line)
}

// The line of these bytes of memory here.
fn memory_line(alloc: Global, position: &Position, span: Span) -> Result<Vec<u8>, AllocError>
    requires { position.now.process.0 < PROCESS_PLACES }
    ensures { IfOk result (λ line. AtPosition position.now
        (λ course. line.items ≡ shows course position.now.events (Command.Mem span))) }
{
    let mut line = Vec::new(alloc);
    push_memory(&mut line, position, span)?;
    Ok(line)
}

// The lines of these instructions here.
fn instruction_lines(alloc: Global, position: &Position, span: Span) -> Result<Vec<u8>, AllocError>
    requires { position.now.process.0 < PROCESS_PLACES }
    ensures { IfOk result (λ line. AtPosition position.now
        (λ course. line.items ≡ shows course position.now.events (Command.Dis span))) }
{
    let mut line = Vec::new(alloc);
    push_instructions(&mut line, position, span)?;
    Ok(line)
}

// A line, or out of memory.
fn told(line: Result<Vec<u8>, AllocError>) -> Result<Vec<u8>, SessionFault>
    ensures { result ≡ or_no_memory line }
{
    match line {
        Ok(line) => Ok(line),
        Err(_) => Err(SessionFault::NoMemory),
    }
}

// `to`: goes to the position after `k` events, and shows the last one if it is before that.
fn to(
    alloc: Global,
    machine: &Machine,
    position: &mut Position,
    k: u64,
    devices: &mut Devices,
) -> Result<Vec<u8>, SessionFault>
    requires { IsUnderWay machine.now position.old
        (outside BlockDriver-box CharDriver-box devices.old) }
    ensures moved { OnDevices (MovesOn machine.now (To k) position.old position.new result)
        BlockDriver-box CharDriver-box devices.old devices.new }
    ensures shown { IfOk result (λ line. OnDevices
        (HasShown machine.now (To k) position.old position.new line.items)
        BlockDriver-box CharDriver-box devices.old devices.new) }
    ensures terminals { vec_len devices.new.terms ≡ vec_len devices.old.terms }
    ensures drives { vec_len devices.new.drives ≡ vec_len devices.old.drives }
{
    match go_to(alloc, machine, position, k, devices) {
        Ok(Step::Event) => Ok(Vec::new(alloc)),
        Ok(Step::End) => told(end_line(alloc, position.events())),
        Err(fault) => Err(fault),
    }
}

// `back`: goes back by `n` events.
fn back(
    alloc: Global,
    machine: &Machine,
    position: &mut Position,
    n: u16,
    devices: &mut Devices,
) -> Result<Vec<u8>, SessionFault>
    requires { IsUnderWay machine.now position.old
        (outside BlockDriver-box CharDriver-box devices.old) }
    ensures moved { OnDevices (MovesOn machine.now (Back n) position.old position.new result)
        BlockDriver-box CharDriver-box devices.old devices.new }
    ensures shown { IfOk result (λ line. OnDevices
        (HasShown machine.now (Back n) position.old position.new line.items)
        BlockDriver-box CharDriver-box devices.old devices.new) }
    ensures terminals { vec_len devices.new.terms ≡ vec_len devices.old.terms }
    ensures drives { vec_len devices.new.drives ≡ vec_len devices.old.drives }
{
    let k = position.events().saturating_sub(u64::from(n));
    match go_to(alloc, machine, position, k, devices) {
        Ok(_) => Ok(Vec::new(alloc)),
        Err(fault) => Err(fault),
    }
}

/// Does a command: goes to its position, and returns what it shows.
pub(crate) fn obey(
    alloc: Global,
    machine: &Machine,
    position: &mut Position,
    command: Command,
    devices: &mut Devices,
) -> Result<Vec<u8>, SessionFault>
    requires { IsUnderWay machine.now position.old
        (outside BlockDriver-box CharDriver-box devices.old) }
    ensures moved { OnDevices (MovesOn machine.now command position.old position.new result)
        BlockDriver-box CharDriver-box devices.old devices.new }
    ensures shown { IfOk result (λ line. OnDevices
        (HasShown machine.now command position.old position.new line.items)
        BlockDriver-box CharDriver-box devices.old devices.new) }
    ensures terminals { vec_len devices.new.terms ≡ vec_len devices.old.terms }
    ensures drives { vec_len devices.new.drives ≡ vec_len devices.old.drives }
{
    match command {
        Command::To(k) => to(alloc, machine, position, k, devices),
        Command::Back(n) => back(alloc, machine, position, n, devices),
        Command::Regs => told(regs_line(alloc, position)),
        Command::Mem(span) => told(memory_line(alloc, position, span)),
        Command::Dis(span) => told(instruction_lines(alloc, position, span)),
    }
}
