//! The turns of a session.

ghost use Rattle.std.specs.Prelude.{◌≡◌};
ghost use Rattle.device_table.specs.Seen.{terminals_seen};
ghost use Rattle.boot_run.specs.Loaded.{AreUnloaded};
ghost use Rattle.boot_run.specs.World.{OnWorld};
ghost use Rattle.os9_kernel.specs.Outside.{outside};
ghost use Rattle.os9_kernel.specs.Tie.{RepresentsSomeState, ticks};
ghost use Rattle.os9_words.specs.Notes.{notes_of};
ghost use Rattle.console_run.specs.Typed.{IsUntyped};
ghost use Rattle.console_run.specs.Keyboard.{keyboard_state};
ghost use Rattle.console_run.specs.Seen.{KeepsDeviceCounts};
ghost use Rattle.console_run.specs.Session.{RunsTurns};

use crate::asking::Asked;
use crate::console::Console;
use crate::keyboard::Keyboard;
use crate::turn::run_turn;
use crate::typing::type_line;
use boot_run::RunFault;
use device_table::devices::Devices;
use os9_base::limits::LAST_TICK;
use os9_kernel::{Kernel, SliceEnd};
use os9_outer::drive::BlockDriver;
use os9_outer::host::Host;
use os9_outer::terminal::CharDriver;

/// Why a session stopped after a slice.
#[derive(Clone, Copy, Debug, PartialEq, Eq)]
pub enum Stop {
    /// It is over: no process lives, or every one waits for keys and the keyboard gave its end, or
    /// the last tick would be reached.
    Over,
    /// Memory is out for keys, for which every process waits.
    LineLost,
}

/// Runs slices, and passes what each writes to the output stream. Before a slice the next part of a
/// line is typed if every process waits for keys. It is the run of the slices and keys that are
/// kept, of terminals that were loaded with those keys before it.
///
/// # Errors
///
/// The output has gained a prefix of what that run over some first slices writes.
pub(crate) fn run_turns<H: Host, K: Keyboard<H> + Drop>(
    kernel: &mut Kernel,
    console: &mut Console<K>,
    host: &mut H,
    devices: &mut Devices,
) -> Result<Stop, RunFault>
    requires begins { ticks kernel.old ≡ 0 }
    requires untyped { IsUntyped console.old.typed }
    requires unloaded { AreUnloaded (terminals_seen CharDriver-box devices.old) }
    requires stands { RepresentsSomeState kernel.old
        (outside BlockDriver-box CharDriver-box devices.old) }
    ensures ran { OnWorld (RunsTurns console.new.typed kernel.old kernel.new result
        (keyboard_state K.Keyboard console.old.keyboard)
        (keyboard_state K.Keyboard console.new.keyboard))
        H.Host host.old host.new BlockDriver-box CharDriver-box devices.old devices.new }
    ensures notes_kept { notes_of H.Host host.new ≡ notes_of H.Host host.old }
    ensures places { KeepsDeviceCounts devices.old devices.new }
{
    console.line = Vec::new(console.alloc);
    console.place = 0;
    let mut last = SliceEnd::Ran;
    for _ in kernel.ticks()..LAST_TICK - 1 {
        if kernel.living() == 0 {
            return Ok(Stop::Over);
        }
        match type_line(kernel, last, console, host, devices) {
            Asked::GoesOn => {}
            Asked::AtEnd => return Ok(Stop::Over),
            Asked::NoMemory => return Ok(Stop::LineLost),
        }
        console.typed.slices += 1;
        last = match run_turn(kernel, host, devices) {
            Ok(end) => end,
            Err(fault) => return Err(fault),
        };
    }
    Ok(Stop::Over)
}
