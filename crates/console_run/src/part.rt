//! Lines are typed in parts.

ghost use Rattle.std.specs.Prelude.{◌≡◌, ◌≢◌, ◌<◌, ◌≤◌, ◌+◌, [], OnErr, OnOk, vec_len};
ghost use Rattle.device_table.specs.Seen.{terminals_seen};
ghost use Rattle.console_run.specs.Kept.{IsKept};
ghost use Rattle.console_run.specs.Turn.{rest_of, TypesRest};
ghost use Rattle.console_run.specs.Waiting.{term_keys};

use crate::console::Console;
use crate::load::load_part;
use device_table::devices::Devices;
use os9_outer::terminal::CharDriver;
use std::alloc::AllocError;

/// The most keys that are typed before a slice. The type-ahead of TERM holds twice as many.
pub const PART: usize = 128;

/// Types the next part of the line that is left: loads TERM, which has no keys left, with its keys,
/// which are due in this tick, and keeps them.
///
/// # Errors
///
/// Memory is out: nothing was typed.
pub(crate) fn type_part<K: Drop>(
    console: &mut Console<K>,
    tick: u32,
    devices: &mut Devices,
) -> Result<(), AllocError>
    requires some { 0 < vec_len devices.old.terms }
    requires none_left { term_keys (terminals_seen CharDriver-box devices.old) ≡ [] }
    requires rest { rest_of console.old ≢ [] }
    ensures typed { OnOk result (TypesRest tick (rest_of console.old) (rest_of console.new)
        console.old.typed console.new.typed
        (terminals_seen CharDriver-box devices.old) (terminals_seen CharDriver-box devices.new)) }
    ensures typed_kept { OnErr result (IsKept console.old.typed console.new.typed) }
    ensures keyboard_kept { console.new.keyboard ≡ console.old.keyboard }
    ensures devices_kept { OnErr result (devices.new ≡ devices.old) }
    ensures terminals { vec_len devices.new.terms ≡ vec_len devices.old.terms }
    ensures drives_kept { devices.new.drives ≡ devices.old.drives }
{
    let place = console.place;
    let end = part_end(console.line.len(), place);
    load_part(
        console.alloc,
        &console.line[place..end],
        tick,
        &mut console.typed,
        devices,
    )?;
    console.place = end;
    Ok(())
}

/// Where the next part of a line ends that is so long, and typed up to this place.
fn part_end(length: usize, place: usize) -> usize
    requires { place < length }
    ensures ahead { place < result }
    ensures within { result ≤ length }
    ensures few { result ≤ place + PART }
    ensures most { result < length → result ≡ place + PART }
{
    if length - place < PART {
        length
    } else {
        place + PART
    }
}
