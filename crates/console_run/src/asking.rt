//! The keyboard is asked for a line.

ghost use Rattle.std.specs.Prelude.{◌≡◌, OnOk};
ghost use Rattle.console_run.specs.Lines.{line_bytes};
ghost use Rattle.console_run.specs.Turn.{console_state, rest_of, HasRest};

use crate::console::Console;
use crate::keyboard::Keyboard;
use os9_outer::host::Host;
use std::alloc::AllocError;

/// The key that ends a line.
const RETURN: u8 = 0x0d;

/// Whether a session goes on to its next slice.
#[derive(Clone, Copy, Debug, PartialEq, Eq)]
pub(crate) enum Asked {
    /// It does: keys were typed if every process waits for keys, else nothing.
    GoesOn,
    /// Every process waits for keys, and the keyboard gave its end.
    AtEnd,
    /// Every process waits for keys, and memory is out for them.
    NoMemory,
}

/// Asks the keyboard for the next line if nothing is left of the one before. What was written to
/// this host is shown then.
pub(crate) fn ask_line<H: Host, K: Keyboard<H> + Drop>(console: &mut Console<K>, host: &H) -> Asked
    ensures { HasRest result (H.bytes_out host.now)
        (console_state K.Keyboard console.old) (console_state K.Keyboard console.new) }
{
    if console.place < console.line.len() {
        return Asked::GoesOn;
    }
    match console.keyboard.line(host) {
        Ok(Some(line)) => match take_line(console, line) {
            Ok(()) => Asked::GoesOn,
            Err(_) => Asked::NoMemory,
        },
        Ok(None) => Asked::AtEnd,
        Err(_) => Asked::NoMemory,
    }
}

/// Takes a line, of which nothing is typed.
///
/// # Errors
///
/// Memory is out: the line is lost.
fn take_line<K: Drop>(console: &mut Console<K>, line: Vec<u8>) -> Result<(), AllocError>
    ensures rest { OnOk result (rest_of console.new ≡ line_bytes line.items) }
    ensures typed_kept { console.new.typed ≡ console.old.typed }
    ensures keyboard_kept { console.new.keyboard ≡ console.old.keyboard }
{
    let mut line = line;
    line.push(RETURN)?;
    console.line = line;
    console.place = 0;
    Ok(())
}
