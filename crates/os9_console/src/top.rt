//! The top call.

ghost use Rattle.std.specs.Prelude.{length, map, string_bytes};
ghost use Rattle.boot_run.specs.Ready.{AreEmptyAgain, DevicesAreFree};
ghost use Rattle.os9_console.specs.TopCall.{ConsoleReport, TopConsole};
ghost use Rattle.os9_console.specs.Words.{drives_for};
ghost use Rattle.console_run.specs.Typed.{IsUntyped};
ghost use Rattle.console_run.specs.Keyboard.{keyboard_state};
ghost use Rattle.console_run.specs.Seen.{OnNotedCall};
ghost use Rattle.file_drives.specs.Drives.{drives_seen};
ghost use Rattle.os9_kernel.specs.Outside.{outside};
ghost use Rattle.os9_words.specs.Command.{IsBoot};

use crate::boot::boot_console;
use crate::record::record_session;
use crate::session_report::{console_number, report_session};
use crate::words::{ConsoleWords, read_console};
use boot_run::status::End;
use console_run::Console;
use console_run::keyboard::Keyboard;
use device_table::devices::Devices;
use os9_outer::drive::BlockDriver;
use os9_outer::host::Host;
use os9_outer::terminal::CharDriver;
use os9_words::command::WordsFault;
use os9_words::message::{Message, report};

/// The status if the words are not a command line.
const NO_COMMAND: u8 = 1;

/// Boots the disks that a command line names, runs the machine as a person types at this console,
/// and answers the status (this project's own).
///
/// The words are those after the program's name: `IMAGE..`, with `--blocks N`, `--time T` and
/// `--record NAME` or not. The images are read, checked and written back as `boot` of os9 does. The
/// machine runs in slices of [`console_run::typed::SLICE`] instructions. If no process was Ready
/// in one, no tick ends what one waits for and TERM has no key left, TERM is loaded before the next
/// slice with the next [`console_run::part::PART`] keys of a line, or as many as are left of it; if
/// none are, the next line is taken from the keyboard. What is put on the terminals goes to the
/// output stream after each slice, before the keyboard is asked again. The session is over if no
/// process lives, if the keyboard gave its end in place of a line, or if the last tick would be
/// reached.
/// With `--record` the files `NAME.script` and `NAME.slices` are written then. A boot over these
/// texts and the old images has the setup of the session.
///
/// Statuses are those of `boot` without texts: 1 also if the record would be written over an image,
/// 3 also if it could not be written, and 4 also if memory is out for keys or for the record. A
/// session that is longer than texts may be is not recorded, and a line says so.
///
/// The keyboard is not asked if the words, an image or the boot file are refused.
///
/// There are one to four terminals without keys, and at most four drives without images, at least
/// as many as images are booted. No image is in a drive after the call.
pub fn console_main<H: Host, K: Keyboard<H> + Drop>(
    words: &[String],
    console: &mut Console<K>,
    host: &mut H,
    devices: &mut Devices,
) -> u8
    requires untyped { IsUntyped console.old.typed }
    requires devices { DevicesAreFree (drives_for (map string_bytes words.now))
        (outside BlockDriver-box CharDriver-box devices.old) }
    ensures call { OnNotedCall (λ before after noted notes. TopConsole (map string_bytes words.now)
        (keyboard_state K.Keyboard console.old.keyboard)
        (keyboard_state K.Keyboard console.new.keyboard) before after noted notes result)
        H.Host host.old host.new BlockDriver-box CharDriver-box devices.old devices.new }
    ensures drives { AreEmptyAgain (drives_seen BlockDriver-box devices.old)
        (drives_seen BlockDriver-box devices.new) }
{
    match read_console(console.alloc, words) {
        Ok(words) => do_console(&words, console, host, devices),
        Err(WordsFault::Refused) => {
            let _ = report(host, &Message::Words);
            NO_COMMAND
        }
        Err(WordsFault::OutOfMemory) => {
            let _ = report(host, &Message::NoMemory);
            End::NoMemory.number()
        }
    }
}

/// Does what the words say, and reports why it ended.
fn do_console<H: Host, K: Keyboard<H> + Drop>(
    words: &ConsoleWords,
    console: &mut Console<K>,
    host: &mut H,
    devices: &mut Devices,
) -> u8
    requires untyped { IsUntyped console.old.typed }
    requires devices { DevicesAreFree (length words.now.boot.files)
        (outside BlockDriver-box CharDriver-box devices.old) }
    requires words { IsBoot words.now.boot }
    ensures call { OnNotedCall (λ before after noted notes. ConsoleReport words.now
        (keyboard_state K.Keyboard console.old.keyboard)
        (keyboard_state K.Keyboard console.new.keyboard) before after noted notes result)
        H.Host host.old host.new BlockDriver-box CharDriver-box devices.old devices.new }
    ensures drives { AreEmptyAgain (drives_seen BlockDriver-box devices.old)
        (drives_seen BlockDriver-box devices.new) }
{
    let end = boot_console(&words.boot, console, host, devices);
    let recording = record_session(console.alloc, words, &console.typed, end, host);
    let _ = report_session(host, &words.boot, end, recording);
    console_number(end, recording)
}
