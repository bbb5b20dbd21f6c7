//! A session with images in the drives.

ghost use Rattle.std.specs.Prelude.{◌≡◌, All, length};
ghost use Rattle.os9_kernel.specs.Outside.{outside};
ghost use Rattle.boot_run.specs.BootFile.{IsVolume};
ghost use Rattle.boot_run.specs.Ready.{DevicesAreFree, IsValidStart};
ghost use Rattle.boot_run.specs.Machine.{history_left};
ghost use Rattle.boot_run.specs.World.{OnWorld};
ghost use Rattle.os9_console.specs.Images.{session_setup, RunsConsole};
ghost use Rattle.console_run.specs.Typed.{IsUntyped};
ghost use Rattle.console_run.specs.Keyboard.{keyboard_state};
ghost use Rattle.os9_words.specs.Notes.{notes_of};

use boot_run::drives::{eject_images, insert_images};
use boot_run::imaged::Start;
use boot_run::images::Images;
use console_run::keyboard::Keyboard;
use console_run::{Console, SessionOutcome, run_session};
use device_table::devices::Devices;
use os9_kernel::Config;
use os9_outer::drive::BlockDriver;
use os9_outer::host::Host;
use os9_outer::terminal::CharDriver;

/// Puts the images into the drives, the first into D0, starts a machine and runs it as a person
/// types, and takes the images out again, as the drives hold them then.
pub(crate) fn run_on_images<H: Host, K: Keyboard<H> + Drop>(
    start: &Start,
    images: &mut Images,
    console: &mut Console<K>,
    host: &mut H,
    devices: &mut Devices,
) -> SessionOutcome
    requires untyped { IsUntyped console.old.typed }
    requires devices { DevicesAreFree (length images.old)
        (outside BlockDriver-box CharDriver-box devices.old) }
    requires start { IsValidStart start.now }
    requires volumes { All IsVolume images.old }
    ensures run { OnWorld (RunsConsole (session_setup start.now images.old console.new.typed)
        console.new.typed images.new (history_left result.records) result.end
        (keyboard_state K.Keyboard console.old.keyboard)
        (keyboard_state K.Keyboard console.new.keyboard))
        H.Host host.old host.new BlockDriver-box CharDriver-box devices.old devices.new }
    ensures count { length images.new ≡ length images.old }
    ensures notes_kept { notes_of H.Host host.new ≡ notes_of H.Host host.old }
{
    insert_images(console.alloc, images, devices);
    let config = Config {
        blocks: start.blocks,
        images: images.len(),
        time: start.time,
    };
    let outcome = run_session(config, start.file.as_slice(), console, host, devices);
    eject_images(console.alloc, images, devices);
    outcome
}
