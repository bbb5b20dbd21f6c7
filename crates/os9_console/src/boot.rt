//! A machine is booted on what files hold, and run as a person types.

ghost use Rattle.std.specs.Prelude.{length};
ghost use Rattle.boot_run.specs.Ready.{AreEmptyAgain, DevicesAreFree};
ghost use Rattle.boot_run.specs.End.{run_file_name};
ghost use Rattle.boot_run.specs.Noted.{NotesNamedFiles};
ghost use Rattle.os9_console.specs.Call.{ConsoleCall};
ghost use Rattle.console_run.specs.Typed.{IsUntyped};
ghost use Rattle.console_run.specs.Keyboard.{keyboard_state};
ghost use Rattle.file_drives.specs.Drives.{drives_seen};
ghost use Rattle.os9_kernel.specs.Outside.{outside};
ghost use Rattle.os9_boot.specs.FileNames.{BootWrites};
ghost use Rattle.os9_boot.specs.History.{outputs_of};
ghost use Rattle.os9_words.specs.Command.{IsBoot};
ghost use Rattle.os9_words.specs.Notes.{notes_of};
ghost use Rattle.boot_run.specs.World.{OnWorld};

use crate::images::run_on_images;
use boot_run::RunOutcome;
use boot_run::files::read_images;
use boot_run::imaged::Start;
use boot_run::status::End;
use console_run::keyboard::Keyboard;
use console_run::{Console, SessionEnd};
use device_table::devices::Devices;
use os9_boot::{accept_images, write_back};
use os9_outer::drive::BlockDriver;
use os9_outer::host::Host;
use os9_outer::terminal::CharDriver;
use os9_words::command::RunWords;

/// Reads the images, runs the program of the boot file of the first as a person types, with the
/// images in the drives, and writes them back.
pub(crate) fn boot_console<H: Host, K: Keyboard<H> + Drop>(
    boot: &RunWords,
    console: &mut Console<K>,
    host: &mut H,
    devices: &mut Devices,
) -> End
    requires untyped { IsUntyped console.old.typed }
    requires devices { DevicesAreFree (length boot.now.files)
        (outside BlockDriver-box CharDriver-box devices.old) }
    requires words { IsBoot boot.now }
    ensures call { OnWorld (ConsoleCall boot.now console.new.typed result
        (keyboard_state K.Keyboard console.old.keyboard)
        (keyboard_state K.Keyboard console.new.keyboard))
        H.Host host.old host.new BlockDriver-box CharDriver-box devices.old devices.new }
    ensures noted { NotesNamedFiles (run_file_name boot.now) boot.now.files (BootWrites
        (outputs_of boot.now)) result (notes_of H.Host host.old) (notes_of H.Host host.new) }
    ensures drives { AreEmptyAgain (drives_seen BlockDriver-box devices.old)
        (drives_seen BlockDriver-box devices.new) }
{
    let mut images = match read_images(console.alloc, boot, host) {
        Ok(images) => images,
        Err(end) => return end,
    };
    let file = match accept_images(console.alloc, &images) {
        Ok(file) => file,
        Err(end) => return end,
    };
    let start = Start {
        blocks: boot.blocks,
        time: boot.start,
        file,
        keys: Vec::new(console.alloc),
        slices: Vec::new(console.alloc),
    };
    let session = run_on_images(&start, &mut images, console, host, devices);
    match session.end {
        SessionEnd::OfRun(end) => {
            let records = session.records;
            let outcome = RunOutcome { end, records };
            write_back(console.alloc, boot, &images, &outcome, host)
        }
        SessionEnd::LineLost(_) => End::NoMemory,
    }
}
