//! `vol` from its words to its end.

ghost use Rattle.os9_words.specs.Notes.{notes_of};
ghost use Rattle.file_drives.specs.Drives.{drives_seen};
ghost use Rattle.os9_words.specs.Vol.{IsVol};
ghost use Rattle.boot_run.specs.Drives.{HaveRoom};
ghost use Rattle.boot_run.specs.Ready.{AreEmptyAgain};
ghost use Rattle.boot_run.specs.World.{OnWorld};
ghost use Rattle.os9_boot.specs.VolCall.{MakesCall, NotesMaking, NotesVol, VolCall};

use crate::files::read_vol_files;
use crate::made::Made;
use crate::output::finish;
use crate::verbs::{format_disk, make_of};
use boot_run::status::End;
use device_table::devices::Devices;
use os9_outer::drive::BlockDriver;
use os9_outer::host::Host;
use os9_outer::terminal::CharDriver;
use os9_words::vol_words::{Verb, VolWords};
use std::alloc::Global;

/// `vol VERB IMAGE ..` (this project's own): reads the image, except for `format`, and FILE of
/// `put`; checks the image; does what the verb says, for user 0, with the image in D0; prints the
/// lines of `dir` and `repair`; and writes FILE of `get`, no file for `dir`, otherwise the image.
///
/// No image is in a drive before or after the call. If the image is not well formed, the tool is
/// refused or the drive fails, no file is written.
pub fn do_vol<H: Host>(alloc: Global, vol: &VolWords, host: &mut H, devices: &mut Devices) -> End
    requires words { IsVol vol.now }
    requires room { HaveRoom 1 (drives_seen BlockDriver-box devices.old) }
    ensures call { OnWorld (λ before after. VolCall vol.now before after result)
        H.Host host.old host.new BlockDriver-box CharDriver-box devices.old devices.new }
    ensures noted { NotesVol vol.now result (notes_of H.Host host.old) (notes_of H.Host host.new) }
    ensures drives { AreEmptyAgain (drives_seen BlockDriver-box devices.old)
        (drives_seen BlockDriver-box devices.new) }
{
    match make(alloc, vol, host, devices) {
        Ok(made) => finish(vol, &made, host),
        Err(end) => end,
    }
}

/// Reads the files of the verb, and does what it says.
fn make<H: Host>(
    alloc: Global,
    vol: &VolWords,
    host: &mut H,
    devices: &mut Devices,
) -> Result<Made, End>
    requires words { IsVol vol.now }
    requires room { HaveRoom 1 (drives_seen BlockDriver-box devices.old) }
    ensures made { OnWorld (MakesCall vol.now result) H.Host host.old host.new
        BlockDriver-box CharDriver-box devices.old devices.new }
    ensures noted { NotesMaking vol.now result
        (notes_of H.Host host.old) (notes_of H.Host host.new) }
    ensures drives { AreEmptyAgain (drives_seen BlockDriver-box devices.old)
        (drives_seen BlockDriver-box devices.new) }
{
    match vol.verb {
        Verb::Format => format_disk(alloc, vol),
        _ => match read_vol_files(alloc, vol, host) {
            Ok(files) => make_of(alloc, vol, files, devices),
            Err(end) => Err(end),
        },
    }
}
