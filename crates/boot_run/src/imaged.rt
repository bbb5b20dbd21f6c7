//! A machine that runs with images in its drives.

ghost use Rattle.std.specs.Prelude.{◌≡◌, All, length, vec_len};
ghost use Rattle.boot_run.specs.BootFile.{IsVolume};
ghost use Rattle.boot_run.specs.Outcome.{RunsImages};
ghost use Rattle.boot_run.specs.Ready.{DevicesAreFree, IsValidStart};
ghost use Rattle.boot_run.specs.Machine.{history_left, setup_of};
ghost use Rattle.boot_run.specs.World.{OnWorld};
ghost use Rattle.os9_kernel.specs.Outside.{outside};
ghost use Rattle.os9_words.specs.Notes.{notes_of};

use crate::drives::{eject_images, insert_images};
use crate::images::Images;
use crate::{RunOutcome, run_machine};
use device_table::devices::Devices;
use os9_base::registers::TimePacket;
use os9_outer::drive::BlockDriver;
use os9_outer::host::Host;
use os9_outer::terminal::CharDriver;
use script_text::script::ScriptKey;
use std::alloc::Global;

/// What a machine is started with in addition to its images, and what drives its run.
#[derive(Drop)]
pub struct Start {
    /// The number of blocks of 8,192 bytes of its memory, from 8 to 256.
    pub blocks: u16,
    /// The date and time at its start.
    pub time: TimePacket,
    /// The boot file.
    pub file: Vec<u8>,
    /// The keys of the terminals, in their order.
    pub keys: Vec<ScriptKey>,
    /// The slices, each a number of instructions.
    pub slices: Vec<u32>,
}

/// Puts the images into the drives, the first into D0, starts a machine and runs it over its
/// slices, and takes the images out again, as the drives then hold them. The outcome has the
/// history of the machine's record locks.
pub fn run_images<H: Host>(
    alloc: Global,
    start: &Start,
    images: &mut Images,
    host: &mut H,
    devices: &mut Devices,
) -> RunOutcome
    requires devices { DevicesAreFree (length images.old)
        (outside BlockDriver-box CharDriver-box devices.old) }
    requires start { IsValidStart start.now }
    requires volumes { All IsVolume images.old }
    ensures run { OnWorld (λ before after. RunsImages (setup_of start.now images.old) images.new
        (history_left result.records) before after result.end) H.Host host.old host.new
        BlockDriver-box CharDriver-box devices.old devices.new }
    ensures count { length images.new ≡ length images.old }
    ensures notes_kept { notes_of H.Host host.new ≡ notes_of H.Host host.old }
    ensures terminals { vec_len devices.new.terms ≡ vec_len devices.old.terms }
{
    insert_images(alloc, images, devices);
    let outcome = run_machine(alloc, start, images.len(), host, devices);
    eject_images(alloc, images, devices);
    outcome
}
