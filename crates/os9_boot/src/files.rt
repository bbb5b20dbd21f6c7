//! The files that `vol` reads by its words.

ghost use Rattle.std.specs.Prelude.{◌≡◌, ◌≢◌, ◌∷◌, [], IfErr, IfOk, IfSome, OnOk};
ghost use Rattle.os9_outer.specs.Host.{file_contents};
ghost use Rattle.os9_kernel.specs.Outside.{Outside};
ghost use Rattle.os9_words.specs.Notes.{notes_of};
ghost use Rattle.os9_words.specs.Vol.{IsVol};
ghost use Rattle.boot_run.specs.World.{world_of};
ghost use Rattle.boot_run.specs.Stops.{NotesReads, StopsAtRead};
ghost use Rattle.os9_boot.specs.VolLeft.{VolMayEnd};
ghost use Rattle.os9_boot.specs.VolSteps.{HasVolFiles};
ghost use Rattle.os9_boot.specs.Vol.{file_of, file_names, vol_file_name, vol_inputs};

use boot_run::input::read_input;
use boot_run::status::{End, Input};
use os9_outer::host::Host;
use os9_words::vol_words::{Verb, VolWords};
use std::alloc::Global;

/// The bytes of the files that `vol` reads.
#[derive(Drop)]
pub struct VolFiles {
    /// The image of the disk.
    pub image: Vec<u8>,
    /// FILE of `put`; empty for another verb.
    pub file: Vec<u8>,
}

/// Reads the image, and then FILE of `put`.
///
/// # Errors
///
/// The end of the command, which names the file that could not be read.
pub fn read_vol_files<H: Host>(alloc: Global, vol: &VolWords, host: &mut H) -> Result<VolFiles, End>
    requires words { IsVol vol.now }
    requires image { vol.now.verb ≢ Verb.Format }
    ensures contents { IfOk result (λ read. IfSome (H.file_map host.old) (λ files.
        HasVolFiles files vol.now read)) }
    ensures kept { OnOk result ((devices : Outside)
        → world_of H.Host host.new devices ≡ world_of H.Host host.old devices) }
    ensures ended { IfErr result (λ end. (devices : Outside) → StopsAtRead (vol_file_name vol.now)
        (world_of H.Host host.old devices) (world_of H.Host host.new devices) end) }
    ensures may { IfErr result (VolMayEnd vol.now.verb) }
    ensures noted { NotesReads (vol_file_name vol.now) (vol_inputs vol.now) result
        (notes_of H.Host host.old) (notes_of H.Host host.new) }
{
    let image = read_image(vol, host)?;
    let file = read_file(alloc, vol, host)?;
    Ok(VolFiles { image, file })
}

/// Reads the image.
fn read_image<H: Host>(vol: &VolWords, host: &mut H) -> Result<Vec<u8>, End>
    requires { vol.now.verb ≢ Verb.Format }
    ensures contents { IfOk result (λ bytes. IfSome (H.file_map host.old) (λ files.
        bytes.items ≡ file_contents files vol.now.image)) }
    ensures kept { OnOk result ((devices : Outside)
        → world_of H.Host host.new devices ≡ world_of H.Host host.old devices) }
    ensures ended { IfErr result (λ end. (devices : Outside) → StopsAtRead (vol_file_name vol.now)
        (world_of H.Host host.old devices) (world_of H.Host host.new devices) end) }
    ensures may { IfErr result (VolMayEnd vol.now.verb) }
    ensures noted { NotesReads (vol_file_name vol.now) (vol.now.image ∷ []) result
        (notes_of H.Host host.old) (notes_of H.Host host.new) }
{
    read_input(host, &vol.image, Input::Image(0))
}

/// Reads FILE of `put`. Another verb reads none.
fn read_file<H: Host>(alloc: Global, vol: &VolWords, host: &mut H) -> Result<Vec<u8>, End>
    requires { IsVol vol.now }
    ensures contents { IfOk result (λ bytes. IfSome (H.file_map host.old) (λ files.
        vol.now.verb ≡ Verb.Put → bytes.items ≡ file_contents files (file_of vol.now))) }
    ensures kept { OnOk result ((devices : Outside)
        → world_of H.Host host.new devices ≡ world_of H.Host host.old devices) }
    ensures ended { IfErr result (λ end. (devices : Outside) → StopsAtRead (vol_file_name vol.now)
        (world_of H.Host host.old devices) (world_of H.Host host.new devices) end) }
    ensures may { IfErr result (VolMayEnd vol.now.verb) }
    ensures noted { NotesReads (vol_file_name vol.now) (file_names vol.now.verb vol.now) result
        (notes_of H.Host host.old) (notes_of H.Host host.new) }
{
    match vol.verb {
        Verb::Put => read_input(host, vol.rest.word(1), Input::File),
        _ => Ok(Vec::new(alloc)),
    }
}
