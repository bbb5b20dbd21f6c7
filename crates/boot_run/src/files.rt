//! The files that the words of a run or a boot name.

ghost use Rattle.std.specs.Prelude.{◌≡◌, ◌≤◌, IfErr, IfOk, IfSome, OnOk, length};
ghost use Rattle.os9_kernel.specs.Outside.{Outside};
ghost use Rattle.os9_words.specs.Command.{most_images};
ghost use Rattle.os9_words.specs.Notes.{HasReadFiles, notes_of};
ghost use Rattle.boot_run.specs.Images.{images_of};
ghost use Rattle.boot_run.specs.World.{world_of};
ghost use Rattle.boot_run.specs.End.{run_file_name};
ghost use Rattle.boot_run.specs.FileNames.{run_inputs, script_names};
ghost use Rattle.boot_run.specs.Reading.{HasBootFiles, HasRunFiles};
ghost use Rattle.boot_run.specs.Setup.{script_of};
ghost use Rattle.boot_run.specs.Stops.{NotesStop, StopsAtRead};

use crate::images::Images;
use crate::input::read_input;
use crate::status::{End, Input};
use os9_outer::host::Host;
use os9_words::command::RunWords;
use std::alloc::Global;

/// The bytes of the files of a run.
#[derive(Drop)]
pub struct RunFiles {
    /// The script of keys. It is empty if the words name none.
    pub script: Vec<u8>,
    /// The list of slices.
    pub slices: Vec<u8>,
    /// The modules.
    pub modules: Vec<u8>,
}

/// The bytes of the files of a boot.
#[derive(Drop)]
pub struct BootFiles {
    /// The script of keys.
    pub script: Vec<u8>,
    /// The list of slices.
    pub slices: Vec<u8>,
    /// The images, the first of which is to be in D0.
    pub images: Images,
}

/// Reads the files that the words name: the script, the slices and the modules, in this order.
///
/// # Errors
///
/// The end of the command, which names the file that could not be read.
pub fn read_files<H: Host>(alloc: Global, run: &RunWords, host: &mut H) -> Result<RunFiles, End>
    requires { length run.now.files ≡ 1 }
    ensures contents { IfOk result (λ read. IfSome (H.file_map host.old) (λ files.
        HasRunFiles files run.now read)) }
    ensures kept { OnOk result ((devices : Outside)
        → world_of H.Host host.new devices ≡ world_of H.Host host.old devices) }
    ensures ended { IfErr result (λ end. (devices : Outside) → StopsAtRead (run_file_name run.now)
        (world_of H.Host host.old devices) (world_of H.Host host.new devices) end) }
    ensures noted { OnOk result (HasReadFiles (run_inputs run.now)
        (notes_of H.Host host.old) (notes_of H.Host host.new)) }
    ensures stopped { IfErr result (λ end. NotesStop (run_file_name run.now) (run_inputs run.now)
        end (notes_of H.Host host.old) (notes_of H.Host host.new)) }
{
    let script = read_script(alloc, run, host)?;
    let slices = read_input(host, &run.slices, Input::Slices)?;
    let modules = read_input(host, run.files.word(0), Input::Modules)?;
    Ok(RunFiles {
        script,
        slices,
        modules,
    })
}

/// Reads the files that the words of a boot name: the script, the slices and the images, in this
/// order.
///
/// # Errors
///
/// The end of the command, which names the file that could not be read.
pub fn read_boot_files<H: Host>(
    alloc: Global,
    run: &RunWords,
    host: &mut H,
) -> Result<BootFiles, End>
    requires { length run.now.files ≤ most_images }
    ensures contents { IfOk result (λ read. IfSome (H.file_map host.old) (λ files.
        HasBootFiles files run.now read)) }
    ensures count { IfOk result (λ read. length read.images ≡ length run.now.files) }
    ensures kept { OnOk result ((devices : Outside)
        → world_of H.Host host.new devices ≡ world_of H.Host host.old devices) }
    ensures ended { IfErr result (λ end. (devices : Outside) → StopsAtRead (run_file_name run.now)
        (world_of H.Host host.old devices) (world_of H.Host host.new devices) end) }
    ensures noted { OnOk result (HasReadFiles (run_inputs run.now)
        (notes_of H.Host host.old) (notes_of H.Host host.new)) }
    ensures stopped { IfErr result (λ end. NotesStop (run_file_name run.now) (run_inputs run.now)
        end (notes_of H.Host host.old) (notes_of H.Host host.new)) }
{
    let script = read_script(alloc, run, host)?;
    let slices = read_input(host, &run.slices, Input::Slices)?;
    let images = read_images(alloc, run, host)?;
    Ok(BootFiles {
        script,
        slices,
        images,
    })
}

/// Reads the images that the words name, in order.
///
/// # Errors
///
/// The end of the command, which names the image that could not be read.
pub fn read_images<H: Host>(alloc: Global, run: &RunWords, host: &mut H) -> Result<Images, End>
    requires { length run.now.files ≤ most_images }
    ensures contents { IfOk result (λ images. IfSome (H.file_map host.old) (λ files.
        images ≡ images_of files run.now.files)) }
    ensures count { IfOk result (λ images. length images ≡ length run.now.files) }
    ensures kept { OnOk result ((devices : Outside)
        → world_of H.Host host.new devices ≡ world_of H.Host host.old devices) }
    ensures ended { IfErr result (λ end. (devices : Outside) → StopsAtRead (run_file_name run.now)
        (world_of H.Host host.old devices) (world_of H.Host host.new devices) end) }
    ensures noted { OnOk result (HasReadFiles run.now.files
        (notes_of H.Host host.old) (notes_of H.Host host.new)) }
    ensures stopped { IfErr result (λ end. NotesStop (run_file_name run.now) run.now.files end
        (notes_of H.Host host.old) (notes_of H.Host host.new)) }
{
    let mut images = Images::none(alloc);
    for place in 0..run.files.len() {
        let image = read_input(host, run.files.word(place), Input::Image(place as u8))?;
        match images.push(image) {
            Ok(()) => {}
            Err(_) => return Err(End::NoMemory),
        }
    }
    Ok(images)
}

/// Reads the script that the words name. Without one its text is empty.
///
/// # Errors
///
/// The end of the command: the script could not be read, or memory is out.
pub fn read_script<H: Host>(alloc: Global, run: &RunWords, host: &mut H) -> Result<Vec<u8>, End>
    ensures contents { IfOk result (λ text. IfSome (H.file_map host.old) (λ files.
        text.items ≡ script_of files run.now)) }
    ensures kept { OnOk result ((devices : Outside)
        → world_of H.Host host.new devices ≡ world_of H.Host host.old devices) }
    ensures ended { IfErr result (λ end. (devices : Outside) → StopsAtRead (run_file_name run.now)
        (world_of H.Host host.old devices) (world_of H.Host host.new devices) end) }
    ensures noted { OnOk result (HasReadFiles (script_names run.now)
        (notes_of H.Host host.old) (notes_of H.Host host.new)) }
    ensures stopped { IfErr result (λ end. NotesStop (run_file_name run.now)
        (script_names run.now) end
        (notes_of H.Host host.old) (notes_of H.Host host.new)) }
{
    match &run.script {
        Some(name) => read_input(host, name, Input::Script),
        None => Ok(Vec::new(alloc)),
    }
}
