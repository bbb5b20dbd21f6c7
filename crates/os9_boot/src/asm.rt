//! `asm` from its words to its end.

ghost use Rattle.std.specs.Prelude.{IfErr, IfOk};
ghost use Rattle.os9_kernel.specs.Outside.{Outside};
ghost use Rattle.os9_words.specs.Notes.{notes_of};
ghost use Rattle.boot_run.specs.World.{world_of};
ghost use Rattle.os9_boot.specs.Asm.{MakesModule};
ghost use Rattle.os9_boot.specs.AsmCall.{AsmCall, NotesAsm};
ghost use Rattle.os9_boot.specs.AsmSteps.{NotesOut, RefusesSource, WritesAsmOut};

use asm6809::{AsmFault, assemble};
use boot_run::input::read_input;
use boot_run::output::write_output;
use boot_run::status::{End, Input};
use os9_outer::host::{Host, HostFault};
use os9_words::asm_words::AsmWords;
use std::alloc::Global;

/// `asm SOURCE OUT` (this project's own): reads SOURCE, assembles it, and writes its module as OUT.
///
/// If SOURCE cannot be read or is refused, no file is written. The output and the devices are
/// unchanged.
pub fn do_asm<H: Host>(alloc: Global, asm: &AsmWords, host: &mut H) -> End
    ensures call { (devices : Outside) → AsmCall asm.now
        (world_of H.Host host.old devices) (world_of H.Host host.new devices) result }
    ensures noted { NotesAsm asm.now result (notes_of H.Host host.old) (notes_of H.Host host.new) }
{
    let source = match read_input(host, &asm.source, Input::Source) {
        Ok(source) => source,
        Err(end) => return end,
    };
    match make_module(alloc, &source) {
        Ok(module) => write_module(asm, &module, host),
        Err(end) => end,
    }
}

/// The module that a source makes.
///
/// # Errors
///
/// The end of the command: the source is refused, or memory is out.
fn make_module(alloc: Global, source: &[u8]) -> Result<Vec<u8>, End>
    ensures made { IfOk result (λ bytes. MakesModule source.now bytes.items) }
    ensures refused { IfErr result (RefusesSource source.now) }
{
    match assemble(alloc, source) {
        Ok(bytes) => Ok(bytes),
        Err(AsmFault::Line(line, error)) => Err(End::BadSource(line, error)),
        Err(AsmFault::OutOfMemory) => Err(End::NoMemory),
    }
}

/// Writes a module as OUT.
fn write_module<H: Host>(asm: &AsmWords, bytes: &[u8], host: &mut H) -> End
    ensures wrote { (devices : Outside) → WritesAsmOut asm.now bytes.now result
        (world_of H.Host host.old devices) (world_of H.Host host.new devices) }
    ensures noted { NotesOut asm.now result (notes_of H.Host host.old) (notes_of H.Host host.new) }
{
    match write_output(host, &asm.out, bytes) {
        Ok(()) => End::Ended,
        Err(HostFault::Failed) => End::CannotWriteFile,
        Err(HostFault::OutOfMemory) => End::NoMemory,
    }
}
