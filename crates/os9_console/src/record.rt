//! The record of a session: the files with its script and its slices.

ghost use Rattle.std.specs.Prelude.{IfOk, IsSome};
ghost use Rattle.boot_run.specs.World.{world_of};
ghost use Rattle.boot_run.specs.Left.{IsSilent};
ghost use Rattle.os9_kernel.specs.Outside.{Outside};
ghost use Rattle.os9_words.specs.Notes.{notes_of};
ghost use Rattle.os9_console.specs.Record.{HasWrittenRecord, RecordsIfAsked, RecordsSession};
ghost use Rattle.console_run.specs.Texts.{FitsTexts, GiveSession};

use crate::words::ConsoleWords;
use boot_run::output::write_output;
use boot_run::status::{End, Input};
use console_run::texts::{fits_texts, script_of, slices_of};
use console_run::typed::Typed;
use os9_outer::host::{Host, HostFault};
use os9_words::command::RunWords;
use std::alloc::{AllocError, Global};

/// How a session was recorded.
#[derive(Clone, Copy, Debug, PartialEq, Eq)]
pub enum Recording {
    /// It was not to be.
    Unasked,
    /// Its files are written.
    Written,
    /// It is longer than texts may be.
    TooLong,
    /// The file of this text could not be written.
    Unwritten(Input),
    /// Out of memory.
    NoMemory,
}

/// The texts of a session.
#[derive(Drop)]
struct Record {
    script: Vec<u8>,
    slices: Vec<u8>,
}

/// Records a session that ended so, if the words say so and its images are written.
pub(crate) fn record_session<H: Host>(
    alloc: Global,
    words: &ConsoleWords,
    typed: &Typed,
    end: End,
    host: &mut H,
) -> Recording
    requires { IsSome words.now.boot.script }
    ensures recorded { (devices : Outside) → RecordsIfAsked words.now typed.now end result
        (world_of H.Host host.old devices) (world_of H.Host host.new devices) }
    ensures noted { HasWrittenRecord words.now.boot result
        (notes_of H.Host host.old) (notes_of H.Host host.new) }
{
    match end {
        End::Ended | End::Living if words.recorded => write_record(alloc, &words.boot, typed, host),
        _ => Recording::Unasked,
    }
}

/// Writes the script and the slices of a session to the files that these words of a boot over its
/// record name.
fn write_record<H: Host>(alloc: Global, boot: &RunWords, typed: &Typed, host: &mut H) -> Recording
    requires { IsSome boot.now.script }
    ensures recorded { (devices : Outside) → RecordsSession boot.now typed.now result
        (world_of H.Host host.old devices) (world_of H.Host host.new devices) }
    ensures silent { (devices : Outside) → IsSilent
        (world_of H.Host host.old devices) (world_of H.Host host.new devices) }
    ensures noted { HasWrittenRecord boot.now result
        (notes_of H.Host host.old) (notes_of H.Host host.new) }
{
    if !fits_texts(typed) {
        return Recording::TooLong;
    }
    let Some(script) = &boot.script else {
        return Recording::Unasked;
    };
    let Ok(record) = make_record(alloc, typed) else {
        return Recording::NoMemory;
    };
    match write_output(host, script, record.script.as_slice()) {
        Ok(()) => {}
        Err(HostFault::Failed) => return Recording::Unwritten(Input::Script),
        Err(HostFault::OutOfMemory) => return Recording::NoMemory,
    }
    match write_output(host, &boot.slices, record.slices.as_slice()) {
        Ok(()) => Recording::Written,
        Err(HostFault::Failed) => Recording::Unwritten(Input::Slices),
        Err(HostFault::OutOfMemory) => Recording::NoMemory,
    }
}

/// The texts of a session, which give its keys and its slices.
fn make_record(alloc: Global, typed: &Typed) -> Result<Record, AllocError>
    requires { FitsTexts typed.now }
    ensures { IfOk result (λ it. GiveSession typed.now it.script.items it.slices.items) }
{
    Ok(Record {
        script: script_of(alloc, typed)?,
        slices: slices_of(alloc, typed)?,
    })
}
