//! The texts that drive a run.

ghost use Rattle.std.specs.Prelude.{◌≡◌, ◌<◌, Ok, IfErr, IfOk, length};
ghost use Rattle.script_text.specs.Script.{keys_of, AreKeys};
ghost use Rattle.script_text.specs.Slices.{slices_of};
ghost use Rattle.boot_run.specs.Reading.{RefusesTexts};

use crate::status::{End, Input};
use os9_base::limits::LAST_TICK;
use script_text::fault::LineFault;
use script_text::script::{ScriptKey, read_script_for};
use script_text::slices::read_slices;
use std::alloc::Global;

/// What drives a run.
#[derive(Drop)]
pub struct Texts {
    /// The keys of the terminals, in their order.
    pub keys: Vec<ScriptKey>,
    /// The slices, each a number of instructions.
    pub slices: Vec<u32>,
}

/// Reads the script, for a machine with this number of terminals, and then the slices.
///
/// # Errors
///
/// The end of the command: a text is refused, at the first line that breaks a rule, or memory is
/// out.
pub fn read_texts(alloc: Global, script: &[u8], slices: &[u8], terminals: u8) -> Result<Texts, End>
    ensures keys { IfOk result (λ texts.
        keys_of terminals script.now ≡ Ok texts.keys.items) }
    ensures limits { IfOk result (λ texts. AreKeys terminals texts.keys.items) }
    ensures slices { IfOk result (λ texts.
        slices_of slices.now ≡ Ok texts.slices.items) }
    ensures few { IfOk result (λ texts. length texts.slices.items < LAST_TICK) }
    ensures refused { IfErr result
        (RefusesTexts terminals script.now slices.now) }
{
    let keys = match read_script_for(alloc, script, terminals) {
        Ok(keys) => keys,
        Err(LineFault::Line(line)) => return Err(End::BadText(Input::Script, line)),
        Err(LineFault::OutOfMemory) => return Err(End::NoMemory),
    };
    let slices = match read_slices(alloc, slices) {
        Ok(slices) => slices,
        Err(LineFault::Line(line)) => return Err(End::BadText(Input::Slices, line)),
        Err(LineFault::OutOfMemory) => return Err(End::NoMemory),
    };
    Ok(Texts { keys, slices })
}
