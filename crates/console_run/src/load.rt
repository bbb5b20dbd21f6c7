//! Keys are loaded.

ghost use Rattle.std.specs.Prelude.{◌≡◌, ◌<◌, ◌∷◌, [], IfOk, OnErr, OnOk, IsFalse, IsTrue, length, map, vec_len};
ghost use Rattle.device_table.specs.Seen.{terminals_seen};
ghost use Rattle.run_laws.specs.Session.{keys_loaded};
ghost use Rattle.console_run.specs.Typed.{keys_typed, part_bytes};
ghost use Rattle.console_run.specs.Kept.{IsKept};
ghost use Rattle.console_run.specs.Turn.{LoadsKeys};
ghost use Rattle.console_run.specs.Waiting.{term_keys};

use crate::typed::{Typed, TypedPart};
use device_table::devices::Devices;
use os9_outer::terminal::{CharDriver, Key};
use std::alloc::{AllocError, Global};

/// The terminal at which a person types.
const TERM: usize = 0;

/// Loads TERM, which has no keys left, with keys of these bytes, and keeps them. They are due in
/// this tick.
///
/// # Errors
///
/// Memory is out: nothing was loaded.
pub(crate) fn load_part(
    alloc: Global,
    bytes: &[u8],
    tick: u32,
    typed: &mut Typed,
    devices: &mut Devices,
) -> Result<(), AllocError>
    requires some { 0 < vec_len devices.old.terms }
    requires none_left { term_keys (terminals_seen CharDriver-box devices.old) ≡ [] }
    requires bytes { 0 < length bytes.now }
    ensures loaded { OnOk result (LoadsKeys (keys_typed tick bytes.now) typed.old typed.new
        (terminals_seen CharDriver-box devices.old) (terminals_seen CharDriver-box devices.new)) }
    ensures typed_kept { OnErr result (IsKept typed.old typed.new) }
    ensures devices_kept { OnErr result (devices.new ≡ devices.old) }
    ensures terminals { vec_len devices.new.terms ≡ vec_len devices.old.terms }
    ensures drives_kept { devices.new.drives ≡ devices.old.drives }
{
    let keys = keys_of_bytes(alloc, bytes, tick)?;
    let part = part_of(alloc, bytes, tick)?;
    typed.parts.push(part)?;
    load_term(devices, keys);
    Ok(())
}

/// What is kept of keys with these bytes, all due in one tick.
fn part_of(alloc: Global, bytes: &[u8], tick: u32) -> Result<TypedPart, AllocError>
    requires { 0 < length bytes.now }
    ensures tick { IfOk result (λ part. part.tick ≡ tick) }
    ensures bytes { IfOk result (λ part. part_bytes part ≡ bytes.now) }
{
    let end = bytes.len() - 1;
    let last = bytes[end];
    let front = Vec::from_slice(alloc, &bytes[..end])?;
    Ok(TypedPart {
        tick,
        bytes: front,
        last,
    })
}

/// Keys with these bytes, all due in one tick.
fn keys_of_bytes(alloc: Global, bytes: &[u8], tick: u32) -> Result<Vec<Key>, AllocError>
    ensures { IfOk result (λ keys. keys.items
        ≡ map (λ byte. record { tick = tick; byte = byte }) bytes.now) }
{
    bytes
        .iter()
        .map(|byte| Key { tick, byte: *byte })
        .collect(alloc)
}

/// Loads TERM, which has no keys left, with these.
fn load_term(devices: &mut Devices, keys: Vec<Key>)
    requires some { 0 < vec_len devices.old.terms }
    requires none_left { term_keys (terminals_seen CharDriver-box devices.old) ≡ [] }
    ensures loaded { terminals_seen CharDriver-box devices.new
        ≡ keys_loaded (terminals_seen CharDriver-box devices.old) (keys.items ∷ []) }
    ensures terminals { vec_len devices.new.terms ≡ vec_len devices.old.terms }
    ensures drives_kept { devices.new.drives ≡ devices.old.drives }
{
    load_in_box(&mut devices.terms[TERM], keys);
}

/// Has TERM no keys left? A terminal takes keys exactly then, be they none.
pub(crate) fn has_no_keys(alloc: Global, devices: &mut Devices) -> bool
    requires some { 0 < vec_len devices.old.terms }
    ensures none { IsTrue result → term_keys (terminals_seen CharDriver-box devices.old) ≡ [] }
    ensures left { IsFalse result → ¬ (term_keys (terminals_seen CharDriver-box devices.old) ≡ []) }
    ensures kept { terminals_seen CharDriver-box devices.new
        ≡ terminals_seen CharDriver-box devices.old }
    ensures terminals { vec_len devices.new.terms ≡ vec_len devices.old.terms }
    ensures drives_kept { devices.new.drives ≡ devices.old.drives }
{
    takes_keys(&mut devices.terms[TERM], Vec::new(alloc))
}

// `CharDriver::load` of the terminal in a box, which has no keys.
fn load_in_box(term: &mut Box<dyn CharDriver>, keys: Vec<Key>)
    requires none_left { keys_left term.old ≡ [] }
    ensures loaded { keys_left term.new ≡ keys.items }
    ensures put_kept { bytes_put term.new ≡ bytes_put term.old }
    ensures faults_kept { term_faults term.new ≡ term_faults term.old }
{
    let _ = takes_keys(term, keys);
}

// `CharDriver::load` of the terminal in a box, which takes keys if it has none.
fn takes_keys(term: &mut Box<dyn CharDriver>, keys: Vec<Key>) -> bool
    ensures loaded { IsTrue result → keys_left term.new ≡ keys.items }
    ensures was_empty { IsTrue result → keys_left term.old ≡ [] }
    ensures was_loaded { IsFalse result → ¬ (keys_left term.old ≡ []) }
    ensures kept { IsFalse result → keys_left term.new ≡ keys_left term.old }
    ensures put_kept { bytes_put term.new ≡ bytes_put term.old }
    ensures faults_kept { term_faults term.new ≡ term_faults term.old }
{
    load_terminal(&mut **term, keys)
}

// `CharDriver::load` of a terminal.
fn load_terminal(term: &mut dyn CharDriver, keys: Vec<Key>) -> bool
    ensures loaded { IsTrue result → keys_left term.new ≡ keys.items }
    ensures was_empty { IsTrue result → keys_left term.old ≡ [] }
    ensures was_loaded { IsFalse result → ¬ (keys_left term.old ≡ []) }
    ensures kept { IsFalse result → keys_left term.new ≡ keys_left term.old }
    ensures put_kept { bytes_put term.new ≡ bytes_put term.old }
    ensures faults_kept { term_faults term.new ≡ term_faults term.old }
{
    term.load(keys).is_ok()
}
