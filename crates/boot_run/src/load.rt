ghost use Rattle.std.specs.Prelude.{◌≡◌, ◌<◌, ◌≤◌, [], IfOk, OnOk, OnErr, Some, All, slice_get, vec_len};
ghost use Rattle.os9_outer.specs.TerminalState.{TerminalState, ChangesOneTerminal};
ghost use Rattle.device_table.specs.Seen.{terminals_seen};
ghost use Rattle.boot_run.specs.Loaded.{keys_for, loaded, LoadsTerminalsFrom, HasNoKeys, AreKeysLoaded};

use device_table::devices::Devices;
use os9_outer::terminal::{CharDriver, Key};
use script_text::script::ScriptKey;
use std::alloc::{AllocError, Global};

/// Loads each terminal with the keys of its number, in their order. No terminal may have keys
/// (this project's own).
///
/// # Errors
///
/// Out of memory. No terminal changes then.
pub fn load_keys(alloc: Global, devices: &mut Devices, keys: &[ScriptKey]) -> Result<(), AllocError>
    requires { All HasNoKeys (terminals_seen CharDriver-box devices.old) }
    ensures loaded { OnOk result (terminals_seen CharDriver-box devices.new ≡ loaded keys.now
        (terminals_seen CharDriver-box devices.old)) }
    ensures kept { OnErr result (devices.new ≡ devices.old) }
    ensures terminals { vec_len devices.new.terms ≡ vec_len devices.old.terms }
    ensures drives_kept { devices.new.drives ≡ devices.old.drives }
{
    load_from(alloc, devices, 0, keys)
}

/// Loads the terminals from this number on. The memory for all keys is taken before the first
/// terminal is loaded.
fn load_from(
    alloc: Global,
    devices: &mut Devices,
    number: usize,
    keys: &[ScriptKey],
) -> Result<(), AllocError>
    requires within { number ≤ vec_len devices.old.terms }
    requires unloaded { All HasNoKeys (terminals_seen CharDriver-box devices.old) }
    ensures loaded { OnOk result (LoadsTerminalsFrom number keys.now
        (terminals_seen CharDriver-box devices.old) (terminals_seen CharDriver-box devices.new)) }
    ensures kept { OnErr result (devices.new ≡ devices.old) }
    ensures terminals { vec_len devices.new.terms ≡ vec_len devices.old.terms }
    ensures drives_kept { devices.new.drives ≡ devices.old.drives }
{
    if number == devices.terms.len() {
        return Ok(());
    }
    let own = keys_of_terminal(alloc, number, keys)?;
    load_from(alloc, devices, number + 1, keys)?;
    load_on(devices, number, own);
    Ok(())
}

/// The keys of the terminal of this number, in their order.
fn keys_of_terminal(
    alloc: Global,
    number: usize,
    keys: &[ScriptKey],
) -> Result<Vec<Key>, AllocError>
    ensures { IfOk result (λ own. own.items ≡ keys_for number keys.now) }
{
    keys.iter()
        .filter(|key| usize::from(key.term) == number)
        .map(|key| Key {
            tick: key.tick,
            byte: key.byte,
        })
        .collect(alloc)
}

/// Loads the terminal of this number, which has no keys.
fn load_on(devices: &mut Devices, n: usize, keys: Vec<Key>)
    requires within { n < vec_len devices.old.terms }
    requires unloaded { (terminal : TerminalState)
        → slice_get (terminals_seen CharDriver-box devices.old) n
        ≡ Some terminal → HasNoKeys terminal }
    ensures terminal { ChangesOneTerminal (AreKeysLoaded keys.items) n
        (terminals_seen CharDriver-box devices.old) (terminals_seen CharDriver-box devices.new) }
    ensures terminals { vec_len devices.new.terms ≡ vec_len devices.old.terms }
    ensures drives_kept { devices.new.drives ≡ devices.old.drives }
{
    load_in_box(&mut devices.terms[n], keys);
}

// `load_terminal` for the terminal in a box.
fn load_in_box(term: &mut Box<dyn CharDriver>, keys: Vec<Key>)
    requires { keys_left term.old ≡ [] }
    ensures loaded { keys_left term.new ≡ keys.items }
    ensures put_kept { bytes_put term.new ≡ bytes_put term.old }
    ensures faults_kept { term_faults term.new ≡ term_faults term.old }
{
    load_terminal(&mut **term, keys);
}

// `CharDriver::load` for a terminal without keys, which takes them.
fn load_terminal(term: &mut dyn CharDriver, keys: Vec<Key>)
    requires { keys_left term.old ≡ [] }
    ensures loaded { keys_left term.new ≡ keys.items }
    ensures put_kept { bytes_put term.new ≡ bytes_put term.old }
    ensures faults_kept { term_faults term.new ≡ term_faults term.old }
{
    let _ = term.load(keys);
}
