ghost use Rattle.std.specs.Prelude.{◌≡◌, ◌<◌, ◌≤◌, All, IfOk, OnOk, OnErr, [], vec_len};
ghost use Rattle.os9_outer.specs.Terminal.{due_byte, keys_after};
ghost use Rattle.os9_base.specs.Count.{Rose};
ghost use Rattle.os9_outer.specs.TerminalState.{ChangesOneTerminal};
ghost use Rattle.device_table.specs.Seen.{terminals_seen};
ghost use Rattle.boot_run.specs.Dropped.{DropsAll, DropsKeys, CanBeTaken};

use device_table::devices::Devices;
use os9_outer::terminal::{CharDriver, TermFault};
use thiserror::Error;

/// The terminal of this number failed when its keys were taken: 0 for TERM, and 1 to 3 for T1 to
/// T3.
#[derive(Clone, Copy, Debug, PartialEq, Eq, Error)]
#[error("terminal {0}")]
pub struct KeysFault(pub u8);

/// A tick at which every key is due.
const LAST: u32 = u32::MAX;

// [`CharDriver::key`] with its clauses by name.
fn next_key(term: &mut dyn CharDriver) -> Result<Option<u8>, TermFault>
    ensures answered { IfOk result (λ byte. byte ≡ due_byte (keys_left term.old) LAST) }
    ensures taken { OnOk result (keys_left term.new ≡ keys_after (keys_left term.old) LAST) }
    ensures fault_counted { OnErr result (Rose (term_faults term.old) (term_faults term.new)) }
    ensures faults_kept { OnOk result (term_faults term.new ≡ term_faults term.old) }
    ensures put_kept { bytes_put term.new ≡ bytes_put term.old }
{
    term.key(LAST)
}

// Takes the keys of a terminal until none is left.
fn drop_keys_of(term: &mut dyn CharDriver) -> Result<(), TermFault>
    ensures dropped { OnOk result (All CanBeTaken (keys_left term.old) → keys_left term.new ≡ []) }
    ensures faults_kept { OnOk result (term_faults term.new ≡ term_faults term.old) }
    ensures put_kept { OnOk result (bytes_put term.new ≡ bytes_put term.old) }
    ensures failed { OnErr result (Rose (term_faults term.old) (term_faults term.new)) }
{
    loop {
        match next_key(term) {
            Ok(Some(_)) => {}
            Ok(None) => return Ok(()),
            Err(fault) => return Err(fault),
        }
    }
}

// As `drop_keys_of`, for the terminal in a box.
fn drop_keys_in(term: &mut Box<dyn CharDriver>) -> Result<(), TermFault>
    ensures dropped { OnOk result (All CanBeTaken (keys_left term.old) → keys_left term.new ≡ []) }
    ensures faults_kept { OnOk result (term_faults term.new ≡ term_faults term.old) }
    ensures put_kept { OnOk result (bytes_put term.new ≡ bytes_put term.old) }
    ensures failed { OnErr result (Rose (term_faults term.old) (term_faults term.new)) }
{
    drop_keys_of(&mut **term)
}

// As `drop_keys_of`, for the terminal of this number.
fn drop_keys_at(devices: &mut Devices, n: usize) -> Result<(), TermFault>
    requires { n < vec_len devices.old.terms }
    ensures terminal { ChangesOneTerminal (DropsKeys result) n
        (terminals_seen CharDriver-box devices.old) (terminals_seen CharDriver-box devices.new) }
    ensures terminals { vec_len devices.new.terms ≡ vec_len devices.old.terms }
    ensures drives_kept { devices.new.drives ≡ devices.old.drives }
{
    drop_keys_in(&mut devices.terms[n])
}

/// Takes the remaining keys of TERM, then of T1, T2 and T3.
///
/// # Errors
///
/// The number of the first terminal that failed.
pub fn drop_keys(devices: &mut Devices) -> Result<(), KeysFault>
    requires { vec_len devices.old.terms ≤ 4 }
    ensures dropped { DropsAll result (terminals_seen CharDriver-box devices.old)
        (terminals_seen CharDriver-box devices.new) }
    ensures terminals { vec_len devices.new.terms ≡ vec_len devices.old.terms }
    ensures drives_kept { devices.new.drives ≡ devices.old.drives }
{
    for n in 0..devices.terms.len() {
        match drop_keys_at(devices, n) {
            Ok(()) => {}
            Err(TermFault) => return Err(KeysFault(n as u8)),
        }
    }
    Ok(())
}
