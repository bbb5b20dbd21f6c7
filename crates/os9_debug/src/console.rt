ghost use Rattle.std.specs.Prelude.{◌≡◌, ◌<◌, vec_len};
ghost use Rattle.os9_outer.specs.Stream.{emptied};
ghost use Rattle.os9_outer.specs.TerminalState.{ChangesOneTerminal};
ghost use Rattle.device_table.specs.Seen.{terminals_seen};
ghost use Rattle.machine_model.specs.Console.{terminals_emptied};
ghost use Rattle.os9_debug.specs.Devices.{IsEmptied};

use device_table::devices::Devices;
use os9_outer::terminal::CharDriver;

// [`CharDriver::take`] with its bytes discarded.
fn empty_terminal(term: &mut dyn CharDriver)
    ensures none_left { bytes_put term.new ≡ emptied (bytes_put term.old) }
    ensures keys_kept { keys_left term.new ≡ keys_left term.old }
    ensures faults_kept { term_faults term.new ≡ term_faults term.old }
{
    let _ = term.take();
}

// The same for the terminal in a box.
fn empty_box(term: &mut Box<dyn CharDriver>)
    ensures none_left { bytes_put term.new ≡ emptied (bytes_put term.old) }
    ensures keys_kept { keys_left term.new ≡ keys_left term.old }
    ensures faults_kept { term_faults term.new ≡ term_faults term.old }
{
    empty_terminal(&mut **term);
}

// The same for the terminal of this number.
fn empty_at(devices: &mut Devices, n: usize)
    requires { n < vec_len devices.old.terms }
    ensures terminal { ChangesOneTerminal IsEmptied n (terminals_seen CharDriver-box devices.old)
        (terminals_seen CharDriver-box devices.new) }
    ensures terminals { vec_len devices.new.terms ≡ vec_len devices.old.terms }
    ensures drives_kept { devices.new.drives ≡ devices.old.drives }
{
    empty_box(&mut devices.terms[n]);
}

/// Takes the bytes that were put on the terminals.
pub fn empty_terminals(devices: &mut Devices)
    ensures emptied { terminals_seen CharDriver-box devices.new ≡ terminals_emptied
        (terminals_seen CharDriver-box devices.old) }
    ensures terminals { vec_len devices.new.terms ≡ vec_len devices.old.terms }
    ensures drives_kept { devices.new.drives ≡ devices.old.drives }
{
    for n in 0..devices.terms.len() {
        empty_at(devices, n);
    }
}
