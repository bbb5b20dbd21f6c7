ghost use Rattle.std.specs.Prelude.{◌≡◌, ◌≢◌, ◌<◌, IfSome, OnErr, [], vec_len};
ghost use Rattle.os9_outer.specs.Stream.{emptied};
ghost use Rattle.os9_outer.specs.TerminalState.{ChangesOneTerminal};
ghost use Rattle.device_table.specs.Seen.{terminals_seen};
ghost use Rattle.os9_words.specs.Notes.{notes_of};
ghost use Rattle.os9_words.specs.Streams.{WritesOut};
ghost use Rattle.boot_run.specs.Console.{TakesBytes};
ghost use Rattle.boot_run.specs.PassedBytes.{PassesBytes};
ghost use Rattle.boot_run.specs.World.{OnWorld};

use device_table::devices::Devices;
use os9_outer::drive::BlockDriver;
use os9_outer::host::{Host, HostFault};
use os9_outer::terminal::CharDriver;

/// [`CharDriver::take`] with its clauses by name.
fn take_bytes(term: &mut dyn CharDriver) -> Vec<u8>
    ensures handed_over { IfSome (bytes_put term.old) (λ bytes. result.items ≡ bytes) }
    ensures none_left { bytes_put term.new ≡ emptied (bytes_put term.old) }
    ensures keys_kept { keys_left term.new ≡ keys_left term.old }
    ensures faults_kept { term_faults term.new ≡ term_faults term.old }
{
    term.take()
}

/// [`take_bytes`] for the terminal in a box.
fn take_from_box(term: &mut Box<dyn CharDriver>) -> Vec<u8>
    ensures handed_over { IfSome (bytes_put term.old) (λ bytes. result.items ≡ bytes) }
    ensures none_left { bytes_put term.new ≡ emptied (bytes_put term.old) }
    ensures keys_kept { keys_left term.new ≡ keys_left term.old }
    ensures faults_kept { term_faults term.new ≡ term_faults term.old }
{
    take_bytes(&mut **term)
}

/// Takes the bytes that were put on the terminal of this number.
fn take_from(devices: &mut Devices, n: usize) -> Vec<u8>
    requires { n < vec_len devices.old.terms }
    ensures terminal { ChangesOneTerminal (TakesBytes result.items) n
        (terminals_seen CharDriver-box devices.old) (terminals_seen CharDriver-box devices.new) }
    ensures terminals { vec_len devices.new.terms ≡ vec_len devices.old.terms }
    ensures drives_kept { devices.new.drives ≡ devices.old.drives }
{
    take_from_box(&mut devices.terms[n])
}

/// Passes the bytes that were put on TERM, then those of T1, T2 and T3, to the output stream.
///
/// # Errors
///
/// The output has gained a prefix of these bytes.
pub fn pass_on<H: Host>(devices: &mut Devices, host: &mut H) -> Result<(), HostFault>
    ensures passed { OnWorld (PassesBytes result) H.Host host.old host.new
        BlockDriver-box CharDriver-box devices.old devices.new }
    ensures notes_kept { notes_of H.Host host.new ≡ notes_of H.Host host.old }
    ensures terminals { vec_len devices.new.terms ≡ vec_len devices.old.terms }
    ensures drives_kept { devices.new.drives ≡ devices.old.drives }
{
    for n in 0..devices.terms.len() {
        let bytes = take_from(devices, n);
        write_out(host, bytes.as_slice())?;
    }
    Ok(())
}

/// Writes the bytes to the output stream, if there are any.
fn write_out<H: Host>(host: &mut H, bytes: &[u8]) -> Result<(), HostFault>
    ensures written { WritesOut H.Host bytes.now result host.old host.new }
    ensures some { OnErr result (bytes.now ≢ []) }
{
    if bytes.is_empty() {
        return Ok(());
    }
    host.out(bytes)
}
