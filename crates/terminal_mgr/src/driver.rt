ghost use Rattle.std.specs.Prelude.{◌≡◌, ℕ, ◌≤◌, ◌<◌, length, Option, IfSome, IfOk, OnOk, OnErr, List, [], ◌∷◌};
ghost use Rattle.os9_base.specs.Count.{Rose};
ghost use Rattle.os9_outer.specs.Stream.{stream_with, GainsPart};
ghost use Rattle.os9_outer.specs.Terminal.{due_byte, keys_after, OnFault, UnlessFault};
ghost use Rattle.io_model.specs.Line.{return_place, line_length, line_put};

use io_model::keys::{LINE_FEED, RETURN};
use os9_outer::terminal::{CharDriver, PutFault, TermFault};

// `CharDriver::key` with its clauses by name.
pub(crate) fn next_key(d: &mut dyn CharDriver, tick: u32) -> Result<Option<u8>, TermFault>
    ensures answered { IfOk result (λ byte. byte ≡ due_byte (keys_left d.old) tick) }
    ensures taken { OnOk result (keys_left d.new ≡ keys_after (keys_left d.old) tick) }
    ensures keys_kept { OnErr result (keys_left d.new ≡ keys_left d.old) }
    ensures fault_counted { OnErr result (Rose (term_faults d.old) (term_faults d.new)) }
    ensures faults_kept { OnOk result (term_faults d.new ≡ term_faults d.old) }
    ensures never_falls { term_faults d.old ≤ term_faults d.new }
    ensures put_kept { bytes_put d.new ≡ bytes_put d.old }
{
    d.key(tick)
}

// `CharDriver::put` with its clauses by name.
pub(crate) fn put_byte(d: &mut dyn CharDriver, byte: u8) -> Result<(), PutFault>
    ensures put_last { OnOk result (bytes_put d.new ≡ stream_with (bytes_put d.old) (byte ∷ [])) }
    ensures put_kept { OnErr result (bytes_put d.new ≡ bytes_put d.old) }
    ensures fault_counted { OnFault result (Rose (term_faults d.old) (term_faults d.new)) }
    ensures faults_kept { UnlessFault result (term_faults d.new ≡ term_faults d.old) }
    ensures never_falls { term_faults d.old ≤ term_faults d.new }
    ensures keys_kept { keys_left d.new ≡ keys_left d.old }
{
    d.put(byte)
}

// Puts the bytes one after another, until one is refused.
pub(crate) fn put_bytes(d: &mut dyn CharDriver, bytes: &[u8]) -> Result<(), PutFault>
    ensures all { OnOk result (bytes_put d.new ≡ stream_with (bytes_put d.old) bytes.now) }
    ensures part { OnErr result (GainsPart (bytes_put d.old) bytes.now (bytes_put d.new)) }
    ensures fault_counted { OnFault result (Rose (term_faults d.old) (term_faults d.new)) }
    ensures faults_kept { UnlessFault result (term_faults d.new ≡ term_faults d.old) }
    ensures never_falls { term_faults d.old ≤ term_faults d.new }
    ensures keys_kept { keys_left d.new ≡ keys_left d.old }
{
    for byte in bytes {
        match put_byte(d, *byte) {
            Ok(()) => {}
            Err(refusal) => return Err(refusal),
        }
    }
    Ok(())
}

// The place of the first carriage return.
fn place_of_return(bytes: &[u8]) -> Option<usize>
    ensures place { result ≡ return_place bytes.now }
    ensures within { IfSome result (λ place. place < length bytes.now) }
{
    bytes.iter().position(|byte| *byte == RETURN)
}

// The length of the first line with its carriage return; all bytes if there is no carriage return.
pub(crate) fn line_len(bytes: &[u8]) -> usize
    ensures len { result ≡ line_length bytes.now }
    ensures within { result ≤ length bytes.now }
{
    match place_of_return(bytes) {
        Some(place) => place + 1,
        None => bytes.len(),
    }
}

// Puts the first line, and a line feed after its carriage return.
pub(crate) fn put_line(d: &mut dyn CharDriver, bytes: &[u8]) -> Result<(), PutFault>
    ensures all { OnOk result (bytes_put d.new
        ≡ stream_with (bytes_put d.old) (line_put bytes.now)) }
    ensures part { OnErr result (GainsPart (bytes_put d.old) (line_put bytes.now)
        (bytes_put d.new)) }
    ensures fault_counted { OnFault result (Rose (term_faults d.old) (term_faults d.new)) }
    ensures faults_kept { UnlessFault result (term_faults d.new ≡ term_faults d.old) }
    ensures never_falls { term_faults d.old ≤ term_faults d.new }
    ensures keys_kept { keys_left d.new ≡ keys_left d.old }
{
    match place_of_return(bytes) {
        None => put_bytes(d, bytes),
        Some(place) => {
            match put_bytes(d, &bytes[..place + 1]) {
                Ok(()) => {}
                Err(refusal) => return Err(refusal),
            }
            put_bytes(d, &[LINE_FEED])
        }
    }
}
