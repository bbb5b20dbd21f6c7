ghost use Rattle.std.specs.Prelude.{◌≡◌, ◌≤◌, IfOk, OnOk, OnErr, true, None, [], ◌∷◌, ◌++◌, length, take};
ghost use Rattle.io_model.specs.Terminal.{signal_of, typed_bytes, dropped_count};
ghost use Rattle.terminal_mgr.specs.Polling.{Rings, RingsInAll, Polls};
ghost use Rattle.terminal_mgr.specs.Term.{lent_terminal_state};

use crate::driver::{next_key, put_byte};
use crate::type_ahead::TypeAhead;
use io_model::keys::{BELL, INTERRUPT, QUIT};
use io_model::terminal::Arrival;
use os9_base::call::OutOfMemory;
use os9_outer::terminal::{CharDriver, PutFault};

// The signal that a key sends.
fn key_signal(key: u8) -> Option<u8>
    ensures { result ≡ signal_of key }
{
    match key {
        INTERRUPT => Some(3),
        QUIT => Some(2),
        _ => None,
    }
}

// Puts a bell. A failure of the terminal is ignored.
fn ring(d: &mut dyn CharDriver) -> Result<(), OutOfMemory>
    ensures rung { OnOk result (RingsInAll 1 (lent_terminal_state CharDriver-dyn d.old)
        (lent_terminal_state CharDriver-dyn d.new)) }
    ensures no_memory { OnErr result (Rings 0 0 (lent_terminal_state CharDriver-dyn d.old)
        (lent_terminal_state CharDriver-dyn d.new)) }
{
    match put_byte(d, BELL) {
        Ok(()) => Ok(()),
        Err(PutFault::Fault) => Ok(()),
        Err(PutFault::OutOfMemory) => Err(OutOfMemory),
    }
}

// A key arrives: it is kept, or a bell is put if the type-ahead is full, or it sends a signal.
fn accept(ahead: &mut TypeAhead, key: u8, d: &mut dyn CharDriver) -> Result<Option<u8>, OutOfMemory>
    requires { length ahead.old ≤ 256 }
    ensures signal { IfOk result (λ signal. signal ≡ signal_of key) }
    ensures kept { ahead.new ≡ take 256 (ahead.old ++ typed_bytes (key ∷ [])) }
    ensures rung { OnOk result (RingsInAll (dropped_count ahead.old (key ∷ []))
        (lent_terminal_state CharDriver-dyn d.old) (lent_terminal_state CharDriver-dyn d.new)) }
    ensures no_signal { OnErr result (signal_of key ≡ None) }
    ensures within { length ahead.new ≤ 256 }
    ensures no_memory { OnErr result ((1 ≡ dropped_count ahead.old (key ∷ [])) × Rings 0 0
        (lent_terminal_state CharDriver-dyn d.old) (lent_terminal_state CharDriver-dyn d.new)) }
{
    match key_signal(key) {
        Some(signal) => Ok(Some(signal)),
        None => {
            if !ahead.keep(key) {
                ring(d)?;
            }
            Ok(None)
        }
    }
}

// The keys that are due at a tick arrive, until none is due, the driver fails to give one, or a
// bell finds no memory.
pub(crate) fn poll(ahead: &mut TypeAhead, tick: u32, d: &mut dyn CharDriver) -> Arrival
    requires { length ahead.old ≤ 256 }
    ensures polled { Polls tick None ahead.old ahead.new (lent_terminal_state CharDriver-dyn d.old)
        (lent_terminal_state CharDriver-dyn d.new) result }
    ensures within { length ahead.new ≤ 256 }
{
    let mut signal = None;
    loop {
        match next_key(d, tick) {
            Ok(Some(key)) => match accept(ahead, key, d) {
                Ok(sent) => signal = signal.or(sent),
                Err(_) => {
                    return Arrival {
                        signal,
                        memory: false,
                    };
                }
            },
            Ok(None) => return polled(signal),
            Err(_) => return polled(signal),
        }
    }
}

// A poll that no bell ended.
fn polled(signal: Option<u8>) -> Arrival
    ensures { result ≡ record { signal = signal; memory = true } }
{
    Arrival {
        signal,
        memory: true,
    }
}
