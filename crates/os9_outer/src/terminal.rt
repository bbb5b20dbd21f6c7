ghost use Rattle.std.specs.Prelude.{◌≡◌, ℕ, ◌<◌, ◌≤◌, Option, IfSome, option_map, IfOk, IfErr, OnOk, OnErr, List, [], ◌∷◌, ◌++◌, length};
ghost use Rattle.os9_base.specs.Count.{Rose};
ghost use Rattle.os9_outer.specs.Stream.{stream_with, emptied};
ghost use Rattle.os9_outer.specs.Terminal.{due_byte, keys_after, OnFault, UnlessFault};
ghost use Rattle.os9_outer.specs.declared.terminal.Key.{Key};

use thiserror::Error;

/// A key of a terminal, and the tick from which on it is due.
#[derive(Clone, Copy, Debug, PartialEq, Eq)]
pub struct Key {
    pub tick: u32,
    pub byte: u8,
}

/// A terminal could not be asked for a key.
#[derive(Clone, Copy, Debug, PartialEq, Eq, Error)]
#[error("the terminal failed")]
pub struct TermFault;

/// Why a byte was not put on a terminal.
#[derive(Clone, Copy, Debug, PartialEq, Eq, Error)]
pub enum PutFault {
    /// The terminal failed. The terminal counts it.
    #[error("the terminal failed")]
    Fault,
    /// Out of memory.
    #[error("no memory")]
    OutOfMemory,
}

/// A terminal: keys not given yet, and bytes that are put on it (this project's own).
///
/// `keys_left` are these keys, in their order. `bytes_put` are the bytes put since the last `take`,
/// if they are observed. `term_faults` counts the faults and never falls.
pub trait CharDriver: Drop {
    ghost keys_left: { Self → List Key };

    ghost bytes_put: { Self → Option (List ℕ) };

    ghost term_faults: { Self → ℕ };

    /// Gives the terminal its keys. They are handed back exactly if keys are left.
    fn load(&mut self, keys: Vec<Key>) -> Result<(), Vec<Key>>
        ensures loaded { OnOk result (keys_left self.new ≡ keys.items) }
        ensures was_empty { OnOk result (keys_left self.old ≡ []) }
        ensures was_loaded { OnErr result (0 < length (keys_left self.old)) }
        ensures handed_back { IfErr result (λ back. back.items ≡ keys.items) }
        ensures keys_kept { OnErr result (keys_left self.new ≡ keys_left self.old) }
        ensures put_kept { bytes_put self.new ≡ bytes_put self.old }
        ensures faults_kept { term_faults self.new ≡ term_faults self.old };

    /// Takes the first key if it is due: its tick is at most this one. Returns None exactly if
    /// there is no such key. A fault takes nothing.
    fn key(&mut self, tick: u32) -> Result<Option<u8>, TermFault>
        ensures answered { IfOk result (λ byte. byte ≡ due_byte (keys_left self.old) tick) }
        ensures taken { OnOk result (keys_left self.new ≡ keys_after (keys_left self.old) tick) }
        ensures keys_kept { OnErr result (keys_left self.new ≡ keys_left self.old) }
        ensures fault_counted { OnErr result (Rose (term_faults self.old) (term_faults self.new)) }
        ensures faults_kept { OnOk result (term_faults self.new ≡ term_faults self.old) }
        ensures never_falls { term_faults self.old ≤ term_faults self.new }
        ensures put_kept { bytes_put self.new ≡ bytes_put self.old };

    /// Puts a byte. After a refusal nothing was put.
    fn put(&mut self, byte: u8) -> Result<(), PutFault>
        ensures put_last { OnOk result
            (bytes_put self.new ≡ stream_with (bytes_put self.old) (byte ∷ [])) }
        ensures put_kept { OnErr result (bytes_put self.new ≡ bytes_put self.old) }
        ensures fault_counted { OnFault result
            (Rose (term_faults self.old) (term_faults self.new)) }
        ensures faults_kept { UnlessFault result (term_faults self.new ≡ term_faults self.old) }
        ensures never_falls { term_faults self.old ≤ term_faults self.new }
        ensures keys_kept { keys_left self.new ≡ keys_left self.old };

    /// Hands over the bytes put since the last call of this function, and leaves none.
    fn take(&mut self) -> Vec<u8>
        ensures handed_over { IfSome (bytes_put self.old) (λ bytes. result.items ≡ bytes) }
        ensures none_left { bytes_put self.new ≡ emptied (bytes_put self.old) }
        ensures keys_kept { keys_left self.new ≡ keys_left self.old }
        ensures faults_kept { term_faults self.new ≡ term_faults self.old };
}
